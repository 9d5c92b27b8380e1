//! The top call answers where memory is left: the sum of two words from its model to a run, and each other command on a small file,
//! as cases of this program.
use crate::answer::found_by;
use crate::files::Held;
use row_cases::read_case;
use rup_base::List;
use rup_io::MemFiles;
use std::alloc::Global;
use std::test::Fail;

const COMPILE: &str = "a derivation is found
words compile m
file m text (model sum (params (x word) (y word)) (require) (do (let z (add x y))) (ret z))
keep derivation
= status 0
= out 1 kept, 110 bytes
= notes 1 compile: nodes 4\\n";

const REPLAY: &str = "an image is written
words replay m derivation
file m text (model sum (params (x word) (y word)) (require) (do (let z (add x y))) (ret z))
keep image
= status 0
= out 1 kept, 136 bytes
= notes 1 replay: nodes 4 locals 3 depth 2 weight 59 bound 59\\n";

const CODE: &str = "the command is written
words code m derivation
file m text (model sum (params (x word) (y word)) (require) (do (let z (add x y))) (ret z))
= status 0
= out 1 (seq (set v2 (add v0 v1)))\\n";

const RUN: &str = "the image is run
words run image 40 2
= status 0
= out 1 0000002a\\n
= notes 1 run: returned in 10 steps, bound 59\\n";

const EVAL: &str = "the model is evaluated
words eval m 40 2
file m text (model sum (params (x word) (y word)) (require) (do (let z (add x y))) (ret z))
= status 0
= out 1 0000002a\\n";

const SHOW: &str = "the image is listed
words show i
file i hex 52555031 01000000 44000000 40000000 04000000 00000000 40000000 00000000
more hex 00000000 00000000 00000000 01000000 ffffffff ffffffff 0a000000 00000000 6f000000
= status 0
= out 1 image 1 entry 64 stack 0 code 4 tables 0 bound 10\\n00000040 0000006f\\n";

const BENCH: &str = "a model is generated, compiled and run
words bench 1 1
= status 0
= out 1 bench 1 1 nodes 36 weight 155 bound 155 result 0000000b 00000002\\n";

/// Whether a case has its wanted answer, where these files are held.
fn holds(alloc: Global, held: &mut Held, text: &str) -> Result<bool, Fail> {
    let mut disk = MemFiles::new(List::new(alloc), List::new(alloc));
    let Some(case) = read_case(alloc, text)? else {
        return Ok(false);
    };
    match found_by(alloc, &mut disk, held, &case) {
        Ok(found) => Ok(found.as_str() == case.wanted.as_str()),
        Err(_) => Ok(false),
    }
}

#[test]
fn compile_replay_code_and_run_answer(rt: HostRuntime) -> Result<(), Fail> {
    let mut held = Vec::new(rt.alloc());
    let is_compiled = holds(rt.alloc(), &mut held, COMPILE)?;
    let is_replayed = holds(rt.alloc(), &mut held, REPLAY)?;
    assert_eq!(rt; (is_compiled, is_replayed), (true, true));
    let is_shown = holds(rt.alloc(), &mut held, CODE)?;
    let is_run = holds(rt.alloc(), &mut held, RUN)?;
    assert_eq!(rt; (is_shown, is_run), (true, true));
    Ok(())
}

#[test]
fn eval_answers(rt: HostRuntime) -> Result<(), Fail> {
    let mut held = Vec::new(rt.alloc());
    assert_eq!(rt; holds(rt.alloc(), &mut held, EVAL)?, true);
    Ok(())
}

#[test]
fn show_answers(rt: HostRuntime) -> Result<(), Fail> {
    let mut held = Vec::new(rt.alloc());
    assert_eq!(rt; holds(rt.alloc(), &mut held, SHOW)?, true);
    Ok(())
}

#[test]
fn bench_answers(rt: HostRuntime) -> Result<(), Fail> {
    let mut held = Vec::new(rt.alloc());
    assert_eq!(rt; holds(rt.alloc(), &mut held, BENCH)?, true);
    Ok(())
}
