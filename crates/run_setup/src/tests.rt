//! Arguments from words, the state that a small image starts from, and printed results.
ghost use Rattle.image_layout.specs.Spelling.{IsWithinLimits};

use crate::*;
use image_layout::{Image, read_image};
use rup_base::{Arg, Kind, List, NoMemory, Results, Text};
use rup_io::MemFiles;
use rv_machine::End;
use std::alloc::Global;
use std::process::Abort;
use std::test::*;

/// What reading one word for a parameter is to give.
#[derive(Drop)]
enum Wanted {
    Word(u32),
    Bytes(&'static [u8]),
    Words(&'static [u32]),
}

fn word(alloc: Global, text: &str) -> Result<Vec<String>, NoMemory> {
    let mut words = Vec::new(alloc);
    words.push(String::from_str(alloc, text)?)?;
    Ok(words)
}

/// One file of the name `data`.
fn files(alloc: Global) -> Result<MemFiles, NoMemory> {
    let mut held = List::new(alloc);
    let name = Text::from_slice(alloc, b"data")?;
    held.push((name, Text::from_slice(alloc, &[1, 0, 0, 2])?))?;
    Ok(MemFiles::new(held, List::new(alloc)))
}

/// Whether reading the word gives what is wanted.
fn gives(alloc: Global, kind: Kind, text: &str, wanted: &Wanted) -> Result<bool, NoMemory> {
    let words = word(alloc, text)?;
    let mut files = files(alloc)?;
    let read = read_args(alloc, &[kind], words.as_slice(), 0, &mut files);
    Ok(match read {
        Ok(args) => is_one(args.as_slice(), wanted),
        Err(_) => false,
    })
}

fn is_one(args: &[Arg], wanted: &Wanted) -> bool {
    match (args, wanted) {
        ([Arg::Word(n)], Wanted::Word(m)) => n == m,
        ([Arg::Bytes(bytes)], Wanted::Bytes(all)) => bytes.as_slice() == *all,
        ([Arg::Words(words)], Wanted::Words(all)) => words.as_slice() == *all,
        _ => false,
    }
}

#[test]
fn words_as_arguments(rt: HostRuntime) -> Result<(), Fail> {
    let rows = [
        (Kind::Word, "0xFf", Wanted::Word(255)),
        (Kind::Bytes(Some(2)), "hex:0aF1", Wanted::Bytes(&[10, 241])),
        (Kind::Words(Some(1)), "data", Wanted::Words(&[0x0200_0001])),
    ];
    for (kind, text, wanted) in &rows {
        let is_so = gives(rt.alloc(), *kind, *text, wanted)?;
        assert!(rt; is_so, "{text}");
    }
    Ok(())
}

#[test]
fn results_as_lines(rt: HostRuntime) -> Result<(), Fail> {
    let alloc: Global = rt.alloc();
    let mut words = List::new(alloc);
    words.push(0x0403_0201)?;
    let mut results = List::new(alloc);
    results.push(Arg::Word(0x8000_00af))?;
    results.push(Arg::Bytes(Text::from_slice(alloc, &[0x0a, 0xf1])?))?;
    results.push(Arg::Words(words))?;
    let printed = print_results(alloc, &results).ok().ok_or("memory")?;
    assert_eq!(rt;
        printed.as_slice(),
        b"800000af\n0af1\n01020304\n".as_slice(),
        "the lines"
    );
    Ok(())
}

/// The image of a jump to itself at offset 80 with a scalar result, and without parameters and stack.
const LOOP_WITH_RESULT: [u32; 21] = [
    0x3150_5552,
    1,
    0x54,
    0x50,
    4,
    0,
    0x50,
    0,
    0,
    0,
    1,
    1,
    0xffff_ffff,
    0xffff_ffff,
    0xffff_ffff,
    10,
    0,
    0,
    0,
    0,
    0x6f,
];

/// The results that a run of the image ends with if a0 is 7 then, where it starts and ends as it is to.
fn results_at(
    alloc: Global,
    image: &Image,
    pc: u32,
    sp: u32,
) -> Result<Option<Results>, rup_base::Fail>
    requires { IsWithinLimits image.now }
{
    let args = List::new(alloc);
    let mut machine = load(alloc, image, &args)?;
    let starts = machine.pc == pc && machine.regs[1] == 0x1000 && machine.regs[2] == sp;
    machine.regs[10] = 7;
    let results = read_results(alloc, &machine, image, &args)?;
    let end = machine.run(RETURN_ADDRESS, 10);
    if starts && end == (End::OutOfSteps { steps: 10 }) {
        Ok(Some(results))
    } else {
        Ok(None)
    }
}

fn run_of(
    alloc: Global,
    words: &[u32],
    pc: u32,
    sp: u32,
) -> Result<Option<Results>, rup_base::Fail> {
    let mut bytes = Text::new(alloc);
    for word in words {
        bytes.extend_from_slice(&word.to_le_bytes())?;
    }
    let image = read_image(alloc, bytes.as_slice())?;
    results_at(alloc, &image, pc, sp)
}

#[test]
fn a_result_is_read(rt: HostRuntime) -> Result<(), Fail> {
    let found = run_of(rt.alloc(), &LOOP_WITH_RESULT, 0x1_0050, 0x1_0060)
        .ok()
        .ok_or("memory")?;
    let results = found.ok_or("the start or the end")?;
    assert!(rt; is_one(results.as_slice(), &Wanted::Word(7)), "a0");
    Ok(())
}
