//! The state that a run of an image starts from, its end, and the results then.
ghost use Rattle.image_layout.specs.Spelling.{IsWithinLimits};

use crate::arguments::of_words;
use image_layout::{Image, read_image};
use row_cases::{Fault, refused, shown};
use run_setup::{RETURN_ADDRESS, load, print_results, read_results};
use rup_base::Args;
use rv_machine::{End, Machine};
use std::alloc::Global;

/// The most steps of a run.
const STEPS: u64 = 10;

/// The start of a call of an image at arguments: the program counter and the registers that are not 0, in hexadecimal.
pub fn started(alloc: Global, bytes: &[u8], line: &str) -> Result<String, Fault> {
    let image = match read_image(alloc, bytes) {
        Ok(image) => image,
        Err(fail) => return refused(alloc, &fail),
    };
    let args = of_words(alloc, line)?;
    match load(alloc, &image, &args) {
        Ok(machine) => state_text(alloc, &machine),
        Err(fail) => refused(alloc, &fail),
    }
}

fn state_text(alloc: Global, machine: &Machine) -> Result<String, Fault> {
    let mut line = String::from_str(alloc, "pc=")?;
    write!(line, "{:x}", machine.pc)?;
    for (register, number) in machine.regs.iter().enumerate() {
        if *number != 0 {
            write!(line, " x{register}={number:x}")?;
        }
    }
    Ok(line)
}

/// The end of a run of ten steps, and the results where a0 is 7 at the start.
pub fn run(alloc: Global, bytes: &[u8], line: &str) -> Result<String, Fault> {
    let image = match read_image(alloc, bytes) {
        Ok(image) => image,
        Err(fail) => return refused(alloc, &fail),
    };
    let args = of_words(alloc, line)?;
    ended(alloc, &image, &args)
}

fn ended(alloc: Global, image: &Image, args: &Args) -> Result<String, Fault>
    requires { IsWithinLimits image.now }
{
    let mut machine = match load(alloc, image, args) {
        Ok(machine) => machine,
        Err(fail) => return refused(alloc, &fail),
    };
    machine.regs[10] = 7;
    let mut text = end_text(alloc, machine.run(RETURN_ADDRESS, STEPS))?;
    let results = read_results(alloc, &machine, image, args)?;
    let printed = print_results(alloc, &results)?;
    text.push_str(shown(alloc, printed.as_slice())?.as_str())?;
    Ok(text)
}

fn end_text(alloc: Global, end: End) -> Result<String, Fault> {
    Ok(match end {
        End::Returned { steps } => format!(in alloc; "returned {steps}; ")?,
        End::OutOfSteps { steps } => format!(in alloc; "out of steps {steps}; ")?,
        End::Trapped { cause, pc, steps } => format!(in alloc;
            "trapped {cause} {pc:08x} {steps}; "
        )?,
    })
}
