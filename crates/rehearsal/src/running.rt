//! Runs of the image.
ghost use Rattle.image_layout.specs.Spelling.{IsWithinLimits};

use image_layout::{Image, read_image};
use row_cases::{Calls, Fault, bytes_of, refused, shown};
use run_setup::{RETURN_ADDRESS, load, print_results, read_results};
use rup_base::{Arg, Args, List, Text};
use rv_machine::End;
use std::alloc::Global;

/// The image that is run.
#[derive(Drop)]
pub struct Rehearsal {
    pub image: Text,
}

impl Calls for Rehearsal {
    fn answer(&self, alloc: Global, call: &str) -> Result<String, Fault> {
        let Some(("run", bytes)) = call.split_once(' ') else {
            return Err(Fault::BadLine);
        };
        let image = match read_image(alloc, self.image.as_slice()) {
            Ok(image) => image,
            Err(fail) => return refused(alloc, &fail),
        };
        let mut args = List::new(alloc);
        args.push(Arg::Bytes(bytes_of(alloc, bytes)?))?;
        run(alloc, &image, &args)
    }
}

/// The results of a call, which has as many steps as the bound at one byte says.
fn run(alloc: Global, image: &Image, args: &Args) -> Result<String, Fault>
    requires { IsWithinLimits image.now }
{
    let mut machine = match load(alloc, image, args) {
        Ok(machine) => machine,
        Err(fail) => return refused(alloc, &fail),
    };
    let steps = u64::try_from(image.bound.at(&[1])).unwrap_or(u64::MAX);
    match machine.run(RETURN_ADDRESS, steps) {
        End::Returned { .. } => {}
        _ => return Ok(String::from_str(alloc, "not returned")?),
    }
    let results = read_results(alloc, &machine, image, args)?;
    let printed = print_results(alloc, &results)?;
    shown(alloc, printed.as_slice())
}
