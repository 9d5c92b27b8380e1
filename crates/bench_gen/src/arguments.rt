//! The arguments of a generated model.
ghost use Rattle.std.specs.Prelude.{◌≡◌, ℕ, ◌≤◌, IfOk};
ghost use Rattle.bench_gen.specs.Generator as generator;

use rup_base::{Arg, List, NoMemory, Text};
use std::alloc::Global;

/// How many bytes the array has.
const BYTES: u32 = 64;

/// The arguments of each model that a seed gives: the seed, and 64 bytes, of which the k-th from 0 is
/// `(7*k + seed) mod 256`.
#[tactic(auto, using(crate::proofs::Counting::mapped_more))]
pub fn args_from(alloc: Global, seed: u32) -> Result<List<Arg>, NoMemory>
    ensures { IfOk result (λ args. args ≡ generator.arguments seed) }
{
    let mut bytes = Text::new(alloc);
    for k in 0..BYTES {
        bytes.push(byte(k, seed))?;
    }
    let mut args = List::new(alloc);
    args.push(Arg::Word(seed))?;
    args.push(Arg::Bytes(bytes))?;
    Ok(args)
}

/// The byte at place k.
fn byte(k: u32, seed: u32) -> u8
    ensures { result ≡ generator.byte seed k }
{
    ((u64::from(k) * 7 + u64::from(seed)) % 256) as u8
}
