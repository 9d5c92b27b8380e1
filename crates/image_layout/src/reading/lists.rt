//! The four lists behind the fixed fields.
ghost use Rattle.std.specs.Prelude.{◌≤◌, ◌<◌, ◌^◌, length, OnOk, IfOk};
ghost use Rattle.rup_base.specs.Answers.{Answers};
ghost use Rattle.image_layout.specs.Reading as spec;

use crate::reading::bound_terms::bound;
use crate::reading::fields::{word, wrong};
use crate::reading::parameters::{parameters, symbol_count};
use crate::reading::requirements::requirements;
use crate::reading::results::results;
use cost_poly::Poly;
use rup_base::{Fail, Kind, List};
use side_certs::Form;
use std::alloc::Global;

/// The greatest number of requirements.
const MOST_REQUIREMENTS: u32 = 4_096;

/// The numbers of entries in the lists.
#[derive(Clone, Copy)]
struct Counts {
    params: u32,
    requires_: u32,
    rets: u32,
    bound: u32,
}

/// The counts stand behind the other fixed fields.
fn read_counts(bytes: &[u8]) -> Result<Counts, Fail>
    requires short { length bytes.now < 2 ^ 32 }
    ensures answer { Answers result (spec.judged (spec.count_fields bytes.now) (spec.counts_of bytes.now)) }
    ensures whole { OnOk result (48 ≤ length bytes.now) }
{
    let params = word(bytes, 32)?;
    let requires_ = word(bytes, 36)?;
    if requires_ > MOST_REQUIREMENTS {
        return Err(wrong(36));
    }
    let rets = word(bytes, 40)?;
    let bound = word(bytes, 44)?;
    Ok(Counts {
        params,
        requires_,
        rets,
        bound,
    })
}

/// The lists, and the offset behind them, in bytes from the start of the image.
#[derive(Drop)]
pub struct Lists {
    pub params: List<Kind>,
    pub requires_: List<Form>,
    pub rets: List<Option<u32>>,
    pub bound: Poly,
    pub header: usize,
}

/// Reads the four lists behind the fixed fields, after their counts.
pub fn read_lists(alloc: Global, bytes: &[u8]) -> Result<Lists, Fail>
    requires short { length bytes.now < 2 ^ 32 }
    ensures answer { Answers result (spec.judged (spec.list_fields bytes.now) (spec.lists_of bytes.now)) }
    ensures inside { IfOk result (λ l. l.header ≤ length bytes.now) }
    ensures fixed { OnOk result (48 ≤ length bytes.now) }
{
    let counts = read_counts(bytes)?;
    let (params, after_params) = parameters(alloc, bytes, counts.params, 48)?;
    let symbols = symbol_count(params.as_slice());
    let (requires_, after_requires) = requirements(
        alloc,
        bytes,
        symbols,
        counts.requires_,
        after_params,
    )?;
    let (rets, after_rets) = results(alloc, bytes, params.as_slice(), counts.rets, after_requires)?;
    let (bound, header) = bound(bytes, symbols, counts.bound, after_rets)?;
    Ok(Lists {
        params,
        requires_,
        rets,
        bound,
        header,
    })
}
