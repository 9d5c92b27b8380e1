//! How long an image is, which is known without writing it.
ghost use Rattle.std.specs.Prelude.{◌≡◌, ◌≤◌, length};
ghost use Rattle.std.specs.List.{flat_map};
ghost use Rattle.image_layout.specs.Spelling as spec;

use crate::image::Image;
use side_certs::Form;

/// The length of the image's bytes.
#[tactic(auto, using(crate::proofs::laws::Length::spelling_size, crate::proofs::laws::Length::lists_small))]
pub fn image_length(i: &Image) -> u32
    requires { spec.IsWithinLimits i.now }
    ensures length { result ≡ length (spec.spelling i.now) }
    ensures small { result ≤ 1_600_000 }
{
    code_offset(i) + i.code.len() as u32 + i.tables.len() as u32
}

/// The offset of the code from the image's start, in bytes. It depends on the lists alone, and so is known before the
/// entry, which lies behind it.
pub fn code_offset(i: &Image) -> u32
    requires { length (spec.lists i.now) ≤ 450_000 }
    ensures { result ≡ spec.code_offset i.now }
{
    (48 + lists_length(i)).next_multiple_of(16)
}

/// The length of the lists of parameters, requirements, results and terms of the bound.
#[tactic(auto, using(crate::proofs::laws::Length::lists_size))]
fn lists_length(i: &Image) -> u32
    requires { length (spec.lists i.now) ≤ 450_000 }
    ensures { result ≡ length (spec.lists i.now) }
{
    8 * i.params.len() as u32
        + requirements_length(i.requires_.as_slice())
        + 4 * i.rets.len() as u32
        + 16 * i.bound.terms().len() as u32
}

#[tactic(auto, using(crate::proofs::laws::Length::requirement_size))]
fn requirements_length(requires_: &[Form]) -> u32
    requires { length (flat_map spec.requirement requires_.now) ≤ 450_000 }
    ensures { result ≡ length (flat_map spec.requirement requires_.now) }
{
    let mut length = 0;
    let mut left = requires_;
    'forms: while let [first, rest @ ..] = left {
        length += 12 + 12 * first.terms();
        left = rest;
    }
    length
}
