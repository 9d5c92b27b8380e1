//! Which types of names are the same, and copies of them.
ghost use Rattle.std.specs.Prelude.{◌≡◌, IfOk};
ghost use Rattle.model_syntax.specs.Scope as spec;

use model_syntax::{Len, NameType, Scalar};
use rup_base::NoMemory;
use std::alloc::Global;

pub fn same_scalar(one: Scalar, two: Scalar) -> bool
    ensures { result ≡ spec.same_scalar one two }
{
    matches!(
        (one, two),
        (Scalar::Word, Scalar::Word) | (Scalar::Byte, Scalar::Byte) | (Scalar::Flag, Scalar::Flag)
    )
}

fn same_length(one: &Len, two: &Len) -> bool
    ensures { result ≡ spec.same_length one.now two.now }
{
    match (one, two) {
        (Len::Fixed(n), Len::Fixed(k)) => n == k,
        (Len::Named(n), Len::Named(k)) => n == k,
        _ => false,
    }
}

pub fn same_type(one: &NameType, two: &NameType) -> bool
    ensures { result ≡ spec.same_type one.now two.now }
{
    match (one, two) {
        (NameType::Scalar(t), NameType::Scalar(u)) => same_scalar(*t, *u),
        (NameType::Array(t, n), NameType::Array(u, k)) => same_scalar(*t, *u) && same_length(n, k),
        _ => false,
    }
}

pub fn copy_length(alloc: Global, length: &Len) -> Result<Len, NoMemory>
    ensures { IfOk result (λ copy. copy ≡ length.now) }
{
    match length {
        Len::Fixed(n) => Ok(Len::Fixed(*n)),
        Len::Named(n) => Ok(Len::Named(n.copy(alloc)?)),
    }
}

pub fn copy_type(alloc: Global, shape: &NameType) -> Result<NameType, NoMemory>
    ensures { IfOk result (λ copy. copy ≡ shape.now) }
{
    match shape {
        NameType::Scalar(t) => Ok(NameType::Scalar(*t)),
        NameType::Array(t, n) => Ok(NameType::Array(*t, copy_length(alloc, n)?)),
    }
}
