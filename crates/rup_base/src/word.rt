//! Results of 32-bit words that Rust has no operator for.
ghost use Rattle.std.specs.Prelude.{◌≡◌, ◌<◌, ◌<ℤ◌, ◌↔◌, ◌*◌, ◌/◌, ◌^◌, IsTrue};
ghost use Rattle.rup_base.specs.Word.{signed, signed_less, high_product, shift_signed};

/// `a` is less than `b` where each is read in two's complement.
pub fn signed_less(a: u32, b: u32) -> bool
    ensures value { result ≡ signed_less a b }
    ensures order { IsTrue result ↔ (signed a <ℤ signed b) }
{
    a.cast_signed() < b.cast_signed()
}

/// The upper 32 bits of the 64-bit product of `a` and `b` without sign.
pub fn high_product(a: u32, b: u32) -> u32
    ensures { result ≡ high_product a b }
{
    let product = u64::from(a) * u64::from(b);
    (product >> 32) as u32
}

/// `a` shifted to the right by `k`, below 32, with copies of its sign bit.
pub fn shift_signed(a: u32, k: u32) -> u32
    requires { k < 32 }
    ensures { result ≡ shift_signed a k }
{
    if a < 0x8000_0000 { a >> k } else { !(!a >> k) }
}
