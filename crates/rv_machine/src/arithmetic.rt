// What the register instructions compute, on words (RISC-V Unprivileged ISA 20191213, section 2.4 and chapter 7).

ghost use Rattle.std.specs.Prelude.{◌≡◌, ℕ, ◌+◌, ◌<◌};
ghost use Rattle.rv_machine.specs.Word.{shifted_left, shifted_right, shifted_signed, is_less_signed, one_if, product};
ghost use Rattle.rv_machine.specs.Word.{high_signed, high_mixed, high_unsigned, quotient_signed, quotient, remainder_signed};
ghost use Rattle.rv_machine.specs.Word.{remainder};

pub fn one_if(holds: bool) -> u32
    ensures { result ≡ one_if holds }
{
    u32::from(holds)
}

pub fn shift_left(a: u32, b: u32) -> u32
    ensures { result ≡ shifted_left a b }
{
    a << (b & 31)
}

pub fn shift_right(a: u32, b: u32) -> u32
    ensures { result ≡ shifted_right a b }
{
    a >> (b & 31)
}

/// A shift that copies the sign bit.
pub fn shift_signed(a: u32, b: u32) -> u32
    ensures { result ≡ shifted_signed a b }
{
    (a.cast_signed() >> (b & 31)).cast_unsigned()
}

pub fn is_less_signed(a: u32, b: u32) -> bool
    ensures { result ≡ is_less_signed a b }
{
    a.cast_signed() < b.cast_signed()
}

/// The low word of the product.
pub fn product(a: u32, b: u32) -> u32
    ensures { result ≡ product a b }
{
    a.wrapping_mul(b)
}

/// The high word of the product of two signed words.
pub fn high_signed(a: u32, b: u32) -> u32
    ensures { result ≡ high_signed a b }
{
    let product = i64::from(a.cast_signed()) * i64::from(b.cast_signed());
    (product.cast_unsigned() >> 32) as u32
}

/// The high word of the product of a signed and an unsigned word.
pub fn high_mixed(a: u32, b: u32) -> u32
    ensures { result ≡ high_mixed a b }
{
    let product = i64::from(a.cast_signed()) * i64::from(b);
    (product.cast_unsigned() >> 32) as u32
}

/// The high word of the product of two unsigned words.
pub fn high_unsigned(a: u32, b: u32) -> u32
    ensures { result ≡ high_unsigned a b }
{
    let product = u64::from(a) * u64::from(b);
    (product >> 32) as u32
}

/// The quotient of signed words, rounded towards zero; all ones by zero.
pub fn quotient_signed(a: u32, b: u32) -> u32
    ensures { result ≡ quotient_signed a b }
{
    if b == 0 {
        u32::MAX
    } else {
        a.cast_signed()
            .wrapping_div(b.cast_signed())
            .cast_unsigned()
    }
}

/// The quotient of unsigned words; all ones by zero.
pub fn quotient(a: u32, b: u32) -> u32
    ensures { result ≡ quotient a b }
{
    if b == 0 { u32::MAX } else { a / b }
}

/// The remainder of signed words, with the sign of the dividend; the dividend by zero.
pub fn remainder_signed(a: u32, b: u32) -> u32
    ensures { result ≡ remainder_signed a b }
{
    if b == 0 {
        a
    } else {
        a.cast_signed()
            .wrapping_rem(b.cast_signed())
            .cast_unsigned()
    }
}

/// The remainder of unsigned words; the dividend by zero.
pub fn remainder(a: u32, b: u32) -> u32
    ensures { result ≡ remainder a b }
{
    if b == 0 { a } else { a % b }
}
