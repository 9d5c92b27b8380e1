//! Numbers and digits as texts and words of a command line spell them.
ghost use Rattle.std.specs.Prelude.{◌≡◌, ◌≤◌, ◌<◌};
ghost use Rattle.std.specs.Char.{digit_value};
ghost use Rattle.rup_base.specs.Number as spec;
ghost use Rattle.rup_base.specs.Spelling.{hex_digit};

/// The value of a digit or a letter: 10 to 35 for a letter of either case, and 36 for another byte.
fn digit_value(byte: u8) -> u32
    ensures { result ≡ digit_value byte }
{
    match byte {
        b'0'..=b'9' => byte as u32 - 48,
        b'A'..=b'Z' => byte as u32 - 55,
        b'a'..=b'z' => byte as u32 - 87,
        _ => 36,
    }
}

/// The number of digits of a radix, `None` where one is no digit or the number is greater than 4294967295.
#[tactic(auto, using(crate::proofs::laws::Numerals::numeral_more, crate::proofs::laws::Numerals::numeral_no_digit, crate::proofs::laws::Numerals::numeral_above))]
pub fn numeral(radix: u32, digits: &[u8]) -> Option<u32>
    requires { 1 ≤ radix }
    ensures { result ≡ spec.numeral radix digits.now }
{
    let mut number: u32 = 0;
    for digit in digits {
        let digit = digit_value(*digit);
        if digit >= radix {
            return None;
        }
        let longer = number as u64 * radix as u64 + digit as u64;
        if longer > u32::MAX as u64 {
            return None;
        }
        number = longer as u32;
    }
    Some(number)
}

fn hexadecimal(digits: &[u8]) -> Option<u32>
    ensures { result ≡ spec.hexadecimal digits.now }
{
    if 1 <= digits.len() && digits.len() <= 8 {
        numeral(16, digits)
    } else {
        None
    }
}

fn after_zero(rest: &[u8]) -> Option<u32>
    ensures { result ≡ spec.after_zero rest.now }
{
    match rest {
        [] => Some(0),
        [first, digits @ ..] => {
            if *first == b'x' {
                hexadecimal(digits)
            } else {
                None
            }
        }
    }
}

/// The number that the bytes spell: `0`, or a digit 1 to 9 and digits, or `0x` and one to eight
/// hexadecimal digits of either case. It is at most 4294967295.
pub fn number_of(text: &[u8]) -> Option<u32>
    ensures { result ≡ spec.number text.now }
{
    match text {
        [] => None,
        [first, rest @ ..] => {
            if *first == b'0' {
                after_zero(rest)
            } else {
                numeral(10, text)
            }
        }
    }
}

/// The digit of a number below 16 to the base 16, of lower case.
pub fn hex_digit(digit: u8) -> u8
    requires { digit < 16 }
    ensures { result ≡ hex_digit digit }
{
    if digit < 10 {
        b'0' + digit
    } else {
        b'a' + (digit - 10)
    }
}
