//! Loads, stores and look-ups of one, two and four bytes, the lowest byte first.
ghost use Rattle.std.specs.Prelude.{◌≡◌, ℕ, ◌^◌, ◌<◌, Some, None, slice_get, if◌then◌else◌};
ghost use Rattle.bed_syntax.specs.declared.operation.Size.TheVariants as sizes;
ghost use Rattle.bed_meaning.specs.Access.{word, loaded, entry, store};

use bed_syntax::Size;
use rv_memory::Memory;

/// What lies in the memory at an address, if all of it does and the address is a multiple of the size.
pub fn load(mem: &Memory, size: Size, at: u32) -> Option<u32>
    ensures { result ≡ loaded size mem.now at }
{
    match size {
        Size::One => mem.get(at).map(u32::from),
        Size::Two => if at % 2 == 0 {
            mem.get_two(at).map(u32::from)
        } else {
            None
        },
        Size::Four => if at % 4 == 0 { mem.get_four(at) } else { None },
    }
}

/// What lies in a table at an offset, if all of it does and the offset is a multiple of the size.
pub fn look_up(bytes: &[u8], size: Size, at: u32) -> Option<u32>
    ensures { result ≡ entry size bytes.now at }
{
    let i = at as usize;
    match size {
        Size::One => Some(u32::from(*bytes.get(i)?)),
        Size::Two => if at % 2 == 0 {
            look_up_two(bytes, i)
        } else {
            None
        },
        Size::Four => if at % 4 == 0 {
            look_up_four(bytes, i)
        } else {
            None
        },
    }
}

fn look_up_two(bytes: &[u8], i: usize) -> Option<u32>
    requires { i < 2 ^ 32 }
    ensures { result ≡ word (λ a. slice_get bytes.now a) sizes.Two i }
{
    let first = u32::from(*bytes.get(i)?);
    let second = u32::from(*bytes.get(i + 1)?);
    Some(first + 256 * second)
}

fn look_up_four(bytes: &[u8], i: usize) -> Option<u32>
    requires { i < 2 ^ 32 }
    ensures { result ≡ word (λ a. slice_get bytes.now a) sizes.Four i }
{
    let first = u32::from(*bytes.get(i)?);
    let second = u32::from(*bytes.get(i + 1)?);
    let third = u32::from(*bytes.get(i + 2)?);
    let fourth = u32::from(*bytes.get(i + 3)?);
    Some(first + 256 * (second + 256 * (third + 256 * fourth)))
}

/// Stores the low bytes of `value`, and says whether a load there has an answer. Else nothing changes.
pub fn save(mem: &mut Memory, size: Size, at: u32, value: u32) -> bool
    ensures { store size mem.old at value ≡ (if result then Some mem.new else None) }
{
    match size {
        Size::One => mem.set(at, (value & 0xff) as u8),
        Size::Two => at % 2 == 0 && mem.set_two(at, (value & 0xffff) as u16),
        Size::Four => at % 4 == 0 && mem.set_four(at, value),
    }
}
