// Bytes of the memory, and halves of words, as the loads and stores have them (RISC-V Unprivileged ISA 20191213,
// section 2.6).

ghost use Rattle.std.specs.Prelude.{◌≡◌, ℕ, is_some, if◌then◌else◌};
ghost use Rattle.rv_machine.specs.State.{number_at, with_number};

use rv_memory::Memory;

/// The byte at an address, if the memory has it.
#[tactic(auto, unfolding(crate::specs::State::number_at))]
pub fn read_byte(mem: &Memory, at: u32) -> Option<u8>
    ensures { result ≡ number_at mem.now 1 at }
{
    mem.get(at)
}

/// Stores the low byte of `value`, and says whether the memory has the address. Else nothing changes.
#[tactic(auto, unfolding(crate::specs::State::number_at, crate::specs::State::with_number))]
pub fn write_byte(mem: &mut Memory, at: u32, value: u32) -> bool
    ensures found { result ≡ is_some (number_at mem.old 1 at) }
    ensures value { mem.new ≡ (if result then with_number mem.old 1 at value else mem.old) }
{
    mem.set(at, (value & 0xff) as u8)
}

/// Stores the low two bytes of `value`, and says whether the memory has both addresses. Else nothing changes.
pub fn write_half(mem: &mut Memory, at: u32, value: u32) -> bool
    ensures found { result ≡ is_some (number_at mem.old 2 at) }
    ensures value { mem.new ≡ (if result then with_number mem.old 2 at value else mem.old) }
{
    mem.set_two(at, (value & 0xffff) as u16)
}
