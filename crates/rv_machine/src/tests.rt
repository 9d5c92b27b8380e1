//! A run of three instructions, whose words are what `llvm-mc -triple=riscv32 -mattr=+m` of LLVM 14 gives.

use crate::{End, Machine};
use rup_base::{List, Text};
use rv_memory::Memory;
use std::test::Fail;

// a0 counts down to 0, and then the code returns to 0x2000.
#[test]
fn a_count_down_returns(rt: HostRuntime) -> Result<(), Fail> {
    let mut code = Text::new(rt.alloc());
    for word in [0xfff5_0513u32, 0xfe05_1ee3, 0x0000_8067] {
        code.extend_from_slice(&word.to_le_bytes())?;
    }
    let mut regions = List::new(rt.alloc());
    assert!(&rt; code.len() <= 12);
    regions.push((0x1000, code))?;
    let mem = Memory::new(rt.alloc(), regions)?;
    let mut machine = Machine {
        regs: [0; 32],
        pc: 0x1000,
        mem,
    };
    machine.regs[1] = 0x2000;
    machine.regs[10] = 3;
    assert_eq!(&rt; machine.run(0x2000, 1000), End::Returned { steps: 7 });
    Ok(())
}
