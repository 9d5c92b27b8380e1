//! What no clause says: that a memory is made where memory is left.

use crate::Memory;
use rup_base::{List, Text};
use std::alloc::Global;
use std::test::Fail;

#[test]
fn the_last_address_has_its_byte(rt: HostRuntime) -> Result<(), Fail> {
    let alloc: Global = rt.alloc();
    let mut regions = List::new(alloc);
    regions.push((4294967295, Text::from_slice(alloc, &[7])?))?;
    let memory = Memory::new(alloc, regions)?;
    assert_eq!(&rt; (memory.get(4294967295), memory.get(0)), (Some(7), None));
    Ok(())
}
