//! What no clause says: that files are read and printed where memory is left.
use crate::*;
use std::test::Fail as Failed;

#[test]
fn what_was_read_is_printed(rt: HostRuntime) -> Result<(), Failed> {
    let file = b" {\"nodes\": [], \"model\": \"_\", \"deriv\": 1,\n \"block\": 0}";
    let derivation = read_derivation(rt.alloc(), file).ok().ok_or("a file")?;
    let printed = print_derivation(rt.alloc(), &derivation)?;
    let want = b"{\"block\":0,\"deriv\":1,\"model\":\"_\",\"nodes\":[]}\n";
    assert_eq!(rt; printed.as_slice(), want.as_slice());
    Ok(())
}
