//! What no clause says: that the calls succeed where memory is left.
use crate::*;
use rup_base::Text;
use std::test::Fail as Failed;

#[test]
fn a_form_is_read_and_printed(rt: HostRuntime) -> Result<(), Failed> {
    let forms = read_forms(rt.alloc(), 1, b" (a  b);c\n")?;
    let form = forms.as_slice().get(0).ok_or("a form")?;
    let mut text = Text::new(rt.alloc());
    print_form(&mut text, form)?;
    assert_eq!(rt; text.as_slice(), b"(a b)".as_slice());
    Ok(())
}
