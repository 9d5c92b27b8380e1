//! A product that was worked out by hand.
use crate::*;
use side_certs::Form;
use std::test::*;

/// 3*s1 times 4*s1 is 12*s1*s1.
#[test]
fn a_square_of_a_symbol(rt: HostRuntime) -> Result<(), Fail> {
    let bound = Poly::term(Some(1), None, 3).ok_or("the bound")?;
    let form = Form::symbol(1).scale(4).ok_or("the form")?;
    let square = bound.scale(&form).ok().ok_or("the square")?;
    assert_eq!(rt; square.coefficient(Some(1), Some(1)), 12, "its square");
    assert_eq!(rt; square.at(&[0, 5]), 300, "12 times 25");
    Ok(())
}
