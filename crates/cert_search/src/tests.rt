//! A search that was worked out by hand.
use crate::*;
use side_certs::Form;
use std::test::*;

/// The constant and a coefficient for each symbol from 0 on.
fn form(constant: i64, coefficients: [i64; 3]) -> Result<Form, &'static str> {
    let mut form = Form::constant(constant).ok_or("the number is within the limit")?;
    for s in 0..3 {
        let multiple = Form::symbol(s).scale(coefficients[s as usize]);
        let multiple = multiple.ok_or("the coefficient is within the limit")?;
        form = form.add(&multiple).ok_or("the sum is within the limits")?;
    }
    Ok(form)
}

#[test]
fn newer_facts_are_tried_first_and_given_up(rt: HostRuntime) -> Result<(), Fail> {
    // Of 20 - 2*s0 + 3*s1 - s2 the newest fact doesn't divide -2. Twice the one before it leaves 3*s1 - s2 - 80, and then
    // -s2 - 80 at best. Twice the oldest leaves 20 + s1 - s2, once more 20 + s0 - s2, then s0 and the top of s2 leave 0.
    let facts = [
        form(0, [-1, 1, 0])?,
        form(50, [-1, 0, 0])?,
        form(1, [3, 0, 0])?,
    ];
    let goal = form(20, [-2, 3, -1])?;
    let wanted = [(0, 0, 2), (0, 0, 1), (1, 0, 1), (2, 2, 1)];
    match find(rt.alloc(), &facts, &[10, 20, 20], &goal)? {
        None => assert!(rt; false, "the goal closes"),
        Some(certificate) => {
            assert_eq!(rt; certificate.d, 1, "the goal is taken once");
            let entries = certificate.entries.as_slice();
            assert_eq!(rt; entries.len(), wanted.len(), "the number of entries");
            for (entry, (kind, number, mult)) in entries.iter().zip(wanted) {
                assert_eq!(rt;
                    (entry.kind, entry.number, entry.mult),
                    (kind, number, mult),
                    "an entry"
                );
            }
        }
    }
    Ok(())
}
