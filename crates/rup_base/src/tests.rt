//! What no clause says: that the calls succeed where memory is left.
use crate::*;
use std::test::Fail as Failed;

#[test]
fn a_name_is_read_and_copied(rt: HostRuntime) -> Result<(), Failed> {
    let name = Name::read(rt.alloc(), b"a_1B9")?.ok_or("a name")?;
    assert_eq!(rt; name.text(), b"a_1B9".as_slice(), "the bytes of a name");
    let copy = name.copy(rt.alloc())?;
    assert!(rt; copy == name, "its copy");
    Ok(())
}

#[test]
fn containers_hold_what_they_are_given(rt: HostRuntime) -> Result<(), Failed> {
    let mut list = List::new(rt.alloc());
    assert!(rt; list.is_empty(), "a new list");
    list.push(7u32)?;
    list.push(9)?;
    assert_eq!(rt; list.as_slice(), [7, 9].as_slice(), "a list of two");
    assert_eq!(rt; list.len(), 2, "its length");
    let list = List::from_vec(list.into_vec());
    assert_eq!(rt;
        list.as_slice(),
        [7, 9].as_slice(),
        "a list by way of a vector"
    );

    let mut text = Text::from_slice(rt.alloc(), b"ab")?;
    text.push(b'c')?;
    text.extend_from_slice(b"de")?;
    assert_eq!(rt; text.as_slice(), b"abcde".as_slice(), "a text of five");
    assert_eq!(rt; text.len(), 5, "its length");
    let text = Text::from_vec(text.into_vec());
    assert_eq!(rt;
        text.as_slice(),
        b"abcde".as_slice(),
        "a text by way of a vector"
    );
    assert!(rt; Text::new(rt.alloc()).is_empty(), "a new text");

    let boxed = Box::new(rt.alloc(), 5u32)?;
    assert_eq!(rt; (*boxed, *boxed.get()), (5, 5), "a box");
    assert_eq!(rt; boxed.into_inner(), 5, "what was in a box");
    Ok(())
}

#[test]
fn a_refusal_prints_a_line(rt: HostRuntime) -> Result<(), Failed> {
    let refusal = Refusal::NotText {
        word: 1,
        at: 6,
        why: TextWhy::Unclosed,
    };
    let line = refusal_line(rt.alloc(), &refusal)?;
    assert_eq!(rt;
        line.as_slice(),
        b"refused 1 NotText 1 6 unclosed\n".as_slice(),
        "a printed line"
    );
    Ok(())
}
