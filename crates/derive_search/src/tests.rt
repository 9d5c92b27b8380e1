//! A model whose derivation was worked out by hand; the rows of `compile` have the others, and what is refused.
use crate::derive;
use deriv_tree::Rule;
use equations::WordBook;
use model_reader::read_model;
use model_types::{Typed, check_types};
use std::alloc::Global;
use std::test::Fail as Failed;

fn typed(alloc: Global, text: &[u8]) -> Result<Typed, Failed> {
    if text.len() > 1000 {
        return Err("a short text".into());
    }
    let model = read_model(alloc, 1, text)?;
    Ok(check_types(alloc, model)?)
}

#[test]
fn the_last_byte_of_an_array_is_put(rt: HostRuntime) -> Result<(), Failed> {
    let text: &[u8] =
        b"(model edge (params (a (bytes n))) (require (le 1 n)) (do (put a (sub n 1) (byte 7))) (ret (a in a)))";
    let model = typed(rt.alloc(), text)?;
    let derivation = derive(rt.alloc(), &model, &[], &WordBook)?;
    assert_eq!(rt; derivation.size(), 6);
    let [put] = derivation.body.nodes.as_slice() else {
        return Err("one statement".into());
    };
    assert_eq!(rt; put.step.rule, Rule::SPut);
    let [index, value] = put.kids.as_slice() else {
        return Err("index and value".into());
    };
    assert_eq!(rt;
        (index.step.rule, value.step.rule),
        (Rule::ESub, Rule::EByte)
    );
    let [cert] = index.step.certs.as_slice() else {
        return Err("one certificate".into());
    };
    let [entry] = cert.entries.as_slice() else {
        return Err("one entry".into());
    };
    assert_eq!(rt; (entry.kind, entry.number, entry.mult), (0, 0, 1));
    Ok(())
}
