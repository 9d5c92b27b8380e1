//! What no clause says: that the calls succeed where memory is left. The draws of seed 7 were computed apart from the code.
use crate::*;
use model_syntax::{Expr, Op, Stmt};
use rup_base::Arg;
use std::test::Fail;

#[test]
fn a_model_is_made(rt: HostRuntime) -> Result<(), Fail> {
    let model = model_from(rt.alloc(), 7, 2)?;
    let body = model.body.as_slice();
    assert_eq!(rt; body.len(), 10);
    // (let x2 (add x4 x6)) and (let x4 (xor x1 (mul x0 31)))
    let sum =
        matches!(&body[8], Stmt::Let(name, Expr::Bin(Op::Add, _, _)) if name.text() == b"x2".as_slice());
    let mix =
        matches!(&body[9], Stmt::Let(name, Expr::Bin(Op::Xor, _, _)) if name.text() == b"x4".as_slice());
    assert_eq!(rt; (sum, mix), (true, true));
    Ok(())
}

#[test]
fn arguments_are_made(rt: HostRuntime) -> Result<(), Fail> {
    let args = args_from(rt.alloc(), 255)?;
    let [Arg::Word(word), Arg::Bytes(bytes)] = args.as_slice() else {
        return Err(Fail::from("a word and bytes"));
    };
    assert_eq!(rt; (*word, bytes.len()), (255, 64));
    assert_eq!(rt; &bytes.as_slice()[..3], [255, 6, 13].as_slice());
    Ok(())
}
