//! Models: their text both ways, what is counted of them, their names, and copies of expressions.
use model_printer::{print_expr, print_model};
use model_reader::read_model;
use model_syntax::{
    Model, Stmt, block_depth, copy_expr, expression_depth, first_names, statements, table_bytes,
};
use row_cases::{Fault, operand, refused, shown};
use rup_base::{Fail, Text};
use std::alloc::Global;

/// The model of an operand, or its refusal.
fn read(alloc: Global, text: &str) -> Result<Result<Model, Fail>, Fault> {
    let bytes = operand(alloc, text)?;
    Ok(read_model(alloc, 1, bytes.as_slice()))
}

/// The canonical spelling of a model, or why the text is none.
pub fn printed(alloc: Global, text: &str) -> Result<String, Fault> {
    match read(alloc, text)? {
        Ok(model) => {
            let printed = print_model(alloc, &model)?;
            shown(alloc, printed.as_slice())
        }
        Err(fail) => refused(alloc, &fail),
    }
}

/// The statements, the depth of expressions, the depth of blocks and the bytes of tables.
pub fn counts(alloc: Global, text: &str) -> Result<String, Fault> {
    match read(alloc, text)? {
        Ok(model) => {
            let (all, depth) = (statements(&model), expression_depth(&model));
            let (blocks, tables) = (block_depth(&model), table_bytes(&model));
            Ok(format!(in alloc; "{all} {depth} {blocks} {tables}")?)
        }
        Err(fail) => refused(alloc, &fail),
    }
}

/// The first names of a model, in their order.
pub fn names(alloc: Global, text: &str) -> Result<String, Fault> {
    let model = match read(alloc, text)? {
        Ok(model) => model,
        Err(fail) => return refused(alloc, &fail),
    };
    let names = first_names(alloc, &model)?;
    let mut line = Text::new(alloc);
    for name in names.as_slice() {
        if !line.is_empty() {
            line.push(b' ')?;
        }
        line.extend_from_slice(name.text())?;
    }
    shown(alloc, line.as_slice())
}

/// The spelling of a copy of the expression of a model's only statement.
pub fn copy(alloc: Global, text: &str) -> Result<String, Fault> {
    let model = match read(alloc, text)? {
        Ok(model) => model,
        Err(fail) => return refused(alloc, &fail),
    };
    let [Stmt::Let(_, e)] = model.body.as_slice() else {
        return Err(Fault::BadLine);
    };
    let copy = copy_expr(alloc, e)?;
    let printed = print_expr(alloc, &copy)?;
    shown(alloc, printed.as_slice())
}
