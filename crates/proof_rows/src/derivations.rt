//! Rules and derivation files.
use deriv_file::{print_derivation, read_derivation};
use deriv_tree::Rule;
use row_cases::{Fault, operand, refused};
use std::alloc::Global;

/// The name, the kind, the expression nodes and the blocks of a rule, or `none`.
pub fn rule(alloc: Global, name: &str) -> Result<String, Fault> {
    match Rule::read(name) {
        Some(rule) => rule_text(alloc, rule),
        None => Ok(String::from_str(alloc, "none")?),
    }
}

fn rule_text(alloc: Global, rule: Rule) -> Result<String, Fault> {
    let kind = if rule.is_expression() {
        "expression"
    } else {
        "statement"
    };
    let (name, kids, blocks) = (rule.name(), rule.kids(), rule.blocks());
    Ok(format!(in alloc; "{name} {kind} {kids} {blocks}")?)
}

/// The derivation of a file, printed without its line feed, or why it is none.
pub fn printed(alloc: Global, text: &str) -> Result<String, Fault> {
    let bytes = operand(alloc, text)?;
    let derivation = match read_derivation(alloc, bytes.as_slice()) {
        Ok(derivation) => derivation,
        Err(fail) => return refused(alloc, &fail),
    };
    let printed = print_derivation(alloc, &derivation)?;
    let bytes = printed.as_slice();
    let line = bytes.strip_suffix(b"\n").unwrap_or(b"no line feed");
    Ok(String::from_utf8_lossy(alloc, line)?)
}
