//! Cases and rows, as they stand in a file.
use std::alloc::{AllocError, Global};

/// The beginning of a line that is wanted.
const WANTED: &str = "= ";

/// A case: its name, the lines that ask for a call, and the lines that are wanted, each with its line feed.
#[derive(Drop)]
pub struct Case<'a> {
    pub name: &'a str,
    pub asked: Vec<&'a str>,
    pub wanted: String,
}

/// The case of a paragraph; none where it has comments alone.
pub fn read_case(alloc: Global, paragraph: &str) -> Result<Option<Case<'_>>, AllocError> {
    let mut case = Case {
        name: "",
        asked: Vec::new(alloc),
        wanted: String::new(alloc),
    };
    for line in paragraph.lines() {
        if line.is_empty() || line.starts_with('#') {
            continue;
        }
        if let Some(wanted) = line.strip_prefix(WANTED) {
            case.wanted.push_str(wanted)?;
            case.wanted.push_str("\n")?;
        } else if case.name.is_empty() {
            case.name = line;
        } else {
            case.asked.push(line)?;
        }
    }
    Ok(if case.name.is_empty() {
        None
    } else {
        Some(case)
    })
}

/// A line of a table: nothing to judge, a call and what is wanted of it, or a line that has no ` = `.
#[derive(Clone, Copy, Debug, PartialEq, Eq)]
pub enum Row<'a> {
    Nothing,
    Asked { call: &'a str, wanted: &'a str },
    Bad,
}

/// The row of a line. Only its first ` = ` parts it.
pub fn read_row(line: &str) -> Row<'_> {
    if line.is_empty() || line.starts_with('#') {
        return Row::Nothing;
    }
    match line.split_once(" = ") {
        Some((call, wanted)) => Row::Asked { call, wanted },
        None => Row::Bad,
    }
}
