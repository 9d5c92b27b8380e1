//! The text of tables, and where each is in it.
ghost use Rattle.std.specs.Prelude.{◌≡◌, ◌++◌, ◌+◌, ◌*◌, ◌≤◌, OnOk, IfOk, length, map};
ghost use Rattle.rv_emit.specs.Tables.{fill, text_of, offsets_from};

use rup_base::{List, NoMemory, Text};
use std::alloc::Global;

// Zeros up to a multiple of four, where there are so many bytes.
fn fill_up(text: &mut Text, len: usize) -> Result<(), NoMemory>
    ensures { OnOk result (text.new ≡ text.old ++ fill len) }
{
    match len % 4 {
        1 => text.extend_from_slice(&[0, 0, 0]),
        2 => text.extend_from_slice(&[0, 0]),
        3 => text.extend_from_slice(&[0]),
        _ => Ok(()),
    }
}

/// The text of tables, and the offset of each in it.
#[derive(Debug, Drop)]
pub struct TableText {
    pub text: Text,
    pub offsets: List<u64>,
}

/// Each table begins at a multiple of four.
pub fn table_text(alloc: Global, tables: &[Text]) -> Result<TableText, NoMemory>
    ensures text { IfOk result (λ t. t.text ≡ text_of tables.now) }
    ensures offsets { IfOk result (λ t. t.offsets ≡ offsets_from 0 tables.now) }
{
    let mut text = Text::new(alloc);
    let mut offsets = List::new(alloc);
    for table in tables {
        offsets.push(text.len() as u64)?;
        text.extend_from_slice(table.as_slice())?;
        fill_up(&mut text, table.len())?;
    }
    Ok(TableText { text, offsets })
}
