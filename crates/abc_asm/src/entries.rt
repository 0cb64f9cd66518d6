//! The entries of metadata.
ghost use Rattle.std.specs.Prelude.{◌≡◌, IfOk};
ghost use Rattle.abc_text_lines.specs.Answers.{flat_pairs as joined_of};

use abc_base::{NoMemory, Table};
use std::alloc::Global;

/// Entries as one list, two strings each. `NoMemory` where memory runs out.
pub fn joined(alloc: Global, entries: &Table<(u32, u32)>) -> Result<Table<u32>, NoMemory>
    ensures { IfOk result (λ items. items ≡ joined_of entries.now) }
{
    let mut items = Table::new(alloc);
    for entry in entries.as_slice() {
        items.push(entry.0)?;
        items.push(entry.1)?;
    }
    Ok(items)
}
