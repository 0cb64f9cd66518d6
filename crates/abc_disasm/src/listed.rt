//! Values that have lines of their own.
ghost use Rattle.std.specs.Prelude.{List, ℕ};
ghost use Rattle.std.specs.List.{flat_map};
ghost use Rattle.abc_varint.specs.Puts.{Puts};

use abc_base::{NoMemory, Table};
use abc_text_writer::Shown;

/// Values that have lines of their own in the one text.
pub trait Listed: Drop {
    ghost use Rattle.std.specs.Prelude.{List, ℕ};
    ghost use Rattle.abc_file_types.specs.declared.tables.Abc.{Abc};

    /// The lines of a value of a file.
    ghost text: { Abc → Self → List ℕ };

    /// Appends the lines. Where memory runs out, the old bytes are still the front.
    fn put(&self, abc: &Shown<'_>, out: &mut Vec<u8>) -> Result<(), NoMemory>
        ensures { Puts out.old.items out.new.items result (text abc.now self.now) };
}

/// Appends the lines of the items, one after the other. Where memory runs out, the old bytes are still the front.
#[tactic(auto, using(abc_varint::proofs::Putting::stays))]
pub fn put_all<T: Listed>(
    items: &Table<T>,
    abc: &Shown<'_>,
    out: &mut Vec<u8>,
) -> Result<(), NoMemory>
    ensures { Puts out.old.items out.new.items result (flat_map (T.text abc.now) items.now) }
{
    for item in items.as_slice() {
        item.put(abc, out)?;
    }
    Ok(())
}
