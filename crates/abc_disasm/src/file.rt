//! The whole file, listed as it is read.
ghost use Rattle.std.specs.Prelude.{◌≡◌, ◌≤◌, ◌+◌, ◌^◌, [], Err, IfOk, IfErr, OnOk, None};
ghost use Rattle.abc_base.specs.Faults.{Rose};
ghost use Rattle.abc_base.specs.Taking.{TakesAtMost};
ghost use Rattle.abc_file.specs.Reading.{IsErrorOf, IsNew, IsUsedUp, IsWrittenOf};
ghost use Rattle.abc_text_lines.specs.Listing.{listing};
ghost use Rattle.abc_file_types.specs.Files.{file_read};
ghost use Rattle.abc_varint.specs.Passes.{Passes, PassesPart, nothing_told};
ghost use Rattle.abc_varint.specs.Reads.{IsInput, Reads, ReadsPart, known_input};
ghost use Rattle.abc_varint.specs.declared.error.ReadError.{ReadError};

use crate::listed_bodies::list_bodies;
use crate::listing::put_front;
use abc_base::Source;
use abc_file::{read_nothing_more, read_version};
use abc_file_types::sizes_of;
use abc_pools::read_pools;
use abc_text_writer::Shown;
use abc_traits::read_definitions;
use abc_varint::{ReadError, Window};
use std::alloc::Global;
use std::mem::forget;

/// Lists the file, and not what follows it. The memory of its tables is not given back.
#[tactic(auto, unfolding(abc_file_types::specs::Files::file_read))]
fn list_file<S: Source>(
    alloc: Global,
    w: &mut Window,
    source: &mut S,
    out: &mut Vec<u8>,
) -> Result<(), ReadError>
    ensures { PassesPart S.left S.faults file_read (λ x. listing x.0) nothing_told w.old source.old w.new
        source.new out.old.items out.new.items result }
{
    read_version(w, source)?;
    let mut abc = read_pools(alloc, w, source)?;
    read_definitions(alloc, w, source, &mut abc)?;
    let shown = Shown::new(alloc, &abc)?;
    put_front(&shown, out)?;
    let sizes = sizes_of(&abc);
    list_bodies(alloc, w, source, &sizes, &shown, out)?;
    // Little is done once a file is listed, and its lists are many: to free each of them would only take time.
    forget(shown);
    forget(abc);
    Ok(())
}

/// Lists the file, and nothing after it.
fn list_to_end<S: Source>(
    alloc: Global,
    w: &mut Window,
    source: &mut S,
    out: &mut Vec<u8>,
) -> Result<(), ReadError>
    requires window { IsNew w.old }
    requires bytes { out.old.items ≡ [] }
    ensures text { OnOk result (IsWrittenOf listing (S.left source.old) out.new.items) }
    ensures fault { IfErr result (λ e. IsErrorOf (S.left source.old) e) }
    ensures input { IsInput w.old (S.left source.old) (known_input w.new (S.left source.new)) }
    ensures end { OnOk result (IsUsedUp (S.left source.old) (S.left source.new)) }
    ensures later { S.faults source.old ≤ S.faults source.new }
    ensures cause { result ≡ Err ReadError.ReadFault → Rose (S.faults source.old) (S.faults source.new) }
{
    list_file(alloc, w, source, out)?;
    read_nothing_more(w, source)?;
    Ok(())
}

/// The one text of the file that the source gives up to its end, as `disassemble` puts it of what `read` reads; the lines
/// of each body are put before the next is read, so that only one is held. It is refused as by `read`. `ReadFault` comes
/// only where the source's count of faults rose, and `NoMemory` where memory ran out. At most 2^24 + 1 bytes are taken,
/// whatever is answered. The memory of the tables stays taken.
pub fn listing_of<S: Source>(alloc: Global, source: &mut S) -> Result<Vec<u8>, ReadError>
    ensures text { IfOk result (λ v. IsWrittenOf listing (S.left source.old) v.items) }
    ensures fault { IfErr result (λ e. IsErrorOf (S.left source.old) e) }
    ensures taken { TakesAtMost (S.left source.old) (S.left source.new) (2 ^ 24 + 1) }
    ensures end { OnOk result (IsUsedUp (S.left source.old) (S.left source.new)) }
    ensures later { S.faults source.old ≤ S.faults source.new }
    ensures cause { result ≡ Err ReadError.ReadFault → Rose (S.faults source.old) (S.faults source.new) }
{
    let mut w = Window::new(alloc)?;
    let mut text = Vec::new(alloc);
    let done = list_to_end(alloc, &mut w, source, &mut text);
    w.stays_small();
    done?;
    Ok(text)
}
