//! Bodies that are listed as they are read.
ghost use Rattle.std.specs.Prelude.{◌≡◌, ◌≤◌, ◌<◌, ◌^◌, [], None, Some, Err, false, IfOk, length, slice_get};
ghost use Rattle.std.specs.List.{flat_map};
ghost use Rattle.abc_bodies.specs.Reading.{free_body};
ghost use Rattle.abc_file_types.specs.Lists.{chain};
ghost use Rattle.abc_disasm.specs.Entries.{entry_text};
ghost use Rattle.abc_file_types.specs.Bodies.{body, body_list, methods_of};
ghost use Rattle.abc_varint.specs.Passes.{Passes, PassesPart, nothing_told};
ghost use Rattle.abc_varint.specs.Reads.{Reads, ReadsPart};

use crate::put_bodies::put_body;
use abc_base::{Source, Table};
use abc_bodies::{flags_down, read_body};
use abc_file_types::Sizes;
use abc_instr::Reading;
use abc_text_writer::Shown;
use abc_varint::{ReadError, Window, read_u30};
use std::alloc::Global;

/// Memory that serves one body after the other.
#[derive(Drop)]
struct Room {
    reading: Reading,
    /// Which instructions of a body are named.
    marks: Vec<bool>,
}

/// Reads a body of a method whose flag is down, and appends its lines. Gives the method.
fn list_body<S: Source>(
    alloc: Global,
    w: &mut Window,
    source: &mut S,
    sizes: &Sizes,
    flags: &Table<bool>,
    room: &mut Room,
    abc: &Shown<'_>,
    out: &mut Vec<u8>,
) -> Result<u32, ReadError>
    ensures value { PassesPart S.left S.faults (free_body sizes.now flags.now) (entry_text abc.now)
        (λ x. x.0.method) w.old source.old w.new source.new out.old.items out.new.items result }
    ensures free { IfOk result (λ m. slice_get flags.now m ≡ Some false) }
{
    let body = read_body(alloc, w, source, sizes, flags, &mut room.reading)?;
    put_body(&mut room.marks, &body, abc, out)?;
    Ok(body.method)
}

/// Lists so many bodies, each of another method. Gives how many there are.
fn list_each_body<S: Source>(
    alloc: Global,
    w: &mut Window,
    source: &mut S,
    sizes: &Sizes,
    count: u32,
    abc: &Shown<'_>,
    out: &mut Vec<u8>,
) -> Result<u32, ReadError>
    requires fresh { w.old.kept ≡ None }
    ensures { PassesPart S.left S.faults (chain count (λ before. body sizes.now (methods_of before)) [])
        (flat_map (entry_text abc.now)) length w.old source.old w.new source.new out.old.items out.new.items
        result }
{
    let mut has_body = flags_down(alloc, sizes.methods)?;
    let mut room = Room {
        reading: Reading::new(alloc),
        marks: Vec::new(alloc),
    };
    for _ in 0..count {
        let method = list_body(alloc, w, source, sizes, &has_body, &mut room, abc, out)?;
        has_body.set(method as usize, true);
    }
    Ok(count)
}

/// Reads the bodies of a file, whose tables have these sizes, and appends the lines of each before the next is read. None
/// is kept.
#[tactic(auto, unfolding(abc_file_types::specs::Bodies::body_list))]
pub fn list_bodies<S: Source>(
    alloc: Global,
    w: &mut Window,
    source: &mut S,
    sizes: &Sizes,
    abc: &Shown<'_>,
    out: &mut Vec<u8>,
) -> Result<(), ReadError>
    ensures { PassesPart S.left S.faults (body_list sizes.now) (flat_map (entry_text abc.now)) nothing_told
        w.old source.old w.new source.new out.old.items out.new.items result }
{
    let count = read_u30(w, source)?;
    list_each_body(alloc, w, source, sizes, count, abc, out)?;
    Ok(())
}
