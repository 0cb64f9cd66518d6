ghost use Rattle.std.specs.Prelude.{◌≡◌, ◌≤◌, ◌<◌, ◌^◌, IfOk, length, None};
ghost use Rattle.abc_file_types.specs.Canonical.{text_bytes};
ghost use Rattle.abc_file_types.specs.Lists.{bytes_with_count, times};
ghost use Rattle.abc_file_types.specs.Numbers.{u8 as octet};
ghost use Rattle.abc_varint.specs.Passes.{PassesPart, nothing_told};
ghost use Rattle.abc_varint.specs.Reads.{ReadsPart};

use crate::error::ReadError;
use crate::number::next_u30;
use crate::put::put_u30;
use crate::window::Window;
use abc_base::{Bytes, Source};
use std::alloc::Global;

/// Reads so many bytes, each refused as by `read_u8`. `NoMemory` comes where memory ran out; no memory is reserved for
/// bytes that have not come.
#[inline]
pub fn read_bytes<S: Source>(
    alloc: Global,
    w: &mut Window,
    source: &mut S,
    count: u32,
) -> Result<Bytes, ReadError>
    requires { w.old.kept ≡ None }
    ensures value { ReadsPart S.left S.faults (times count octet) w.old source.old w.new source.new result }
    ensures len { IfOk result (λ b. length b ≡ count) }
{
    if w.is_ready(count) {
        let bytes = Bytes::from_slice(alloc, &w.held()[..count as usize])?;
        w.go_on(count as usize);
        return Ok(bytes);
    }
    gather_bytes(alloc, w, source, count)
}

/// Reads so many bytes, which need not be held yet.
#[inline(never)]
fn gather_bytes<S: Source>(
    alloc: Global,
    w: &mut Window,
    source: &mut S,
    count: u32,
) -> Result<Bytes, ReadError>
    requires { w.old.kept ≡ None }
    ensures value { ReadsPart S.left S.faults (times count octet) w.old source.old w.new source.new result }
    ensures len { IfOk result (λ b. length b ≡ count) }
{
    let mut bytes = Bytes::new(alloc);
    let mut missing = count - w.take_held(count, &mut bytes)?;
    while missing > 0 {
        let x = w.next_u8(source)?;
        bytes.push(x)?;
        missing -= 1;
        missing -= w.take_held(missing, &mut bytes)?;
    }
    Ok(bytes)
}

/// Reads a text: a count below 2^30, as `read_u30` does, and that many bytes, as `read_bytes` does. They need not be
/// UTF-8.
#[tactic(auto, unfolding(abc_file_types::specs::Lists::bytes_with_count, abc_file_types::specs::Lists::count_and_items))]
pub fn read_text<S: Source>(
    alloc: Global,
    w: &mut Window,
    source: &mut S,
) -> Result<Bytes, ReadError>
    ensures value { ReadsPart S.left S.faults bytes_with_count w.old source.old w.new source.new result }
    ensures len { IfOk result (λ b. length b < 2 ^ 30) }
{
    let count = next_u30(w, source)?;
    let bytes = read_bytes(alloc, w, source, count)?;
    Ok(bytes)
}

/// Reads so many bytes, as `read_bytes` does, and appends them.
#[inline]
fn pass_bytes<S: Source>(
    alloc: Global,
    w: &mut Window,
    source: &mut S,
    count: u32,
    out: &mut Vec<u8>,
) -> Result<(), ReadError>
    requires { w.old.kept ≡ None }
    ensures { PassesPart S.left S.faults (times count octet) (λ b. b) nothing_told w.old source.old w.new
        source.new out.old.items out.new.items result }
{
    if w.is_ready(count) {
        let size = count as usize;
        out.extend_from_slice(&w.held()[..size])?;
        w.go_on(size);
        return Ok(());
    }
    let bytes = gather_bytes(alloc, w, source, count)?;
    out.extend_from_slice(bytes.as_slice())?;
    Ok(())
}

/// Reads a text, as `read_text` does, and appends its canonical bytes. Gives the number of its bytes.
#[tactic(auto, unfolding(abc_file_types::specs::Lists::bytes_with_count, abc_file_types::specs::Lists::count_and_items, abc_file_types::specs::Canonical::text_bytes))]
pub fn pass_text<S: Source>(
    alloc: Global,
    w: &mut Window,
    source: &mut S,
    out: &mut Vec<u8>,
) -> Result<u32, ReadError>
    ensures { PassesPart S.left S.faults bytes_with_count text_bytes length w.old source.old w.new source.new
        out.old.items out.new.items result }
{
    let count = next_u30(w, source)?;
    put_u30(count, out)?;
    pass_bytes(alloc, w, source, count, out)?;
    Ok(count)
}
