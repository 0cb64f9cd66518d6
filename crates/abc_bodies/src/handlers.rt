ghost use Rattle.std.specs.Prelude.{◌≡◌, ◌≤◌, ◌<◌, ◌-◌, ◌^◌, ◌++◌, All, None, Some, Err, IfOk, get_or, length};
ghost use Rattle.std.specs.List.{flat_map};
ghost use Rattle.abc_base.specs.Numbers.{number_bytes};
ghost use Rattle.abc_file_types.specs.Canonical.{counted_bytes};
ghost use Rattle.abc_file_types.specs.Lists.{times, count_and_items};
ghost use Rattle.abc_file_types.specs.Bodies.{handler as handler_part, handler_bytes, IsHandlerWithin};
ghost use Rattle.abc_file_types.specs.Starts.{IsRising};
ghost use Rattle.abc_instr.specs.Marks.{mark_at};
ghost use Rattle.abc_bodies.specs.Moved.{moved_bytes, moved_handler, moved_place};
ghost use Rattle.abc_varint.specs.Passes.{Passes, PassesPart, nothing_told};
ghost use Rattle.abc_varint.specs.Puts.{Puts};
ghost use Rattle.abc_varint.specs.Reads.{Reads, ReadsPart};

use abc_base::{NoMemory, Source, Table};
use abc_file_types::{Handler, Reason, Sizes};
use abc_instr::{Marks, Starts, read_place};
use abc_varint::{
    Codec, PoolIndex, ReadError, Window, put_count, put_u30, read_pool_index, read_u30,
};
use std::alloc::Global;

/// An exception, over code whose instructions start so.
#[tactic(auto, unfolding(abc_file_types::specs::Bodies::handler))]
fn read_handler<S: Source>(
    w: &mut Window,
    source: &mut S,
    sizes: &Sizes,
    starts: &Starts,
) -> Result<Handler, ReadError>
    requires rising { IsRising starts.now }
    requires few { length starts.now < 2 ^ 32 }
    ensures value { ReadsPart S.left S.faults (handler_part sizes.now starts.now) w.old source.old w.new
        source.new result }
    ensures within { IfOk result (IsHandlerWithin (length starts.now - 1)) }
{
    let from = read_place(w, source, starts.as_slice())?;
    let to = read_place(w, source, starts.as_slice())?;
    let target = read_place(w, source, starts.as_slice())?;
    let exc_type = read_pool_index(w, source, sizes.names)?;
    let var_name = read_pool_index(w, source, sizes.names)?;
    Ok(Handler {
        from,
        to,
        target,
        exc_type,
        var_name,
    })
}

/// So many exceptions.
fn read_each_handler<S: Source>(
    alloc: Global,
    w: &mut Window,
    source: &mut S,
    sizes: &Sizes,
    starts: &Starts,
    count: u32,
) -> Result<Table<Handler>, ReadError>
    requires rising { IsRising starts.now }
    requires few { length starts.now < 2 ^ 32 }
    requires fresh { w.old.kept ≡ None }
    ensures value { ReadsPart S.left S.faults (times count (handler_part sizes.now starts.now)) w.old
        source.old w.new source.new result }
    ensures within { IfOk result (All (IsHandlerWithin (length starts.now - 1))) }
{
    let mut handlers = Table::new(alloc);
    for _ in 0..count {
        let handler = read_handler(w, source, sizes, starts)?;
        handlers.push(handler)?;
    }
    Ok(handlers)
}

/// A count and that many exceptions, over code whose instructions start so.
#[tactic(auto, unfolding(abc_file_types::specs::Lists::count_and_items))]
pub fn read_handlers<S: Source>(
    alloc: Global,
    w: &mut Window,
    source: &mut S,
    sizes: &Sizes,
    starts: &Starts,
) -> Result<Table<Handler>, ReadError>
    requires rising { IsRising starts.now }
    requires few { length starts.now < 2 ^ 32 }
    ensures value { ReadsPart S.left S.faults (count_and_items (handler_part sizes.now starts.now)) w.old
        source.old w.new source.new result }
    ensures within { IfOk result (All (IsHandlerWithin (length starts.now - 1))) }
{
    let count = read_u30(w, source)?;
    let handlers = read_each_handler(alloc, w, source, sizes, starts, count)?;
    Ok(handlers)
}

/// Appends where an instruction starts, or where the code ends.
fn put_place(starts: &Table<u32>, place: u32, out: &mut Vec<u8>) -> Result<(), NoMemory>
    requires { place < length starts.now }
    ensures { Puts out.old.items out.new.items result (number_bytes (get_or starts.now place 0)) }
{
    put_u30(*starts.get(place as usize), out)
}

/// Appends an exception, over code whose instructions start so.
#[tactic(auto, unfolding(abc_file_types::specs::Bodies::handler_bytes), using(abc_varint::proofs::Putting::stays, std::proofs::Common::append_assoc))]
fn put_handler(starts: &Table<u32>, handler: &Handler, out: &mut Vec<u8>) -> Result<(), NoMemory>
    requires some { 0 < length starts.now }
    requires within { IsHandlerWithin (length starts.now - 1) handler.now }
    ensures { Puts out.old.items out.new.items result (handler_bytes starts.now handler.now) }
{
    put_place(starts, handler.from, out)?;
    put_place(starts, handler.to, out)?;
    put_place(starts, handler.target, out)?;
    put_u30(handler.exc_type, out)?;
    put_u30(handler.var_name, out)?;
    Ok(())
}

/// Appends the exceptions, one after the other.
#[tactic(auto, using(abc_varint::proofs::Putting::stays))]
fn put_each_handler(
    starts: &Table<u32>,
    handlers: &Table<Handler>,
    out: &mut Vec<u8>,
) -> Result<(), NoMemory>
    requires some { 0 < length starts.now }
    requires within { All (IsHandlerWithin (length starts.now - 1)) handlers.now }
    ensures { Puts out.old.items out.new.items result (flat_map (handler_bytes starts.now) handlers.now) }
{
    for handler in handlers.as_slice() {
        put_handler(starts, handler, out)?;
    }
    Ok(())
}

/// Appends how many exceptions there are, and the exceptions, over code whose instructions start so.
#[tactic(auto, unfolding(abc_file_types::specs::Canonical::counted_bytes), using(abc_varint::proofs::Putting::stays, std::proofs::Common::append_assoc))]
pub fn put_handlers(
    starts: &Table<u32>,
    handlers: &Table<Handler>,
    out: &mut Vec<u8>,
) -> Result<(), NoMemory>
    requires some { 0 < length starts.now }
    requires within { All (IsHandlerWithin (length starts.now - 1)) handlers.now }
    ensures { Puts out.old.items out.new.items result
        (counted_bytes (handler_bytes starts.now) handlers.now) }
{
    put_count(handlers.len(), out)?;
    put_each_handler(starts, handlers, out)?;
    Ok(())
}

/// Passes a place: it is put as where its instruction starts in the canonical code, and refused by `HandlerRange` at its
/// first byte where no instruction starts there.
#[tactic(auto, unfolding(crate::specs::Moved::moved_place))]
fn pass_place<S: Source>(
    w: &mut Window,
    source: &mut S,
    marks: &Marks,
    out: &mut Vec<u8>,
) -> Result<(), ReadError>
    ensures { PassesPart S.left S.faults (moved_place (mark_at marks.now)) number_bytes nothing_told w.old
        source.old w.new source.new out.old.items out.new.items result }
{
    let place = w.place();
    let x = read_u30(w, source)?;
    match marks.get(x) {
        Some(moved) => {
            put_u30(moved, out)?;
            Ok(())
        }
        None => Err(ReadError::Refused {
            place,
            reason: Reason::HandlerRange,
        }),
    }
}

/// Passes an exception, over code whose instructions are moved as the marks say.
#[tactic(auto, unfolding(crate::specs::Moved::moved_handler, crate::specs::Moved::moved_bytes))]
fn pass_handler<S: Source>(
    alloc: Global,
    w: &mut Window,
    source: &mut S,
    sizes: &Sizes,
    marks: &Marks,
    out: &mut Vec<u8>,
) -> Result<(), ReadError>
    ensures { PassesPart S.left S.faults (moved_handler sizes.now (mark_at marks.now)) moved_bytes
        nothing_told w.old source.old w.new source.new out.old.items out.new.items result }
{
    pass_place(w, source, marks, out)?;
    pass_place(w, source, marks, out)?;
    pass_place(w, source, marks, out)?;
    PoolIndex(sizes.names).pass(alloc, w, source, out)?;
    PoolIndex(sizes.names).pass(alloc, w, source, out)?;
    Ok(())
}

/// Passes so many exceptions.
fn pass_each_handler<S: Source>(
    alloc: Global,
    w: &mut Window,
    source: &mut S,
    sizes: &Sizes,
    marks: &Marks,
    count: u32,
    out: &mut Vec<u8>,
) -> Result<(), ReadError>
    requires fresh { w.old.kept ≡ None }
    ensures { PassesPart S.left S.faults (times count (moved_handler sizes.now (mark_at marks.now)))
        (flat_map moved_bytes) nothing_told w.old source.old w.new source.new out.old.items out.new.items
        result }
{
    for _ in 0..count {
        pass_handler(alloc, w, source, sizes, marks, out)?;
    }
    Ok(())
}

/// Passes a count and that many exceptions, over code whose instructions are moved as the marks say. Gives how many there
/// are.
#[tactic(auto, unfolding(abc_file_types::specs::Lists::count_and_items, abc_file_types::specs::Canonical::counted_bytes))]
pub fn pass_handlers<S: Source>(
    alloc: Global,
    w: &mut Window,
    source: &mut S,
    sizes: &Sizes,
    marks: &Marks,
    out: &mut Vec<u8>,
) -> Result<u32, ReadError>
    ensures { PassesPart S.left S.faults (count_and_items (moved_handler sizes.now (mark_at marks.now)))
        (counted_bytes moved_bytes) length w.old source.old w.new source.new out.old.items out.new.items
        result }
{
    let total = read_u30(w, source)?;
    put_u30(total, out)?;
    pass_each_handler(alloc, w, source, sizes, marks, total, out)?;
    Ok(total)
}
