ghost use Rattle.std.specs.Prelude.{◌≡◌, ◌≤◌, ◌<◌, ◌+◌, ◌^◌, None, Some, Err, false, IfOk, List, ℕ, length, slice_get};
ghost use Rattle.abc_bodies.specs.Reading.{IsFlagged, is_flag_down, free_method, free_body, body_with_starts};
ghost use Rattle.abc_file_types.specs.Bodies.{body, body_with, IsReadyBody};
ghost use Rattle.abc_varint.specs.Reads.{Reads, ReadsPart};

use crate::handlers::read_handlers;
use abc_base::{Source, Table};
use abc_file_types::{Body, Reason, Sizes};
use abc_instr::{Reading, read_code_within};
use abc_traits::TraitCodec;
use abc_varint::{ReadError, Window, read_counted, read_index_below, read_u30};
use std::alloc::Global;

/// Whether the method's flag is down.
fn is_down(flags: &Table<bool>, method: u32) -> bool
    ensures { result ≡ is_flag_down flags.now method }
{
    match flags.fetch(method as usize) {
        Some(up) => !up,
        None => false,
    }
}

/// A method that has no body yet: its flag is down.
#[tactic(auto, unfolding(crate::specs::Reading::free_method))]
pub fn read_method<S: Source>(
    w: &mut Window,
    source: &mut S,
    sizes: &Sizes,
    flags: &Table<bool>,
) -> Result<u32, ReadError>
    ensures value { ReadsPart S.left S.faults (free_method sizes.now flags.now) w.old source.old w.new
        source.new result }
    ensures free { IfOk result (λ m. slice_get flags.now m ≡ Some false) }
{
    let place = w.place();
    let method = read_index_below(w, source, sizes.methods)?;
    if !is_down(flags, method) {
        return Err(ReadError::Refused {
            place,
            reason: Reason::SecondBody,
        });
    }
    Ok(method)
}

/// A body of a method whose flag is down.
#[tactic(auto, unfolding(crate::specs::Reading::free_body, abc_file_types::specs::Bodies::body_with))]
fn read_free_body<S: Source>(
    alloc: Global,
    w: &mut Window,
    source: &mut S,
    sizes: &Sizes,
    flags: &Table<bool>,
    reading: &mut Reading,
) -> Result<Body, ReadError>
    ensures value { ReadsPart S.left S.faults (free_body sizes.now flags.now) w.old source.old w.new
        source.new (body_with_starts result (reading.new).starts) }
    ensures free { IfOk result (λ b. slice_get flags.now b.method ≡ Some false) }
    ensures count { IfOk result (λ b. length (reading.new).starts ≡ length b.code + 1) }
    ensures ready { IfOk result IsReadyBody }
{
    let method = read_method(w, source, sizes, flags)?;
    let max_stack = read_u30(w, source)?;
    let local_count = read_u30(w, source)?;
    let init_scope = read_u30(w, source)?;
    let max_scope = read_u30(w, source)?;
    let code = read_code_within(alloc, w, source, reading)?;
    let handlers = read_handlers(alloc, w, source, sizes, &reading.starts)?;
    let traits = read_counted(&TraitCodec(*sizes), alloc, w, source)?;
    Ok(Body {
        method,
        max_stack,
        local_count,
        init_scope,
        max_scope,
        code,
        handlers,
        traits,
    })
}

/// A body of a method whose flag is down: where the flags are up for the methods that have a body already, a body beside
/// those. Where its instructions began is left in the reading, whose memory is used again.
pub fn read_body<S: Source>(
    alloc: Global,
    w: &mut Window,
    source: &mut S,
    sizes: &Sizes,
    flags: &Table<bool>,
    reading: &mut Reading,
) -> Result<Body, ReadError>
    ensures defined { (taken : List ℕ) → length flags.now ≡ (sizes.now).methods → IsFlagged flags.now taken
        → ReadsPart S.left S.faults (body sizes.now taken) w.old source.old w.new source.new
        (body_with_starts result (reading.new).starts) }
    ensures value { ReadsPart S.left S.faults (free_body sizes.now flags.now) w.old source.old w.new
        source.new (body_with_starts result (reading.new).starts) }
    ensures free { IfOk result (λ b. slice_get flags.now b.method ≡ Some false) }
    ensures count { IfOk result (λ b. length (reading.new).starts ≡ length b.code + 1) }
    ensures ready { IfOk result IsReadyBody }
{
    read_free_body(alloc, w, source, sizes, flags, reading)
}
