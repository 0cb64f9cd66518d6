ghost use Rattle.std.specs.Prelude.{◌≡◌, ◌≤◌, ◌<◌, ◌^◌, [], None, Some, Err, false, IfOk, length, map, slice_get};
ghost use Rattle.std.specs.List.{flat_map};
ghost use Rattle.abc_base.specs.Numbers.{number_bytes};
ghost use Rattle.abc_file_types.specs.Canonical.{counted_bytes};
ghost use Rattle.abc_file_types.specs.Lists.{chain};
ghost use Rattle.abc_file_types.specs.Numbers.{u30 as small};
ghost use Rattle.abc_bodies.specs.Reading.{free_body, part_behind_sizes, rest_bytes};
ghost use Rattle.abc_file_types.specs.Bodies.{body, body_bytes, body_list, methods_of};
ghost use Rattle.abc_varint.specs.Passes.{Passes, PassesPart, nothing_told};
ghost use Rattle.abc_varint.specs.Reads.{Reads, ReadsPart};

use crate::body::read_method;
use crate::handlers::pass_handlers;
use crate::read::flags_down;
use abc_base::{Source, Table};
use abc_file_types::Sizes;
use abc_instr::{Scan, pass_code};
use abc_traits::TraitCodec;
use abc_varint::{ReadError, Window, pass_counted, put_u30, read_u30};
use std::alloc::Global;

/// Passes one of the four sizes.
#[inline(always)]
fn pass_size<S: Source>(w: &mut Window, source: &mut S, out: &mut Vec<u8>) -> Result<(), ReadError>
    ensures { PassesPart S.left S.faults small number_bytes nothing_told w.old source.old w.new source.new
        out.old.items out.new.items result }
{
    let x = read_u30(w, source)?;
    put_u30(x, out)?;
    Ok(())
}

/// Passes what follows the sizes of a body: code, exceptions and traits.
#[tactic(auto, unfolding(crate::specs::Reading::part_behind_sizes))]
fn pass_rest<S: Source>(
    alloc: Global,
    w: &mut Window,
    source: &mut S,
    sizes: &Sizes,
    scan: &mut Scan,
    out: &mut Vec<u8>,
) -> Result<(), ReadError>
    ensures { PassesPart S.left S.faults (part_behind_sizes sizes.now) rest_bytes nothing_told w.old
        source.old w.new source.new out.old.items out.new.items result }
{
    pass_code(alloc, w, source, scan, out)?;
    pass_handlers(alloc, w, source, sizes, &scan.marks, out)?;
    pass_counted(&TraitCodec(*sizes), alloc, w, source, out)?;
    Ok(())
}

/// Passes a body of a method whose flag is down. Gives the method.
#[tactic(auto, unfolding(crate::specs::Reading::free_body, abc_file_types::specs::Bodies::body_with))]
fn pass_body<S: Source>(
    alloc: Global,
    w: &mut Window,
    source: &mut S,
    sizes: &Sizes,
    flags: &Table<bool>,
    scan: &mut Scan,
    out: &mut Vec<u8>,
) -> Result<u32, ReadError>
    ensures value { PassesPart S.left S.faults (free_body sizes.now flags.now) (λ x. body_bytes x.0)
        (λ x. (x.0).method) w.old source.old w.new source.new out.old.items out.new.items result }
    ensures free { IfOk result (λ m. slice_get flags.now m ≡ Some false) }
{
    let method = read_method(w, source, sizes, flags)?;
    put_u30(method, out)?;
    pass_size(w, source, out)?;
    pass_size(w, source, out)?;
    pass_size(w, source, out)?;
    pass_size(w, source, out)?;
    pass_rest(alloc, w, source, sizes, scan, out)?;
    Ok(method)
}

/// Passes so many bodies, each of another method. Gives how many there are.
fn pass_each_body<S: Source>(
    alloc: Global,
    w: &mut Window,
    source: &mut S,
    sizes: &Sizes,
    count: u32,
    out: &mut Vec<u8>,
) -> Result<u32, ReadError>
    requires fresh { w.old.kept ≡ None }
    ensures value { PassesPart S.left S.faults (chain count (λ before. body sizes.now (methods_of before)) [])
        (flat_map (λ x. body_bytes x.0)) length w.old source.old w.new source.new out.old.items out.new.items
        result }
    ensures count { IfOk result (λ n. n ≡ count) }
{
    let mut has_body = flags_down(alloc, sizes.methods)?;
    let mut scan = Scan::new(alloc);
    for _ in 0..count {
        let method = pass_body(alloc, w, source, sizes, &has_body, &mut scan, out)?;
        has_body.set(method as usize, true);
    }
    Ok(count)
}

/// Reads method bodies over tables of these sizes, as `read_bodies` does, and appends the canonical bytes of each before
/// the next is read. None is kept. After an Err `out` may hold any bytes.
#[tactic(auto, unfolding(abc_file_types::specs::Bodies::body_list))]
pub fn pass_bodies<S: Source>(
    alloc: Global,
    w: &mut Window,
    source: &mut S,
    sizes: &Sizes,
    out: &mut Vec<u8>,
) -> Result<(), ReadError>
    ensures { PassesPart S.left S.faults (body_list sizes.now)
        (λ xs. counted_bytes body_bytes (map (λ x. x.0) xs)) nothing_told w.old source.old w.new source.new
        out.old.items out.new.items result }
{
    let count = read_u30(w, source)?;
    put_u30(count, out)?;
    pass_each_body(alloc, w, source, sizes, count, out)?;
    Ok(())
}
