ghost use Rattle.std.specs.Prelude.{◌≡◌, ◌≤◌, ◌<◌, ◌^◌, IfOk, List, [], ◌∷◌, length, None, Some, Err, nat_eq, if◌then◌else◌};
ghost use Rattle.std.specs.List.{flat_map};
ghost use Rattle.abc_base.specs.Numbers.{number_bytes};
ghost use Rattle.abc_file_types.specs.Canonical.{counted_bytes, pool_bytes};
ghost use Rattle.abc_file_types.specs.Lists.{times, count_and_items, pool};
ghost use Rattle.abc_varint.specs.Passes.{Passes, PassesPart, nothing_told};
ghost use Rattle.abc_varint.specs.Reads.{Reads, ReadsPart};

use crate::codec::Codec;
use crate::error::ReadError;
use crate::number::next_u30;
use crate::put::put_u30;
use crate::window::Window;
use abc_base::Source;
use std::alloc::Global;

/// Reads so many items, one after the other, and appends the canonical bytes of each before the next is read. None is
/// kept.
pub fn pass_times<C: Codec, S: Source>(
    codec: &C,
    alloc: Global,
    w: &mut Window,
    source: &mut S,
    count: u32,
    out: &mut Vec<u8>,
) -> Result<(), ReadError>
    requires { w.old.kept ≡ None }
    ensures { PassesPart S.left S.faults (times count (C.part codec.now)) (flat_map C.canonical) nothing_told
        w.old source.old w.new source.new out.old.items out.new.items result }
{
    for _ in 0..count {
        codec.pass(alloc, w, source, out)?;
    }
    Ok(())
}

/// Reads a count below 2^30 and that many items, and appends their canonical bytes, as `pass_times` does. Gives how many
/// there are.
#[tactic(auto, unfolding(abc_file_types::specs::Lists::count_and_items, abc_file_types::specs::Canonical::counted_bytes), using(crate::proofs::Passing::times_count, std::proofs::Common::append_assoc))]
pub fn pass_counted<C: Codec, S: Source>(
    codec: &C,
    alloc: Global,
    w: &mut Window,
    source: &mut S,
    out: &mut Vec<u8>,
) -> Result<u32, ReadError>
    ensures value { PassesPart S.left S.faults (count_and_items (C.part codec.now))
        (counted_bytes C.canonical) length w.old source.old w.new source.new out.old.items out.new.items
        result }
    ensures few { IfOk result (λ n. n < 2 ^ 30) }
{
    let count = next_u30(w, source)?;
    put_u30(count, out)?;
    pass_times(codec, alloc, w, source, count, out)?;
    Ok(count)
}

/// The count of a pool that is spelled with this one: 0 where entry 0 is the only one.
fn shortest_count(count: u32) -> u32
    ensures { result ≡ (if nat_eq count 1 then 0 else count) }
{
    if count == 1 { 0 } else { count }
}

/// Reads a pool, whose entry 0 is not spelled, and appends its canonical bytes, as `pass_times` does. Gives how many
/// entries there are.
#[tactic(auto, unfolding(abc_file_types::specs::Lists::pool, abc_file_types::specs::Canonical::pool_bytes), using(crate::proofs::Passing::times_count, crate::proofs::Passing::shortest_count, std::proofs::Common::append_assoc))]
pub fn pass_pool<C: Codec, S: Source>(
    codec: &C,
    alloc: Global,
    w: &mut Window,
    source: &mut S,
    out: &mut Vec<u8>,
) -> Result<u32, ReadError>
    ensures value { PassesPart S.left S.faults (pool (C.part codec.now)) (pool_bytes C.canonical) length w.old
        source.old w.new source.new out.old.items out.new.items result }
    ensures few { IfOk result (λ n. n < 2 ^ 30) }
{
    let count = next_u30(w, source)?;
    put_u30(shortest_count(count), out)?;
    let entries = count.saturating_sub(1);
    pass_times(codec, alloc, w, source, entries, out)?;
    Ok(entries)
}
