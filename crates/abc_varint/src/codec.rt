ghost use Rattle.std.specs.Prelude.{◌≡◌, ◌≤◌, ◌<◌, ◌^◌, ℕ, IfOk, List, [], ◌∷◌, length, None, Some, Err};
ghost use Rattle.std.specs.List.{flat_map};
ghost use Rattle.abc_base.specs.Numbers.{number_bytes};
ghost use Rattle.abc_file_types.specs.Canonical.{counted_bytes, pool_bytes, pool_count as count_of};
ghost use Rattle.abc_file_types.specs.Lists.{times, count_and_items, pool};
ghost use Rattle.abc_file_types.specs.Part.{Part};
ghost use Rattle.abc_varint.specs.Passes.{PassesPart, nothing_told};
ghost use Rattle.abc_varint.specs.Puts.{Puts};
ghost use Rattle.abc_varint.specs.Reads.{Reads, ReadsPart};
ghost use Rattle.abc_varint.specs.declared.error.ReadError.{ReadError};

use crate::error::ReadError;
use crate::number::next_u30;
use crate::pass::pass_counted;
use crate::put::{put_count, put_number};
use crate::window::Window;
use abc_base::{NoMemory, Source, Table};
use std::alloc::Global;

/// How the items of a list are read and put. A value of the codec holds what reading them depends on, as the sizes of
/// the tables that they point into.
pub trait Codec {
    /// An item, once it is read.
    type Item: Drop;

    /// What an item is spelled by.
    ghost part: { Self → Part Self.Item };

    /// The bytes that put an item.
    ghost canonical: { Self.Item → List ℕ };

    /// Reads an item. It is refused as its part is, `ReadFault` comes only where the source's count of faults rose, and
    /// `NoMemory` where memory ran out. An Err that the window keeps is answered again.
    fn read<S: Source>(
        &self,
        alloc: Global,
        w: &mut Window,
        source: &mut S,
    ) -> Result<Self::Item, ReadError>
        ensures { ReadsPart S.left S.faults (part self.now) w.old source.old w.new source.new result };

    /// Appends an item. Where memory runs out, the old bytes are still the front.
    fn put(item: &Self::Item, out: &mut Vec<u8>) -> Result<(), NoMemory>
        ensures { Puts out.old.items out.new.items result (canonical item.now) };

    /// Reads an item, as `read` does, and appends its canonical bytes. After an Err `out` may hold any bytes.
    #[tactic(auto)]
    fn pass<S: Source>(
        &self,
        alloc: Global,
        w: &mut Window,
        source: &mut S,
        out: &mut Vec<u8>,
    ) -> Result<(), ReadError>
        ensures { PassesPart S.left S.faults (part self.now) canonical nothing_told w.old source.old w.new
            source.new out.old.items out.new.items result }
    {
        let item = self.read(alloc, w, source)?;
        Self::put(&item, out)?;
        Ok(())
    }
}

/// Reads so many items, one after the other, with the errors of the codec's `read`. No memory is reserved for items that
/// have not come.
pub fn read_times<C: Codec, S: Source>(
    codec: &C,
    alloc: Global,
    w: &mut Window,
    source: &mut S,
    count: u32,
) -> Result<Table<C::Item>, ReadError>
    requires { w.old.kept ≡ None }
    ensures value { ReadsPart S.left S.faults (times count (C.part codec.now)) w.old source.old w.new
        source.new result }
    ensures len { IfOk result (λ xs. length xs ≡ count) }
{
    let mut items = Table::new(alloc);
    for _ in 0..count {
        let item = codec.read(alloc, w, source)?;
        items.push(item)?;
    }
    Ok(items)
}

/// Reads a count below 2^30, as `read_u30` does, and that many items, as `read_times` does.
#[tactic(auto, unfolding(abc_file_types::specs::Lists::count_and_items))]
pub fn read_counted<C: Codec, S: Source>(
    codec: &C,
    alloc: Global,
    w: &mut Window,
    source: &mut S,
) -> Result<Table<C::Item>, ReadError>
    ensures value { ReadsPart S.left S.faults (count_and_items (C.part codec.now)) w.old source.old w.new
        source.new result }
    ensures len { IfOk result (λ xs. length xs < 2 ^ 30) }
{
    let count = next_u30(w, source)?;
    let items = read_times(codec, alloc, w, source, count)?;
    Ok(items)
}

/// Reads a pool, whose entry 0 is not spelled: a count below 2^30, as `read_u30` does, and one item less than that, or
/// none at the count 0, as `read_times` does.
#[tactic(auto, unfolding(abc_file_types::specs::Lists::pool))]
pub fn read_pool<C: Codec, S: Source>(
    codec: &C,
    alloc: Global,
    w: &mut Window,
    source: &mut S,
) -> Result<Table<C::Item>, ReadError>
    ensures value { ReadsPart S.left S.faults (pool (C.part codec.now)) w.old source.old w.new source.new
        result }
    ensures len { IfOk result (λ xs. length xs < 2 ^ 30) }
{
    let count = next_u30(w, source)?;
    let items = read_times(codec, alloc, w, source, count.saturating_sub(1))?;
    Ok(items)
}

/// Appends the items, one after the other. Where memory runs out, the old bytes are still the front.
#[tactic(auto, using(crate::proofs::Putting::stays))]
pub fn put_items<C: Codec>(items: &Table<C::Item>, out: &mut Vec<u8>) -> Result<(), NoMemory>
    ensures { Puts out.old.items out.new.items result (flat_map C.canonical items.now) }
{
    for item in items.as_slice() {
        C::put(item, out)?;
    }
    Ok(())
}

/// Appends how many items there are, and the items. Where memory runs out, the old bytes are still the front.
#[tactic(auto, unfolding(abc_file_types::specs::Canonical::counted_bytes), using(crate::proofs::Putting::stays, std::proofs::Common::append_assoc))]
pub fn put_counted<C: Codec>(items: &Table<C::Item>, out: &mut Vec<u8>) -> Result<(), NoMemory>
    ensures { Puts out.old.items out.new.items result (counted_bytes C.canonical items.now) }
{
    put_count(items.len(), out)?;
    put_items::<C>(items, out)?;
    Ok(())
}

/// Appends a pool: how many items there are and one more for entry 0, or 0 where there are none, and the items. Where
/// memory runs out, the old bytes are still the front.
#[tactic(auto, unfolding(abc_file_types::specs::Canonical::pool_bytes), using(crate::proofs::Putting::stays, std::proofs::Common::append_assoc))]
pub fn put_pool<C: Codec>(items: &Table<C::Item>, out: &mut Vec<u8>) -> Result<(), NoMemory>
    ensures { Puts out.old.items out.new.items result (pool_bytes C.canonical items.now) }
{
    put_number(pool_count(items), out)?;
    put_items::<C>(items, out)?;
    Ok(())
}

/// A number that is spelled as the pool's count is. No table is as long as 2^64 - 1 items, but that is not proved of
/// items that take no memory; then the count is spelled as 2^35 is, since a number has five bytes at most.
fn pool_count<T: Drop>(items: &Table<T>) -> u64
    ensures { number_bytes result ≡ number_bytes (count_of items.now) }
{
    let len = items.len();
    if len == 0 {
        return 0;
    }
    if len == usize::MAX {
        return 1 << 35;
    }
    len as u64 + 1
}

/// The codec of tables of an item: a count, and the items.
#[derive(Drop)]
pub struct Counted<C>(pub C);

impl<C: Codec> Codec for Counted<C> {
    type Item = Table<C::Item>;

    ghost part = { λ c. count_and_items (C.part c.0) };

    ghost canonical = { λ xs. counted_bytes C.canonical xs };

    fn read<S: Source>(
        &self,
        alloc: Global,
        w: &mut Window,
        source: &mut S,
    ) -> Result<Table<C::Item>, ReadError> {
        read_counted(&self.0, alloc, w, source)
    }

    fn put(item: &Table<C::Item>, out: &mut Vec<u8>) -> Result<(), NoMemory> {
        put_counted::<C>(item, out)
    }

    fn pass<S: Source>(
        &self,
        alloc: Global,
        w: &mut Window,
        source: &mut S,
        out: &mut Vec<u8>,
    ) -> Result<(), ReadError> {
        pass_counted(&self.0, alloc, w, source, out)?;
        Ok(())
    }
}
