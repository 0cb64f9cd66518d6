ghost use Rattle.std.specs.Prelude.{◌≡◌, ◌≤◌, ℕ, [], None, Some, Err, Bool, if◌then◌else◌};
ghost use Rattle.std.specs.List.{flat_map};
ghost use Rattle.abc_base.specs.Numbers.{number_bytes};
ghost use Rattle.abc_file_types.specs.Canonical.{counted_bytes};
ghost use Rattle.abc_file_types.specs.Lists.{times, count_and_items};
ghost use Rattle.abc_file_types.specs.Numbers.{u30};
ghost use Rattle.abc_file_types.specs.Part.{when};
ghost use Rattle.abc_varint.specs.Passes.{Passes, PassesPart, nothing_told};
ghost use Rattle.abc_varint.specs.Puts.{Puts};
ghost use Rattle.abc_varint.specs.Reads.{Reads, ReadsPart, ReadsNumber};

use abc_base::{NoMemory, Source, Table};
use abc_varint::{
    Codec, ReadError, Window, pass_counted, pass_times, put_counted, put_items, put_u30,
    read_counted, read_times, read_u30,
};
use std::alloc::Global;

/// The codec of numbers below 2^30.
#[derive(Clone, Copy, Debug)]
pub struct Number30;

impl Codec for Number30 {
    type Item = u32;

    ghost part = { λ _. u30 };

    ghost canonical = { number_bytes };

    fn read<S: Source>(
        &self,
        _alloc: Global,
        w: &mut Window,
        source: &mut S,
    ) -> Result<u32, ReadError> {
        read_u30(w, source)
    }

    fn put(item: &u32, out: &mut Vec<u8>) -> Result<(), NoMemory> {
        put_u30(*item, out)
    }
}

/// Reads so many items where a flag asks for them, and none where it does not.
#[tactic(auto, unfolding(abc_file_types::specs::Part::when))]
pub fn read_times_if<C: Codec, S: Source>(
    flag: bool,
    codec: &C,
    alloc: Global,
    w: &mut Window,
    source: &mut S,
    count: u32,
) -> Result<Table<C::Item>, ReadError>
    requires { w.old.kept ≡ None }
    ensures { ReadsPart S.left S.faults (when flag [] (times count (C.part codec.now))) w.old source.old w.new
        source.new result }
{
    if flag {
        read_times(codec, alloc, w, source, count)
    } else {
        Ok(Table::new(alloc))
    }
}

/// Reads a count and the items where a flag asks for them, and nothing where it does not.
#[tactic(auto, unfolding(abc_file_types::specs::Part::when))]
pub fn read_counted_if<C: Codec, S: Source>(
    flag: bool,
    codec: &C,
    alloc: Global,
    w: &mut Window,
    source: &mut S,
) -> Result<Table<C::Item>, ReadError>
    requires { w.old.kept ≡ None }
    ensures { ReadsPart S.left S.faults (when flag [] (count_and_items (C.part codec.now))) w.old source.old
        w.new source.new result }
{
    if flag {
        read_counted(codec, alloc, w, source)
    } else {
        Ok(Table::new(alloc))
    }
}

/// Appends the items where a flag asks for them.
pub fn put_items_if<C: Codec>(
    flag: bool,
    items: &Table<C::Item>,
    out: &mut Vec<u8>,
) -> Result<(), NoMemory>
    ensures { Puts out.old.items out.new.items result (if flag then flat_map C.canonical items.now else []) }
{
    if flag {
        return put_items::<C>(items, out);
    }
    Ok(())
}

/// Appends how many items there are, and the items, where a flag asks for them.
pub fn put_counted_if<C: Codec>(
    flag: bool,
    items: &Table<C::Item>,
    out: &mut Vec<u8>,
) -> Result<(), NoMemory>
    ensures { Puts out.old.items out.new.items result
        (if flag then counted_bytes C.canonical items.now else []) }
{
    if flag {
        return put_counted::<C>(items, out);
    }
    Ok(())
}

/// Passes so many items where a flag asks for them, and none where it does not.
#[tactic(auto, unfolding(abc_file_types::specs::Part::when))]
pub fn pass_times_if<C: Codec, S: Source>(
    flag: bool,
    codec: &C,
    alloc: Global,
    w: &mut Window,
    source: &mut S,
    count: u32,
    out: &mut Vec<u8>,
) -> Result<(), ReadError>
    requires { w.old.kept ≡ None }
    ensures { PassesPart S.left S.faults (when flag [] (times count (C.part codec.now)))
        (λ xs. if flag then flat_map C.canonical xs else []) nothing_told w.old source.old w.new source.new
        out.old.items out.new.items result }
{
    if flag {
        pass_times(codec, alloc, w, source, count, out)?;
    }
    Ok(())
}

/// Passes a count and the items where a flag asks for them, and nothing where it does not.
#[tactic(auto, unfolding(abc_file_types::specs::Part::when))]
pub fn pass_counted_if<C: Codec, S: Source>(
    flag: bool,
    codec: &C,
    alloc: Global,
    w: &mut Window,
    source: &mut S,
    out: &mut Vec<u8>,
) -> Result<(), ReadError>
    requires { w.old.kept ≡ None }
    ensures { PassesPart S.left S.faults (when flag [] (count_and_items (C.part codec.now)))
        (λ xs. if flag then counted_bytes C.canonical xs else []) nothing_told w.old source.old w.new
        source.new out.old.items out.new.items result }
{
    if flag {
        pass_counted(codec, alloc, w, source, out)?;
    }
    Ok(())
}
