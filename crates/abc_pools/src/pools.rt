ghost use Rattle.std.specs.Prelude.{◌≡◌, ◌≤◌, ◌∷◌, [], ◌++◌, ℕ, Err, None, Some, length};
ghost use Rattle.abc_file_types.specs.Canonical.{IsCanonical};
ghost use Rattle.abc_file_types.specs.Law.{IsDetermined};
ghost use Rattle.abc_file_types.specs.Pools.{multiname, multiname_bytes, multinames, pools as spelled_pools, pools_bytes};
ghost use Rattle.abc_varint.specs.Answers.{AnswersPart};
ghost use Rattle.abc_varint.specs.Puts.{Puts, PutsWhole};
ghost use Rattle.abc_varint.specs.Reads.{Reads, ReadsPart};

use crate::doubles::Doubles;
use crate::multinames::Multinames;
use crate::spaces::Namespaces;
use abc_base::{NoMemory, Source, Table};
use abc_file_types::{Abc, Multiname};
use abc_varint::{
    Counted, EntryIndex, Number32, ReadError, Signed32, Text, Window, put_pool, read_pool,
    read_times, read_u30,
};
use std::alloc::Global;

/// The multinames, where there are so many strings, namespaces and sets of namespaces. They may name one another, so each
/// is read by how many the count says that there are.
#[tactic(auto, unfolding(abc_file_types::specs::Pools::multinames, abc_file_types::specs::Lists::pool_by))]
fn read_names<S: Source>(
    alloc: Global,
    w: &mut Window,
    source: &mut S,
    strings: u32,
    spaces: u32,
    sets: u32,
) -> Result<Table<Multiname>, ReadError>
    ensures { ReadsPart S.left S.faults (multinames strings spaces sets) w.old source.old w.new source.new
        result }
{
    let count = read_u30(w, source)?;
    let names = count.saturating_sub(1);
    let in_all = Multinames {
        strings,
        spaces,
        sets,
        names,
    };
    let entries = read_times(&in_all, alloc, w, source, names)?;
    Ok(entries)
}

/// The seven pools in their order, and no other table.
#[tactic(auto, unfolding(abc_file_types::specs::Pools::pools, abc_file_types::specs::Pools::namespace_set))]
fn next_pools<S: Source>(alloc: Global, w: &mut Window, source: &mut S) -> Result<Abc, ReadError>
    ensures { ReadsPart S.left S.faults spelled_pools w.old source.old w.new source.new result }
{
    let ints = read_pool(&Signed32, alloc, w, source)?;
    let uints = read_pool(&Number32, alloc, w, source)?;
    let doubles = read_pool(&Doubles, alloc, w, source)?;
    let strings = read_pool(&Text, alloc, w, source)?;
    let string_count = strings.len() as u32;
    let in_strings = Namespaces {
        strings: string_count,
    };
    let namespaces = read_pool(&in_strings, alloc, w, source)?;
    let space_count = namespaces.len() as u32;
    let in_spaces = Counted(EntryIndex(space_count));
    let sets = read_pool(&in_spaces, alloc, w, source)?;
    let set_count = sets.len() as u32;
    let names = read_names(alloc, w, source, string_count, space_count, set_count)?;
    Ok(Abc {
        ints,
        uints,
        doubles,
        strings,
        namespaces,
        sets,
        names,
        ..Abc::new(alloc)
    })
}

/// The seven pools in their order: signed numbers, unsigned numbers, doubles, texts, namespaces, sets of namespaces and
/// multinames. The tables after them are empty. A pool is a count, and one entry less than that, or none at the count 0.
/// Each byte and number is refused as by `read_u8` and `read_u30`; a namespace by `NamespaceKind` where its kind is none
/// of the seven, at its kind byte; a member of a set by `Index` where it is 0 or above how many namespaces there are, at
/// its first byte; any other index by `Index` where it is above how many entries there are; a multiname as by
/// `read_multiname`. The window does not keep a refusal by `NamespaceKind`, `MultinameKind` or `Index`. `ReadFault` comes
/// only where the source's count of faults rose, and `NoMemory` where memory ran out.
pub fn read_pools<S: Source>(
    alloc: Global,
    w: &mut Window,
    source: &mut S,
) -> Result<Abc, ReadError>
    ensures value { ReadsPart S.left S.faults spelled_pools w.old source.old w.new source.new result }
    ensures answers { AnswersPart spelled_pools w.old (S.left source.old) w.new (S.left source.new) result }
{
    // So that its place is known to be at most 2^24.
    let _place = w.place();
    next_pools(alloc, w, source)
}

/// Appends the pools in their order. Where memory runs out, the old bytes are still the front.
#[tactic(auto, unfolding(abc_file_types::specs::Pools::pools_bytes), using(abc_varint::proofs::Putting::stays, std::proofs::Common::append_assoc))]
fn append_pools(abc: &Abc, out: &mut Vec<u8>) -> Result<(), NoMemory>
    ensures { Puts out.old.items out.new.items result (pools_bytes abc.now) }
{
    put_pool::<Signed32>(&abc.ints, out)?;
    put_pool::<Number32>(&abc.uints, out)?;
    put_pool::<Doubles>(&abc.doubles, out)?;
    put_pool::<Text>(&abc.strings, out)?;
    put_pool::<Namespaces>(&abc.namespaces, out)?;
    put_pool::<Counted<EntryIndex>>(&abc.sets, out)?;
    put_pool::<Multinames>(&abc.names, out)?;
    Ok(())
}

/// Appends the shortest spelling of the seven pools, in their order. `NoMemory` comes where memory ran out, and then the
/// bytes stay as they were.
pub fn put_pools(abc: &Abc, out: &mut Vec<u8>) -> Result<(), NoMemory>
    ensures { PutsWhole out.old.items out.new.items result (pools_bytes abc.now) }
{
    let len = out.len();
    let done = append_pools(abc, out);
    if done.is_err() {
        out.truncate(len);
    }
    done
}

/// Bytes begin with pools, or with a multiname, in one way, or are refused at one place for one reason, and never both.
/// What `put_pools` and `put_multiname` append of a value that is spelled at all is a spelling of it, and none is shorter.
pub fn shortest_spelling()
    ensures one_reading { IsDetermined spelled_pools }
    ensures shortest { IsCanonical spelled_pools pools_bytes }
    ensures one_reading_of_names { (strings spaces sets names : ℕ)
        → IsDetermined (multiname strings spaces sets names) }
    ensures shortest_names { (strings spaces sets names : ℕ)
        → IsCanonical (multiname strings spaces sets names) multiname_bytes }
{}
