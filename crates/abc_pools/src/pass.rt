ghost use Rattle.std.specs.Prelude.{◌≡◌, ◌≤◌, ℕ, [], ◌∷◌, ◌++◌, None, Some, Err, length, nat_eq, if◌then◌else◌};
ghost use Rattle.abc_file_types.specs.Canonical.{pool_bytes};
ghost use Rattle.abc_file_types.specs.Classes.{sizes_with};
ghost use Rattle.abc_file_types.specs.Pools.{multiname_bytes, multinames, pools as spelled_pools, pools_bytes};
ghost use Rattle.abc_varint.specs.Passes.{Passes, PassesPart};

use crate::doubles::Doubles;
use crate::multinames::Multinames;
use crate::spaces::Namespaces;
use abc_base::Source;
use abc_file_types::Sizes;
use abc_varint::{
    Counted, EntryIndex, Number32, ReadError, Signed32, Text, Window, pass_pool, pass_times,
    put_u30, read_u30,
};
use std::alloc::Global;

/// The count of a pool that is spelled with this one: 0 where entry 0 is the only one.
fn shortest_count(count: u32) -> u32
    ensures { result ≡ (if nat_eq count 1 then 0 else count) }
{
    if count == 1 { 0 } else { count }
}

/// Reads the multinames, where there are so many strings, namespaces and sets of namespaces, and appends their canonical
/// bytes. None is kept: gives how many there are.
#[tactic(auto, unfolding(abc_file_types::specs::Pools::multinames, abc_file_types::specs::Lists::pool_by))]
fn pass_names<S: Source>(
    alloc: Global,
    w: &mut Window,
    source: &mut S,
    strings: u32,
    spaces: u32,
    sets: u32,
    out: &mut Vec<u8>,
) -> Result<u32, ReadError>
    ensures { PassesPart S.left S.faults (multinames strings spaces sets) (pool_bytes multiname_bytes) length
        w.old source.old w.new source.new out.old.items out.new.items result }
{
    let count = read_u30(w, source)?;
    put_u30(shortest_count(count), out)?;
    let names = count.saturating_sub(1);
    let in_all = Multinames {
        strings,
        spaces,
        sets,
        names,
    };
    pass_times(&in_all, alloc, w, source, names, out)?;
    Ok(names)
}

/// Reads the seven pools, as `read_pools` does, and appends the canonical bytes of each entry before the next is read.
/// None is kept: gives how many entries there are. After an Err `out` may hold any bytes.
#[tactic(auto, unfolding(abc_file_types::specs::Pools::pools, abc_file_types::specs::Pools::namespace_set, abc_file_types::specs::Pools::pools_bytes), using(std::proofs::Common::append_assoc))]
pub fn pass_pools<S: Source>(
    alloc: Global,
    w: &mut Window,
    source: &mut S,
    out: &mut Vec<u8>,
) -> Result<Sizes, ReadError>
    ensures { PassesPart S.left S.faults spelled_pools pools_bytes (λ v. sizes_with v 0 0 0) w.old source.old
        w.new source.new out.old.items out.new.items result }
{
    let ints = pass_pool(&Signed32, alloc, w, source, out)?;
    let uints = pass_pool(&Number32, alloc, w, source, out)?;
    let doubles = pass_pool(&Doubles, alloc, w, source, out)?;
    let strings = pass_pool(&Text, alloc, w, source, out)?;
    let namespaces = pass_pool(&Namespaces { strings }, alloc, w, source, out)?;
    let sets = pass_pool(&Counted(EntryIndex(namespaces)), alloc, w, source, out)?;
    let names = pass_names(alloc, w, source, strings, namespaces, sets, out)?;
    Ok(Sizes {
        ints,
        uints,
        doubles,
        strings,
        namespaces,
        sets,
        names,
        methods: 0,
        metadata: 0,
        classes: 0,
    })
}
