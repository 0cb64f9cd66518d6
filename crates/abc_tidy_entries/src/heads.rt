ghost use Rattle.std.specs.Prelude.{◌≡◌, ◌<◌, ◌++◌, ◌^◌, map, length, IfOk, OnOk};
ghost use Rattle.abc_tidy_refs.specs.Nodes.{counts_of, node_count};
ghost use Rattle.abc_tidy_entries.specs.Entries.{heads_of as heads_of_file, name_head, name_kind as kind_of_name, sets_kind, space_head, space_heads, space_told as value_of_space, value_head};
ghost use Rattle.abc_tidy_entries.specs.Heads.{TellHeads};
ghost use Rattle.abc_file_types.specs.Pools.{namespace_code};

use crate::places::{double_places, int_places, text_places, uint_places};
use abc_base::{NoMemory, Table};
use abc_base_trees::Head;
use abc_file_types::{Abc, Multiname, Namespace, NsKind};
use std::alloc::Global;

const INTS: u8 = 1;

const UINTS: u8 = 2;

const DOUBLES: u8 = 3;

const TEXTS: u8 = 4;

const SETS: u8 = 6;

/// The kind byte of a namespace.
fn space_code(kind: NsKind) -> u8
    ensures { result ≡ namespace_code kind }
{
    match kind {
        NsKind::Private => 0x05,
        NsKind::Namespace => 0x08,
        NsKind::Package => 0x16,
        NsKind::PackageInternal => 0x17,
        NsKind::Protected => 0x18,
        NsKind::Explicit => 0x19,
        NsKind::StaticProtected => 0x1a,
    }
}

/// Which of its kind and name a namespace is: a Private one is told by its place.
fn space_value(kind: NsKind, place: u32) -> u32
    ensures { result ≡ value_of_space kind place }
{
    match kind {
        NsKind::Private => place,
        _ => 0,
    }
}

/// The kind byte of a multiname.
fn name_kind(name: &Multiname) -> u8
    ensures { result ≡ kind_of_name name.now }
{
    match name {
        Multiname::QName { attr, .. } => if *attr { 0x0d } else { 0x07 },
        Multiname::Rt { attr, .. } => if *attr { 0x10 } else { 0x0f },
        Multiname::RtL { attr } => if *attr { 0x12 } else { 0x11 },
        Multiname::Multi { attr, .. } => if *attr { 0x0e } else { 0x09 },
        Multiname::MultiL { attr, .. } => if *attr { 0x1c } else { 0x1b },
        Multiname::TypeName { .. } => 0x1d,
    }
}

/// Adds values, told by their places.
fn add_values(heads: &mut Table<Head>, kind: u8, places: &Table<u32>) -> Result<(), NoMemory>
    ensures { OnOk result (heads.new ≡ heads.old ++ map (value_head kind) places.now) }
{
    for place in places.as_slice() {
        heads.push(Head {
            kind,
            value: *place,
        })?;
    }
    Ok(())
}

fn head_of_space(space: &Namespace, place: u32) -> Head
    ensures { result ≡ space_head space.now place }
{
    Head {
        kind: space_code(space.kind),
        value: space_value(space.kind, place),
    }
}

fn add_spaces(heads: &mut Table<Head>, spaces: &Table<Namespace>) -> Result<(), NoMemory>
    requires { length spaces.now < 2 ^ 32 }
    ensures { OnOk result (heads.new ≡ heads.old ++ space_heads 0 spaces.now) }
{
    for i in 0..spaces.len() {
        heads.push(head_of_space(spaces.get(i), i as u32))?;
    }
    Ok(())
}

fn add_sets(heads: &mut Table<Head>, sets: &Table<Table<u32>>) -> Result<(), NoMemory>
    ensures { OnOk result (heads.new ≡ heads.old ++ map (λ s. value_head sets_kind 0) sets.now) }
{
    for _set in sets.as_slice() {
        heads.push(Head {
            kind: SETS,
            value: 0,
        })?;
    }
    Ok(())
}

fn add_names(heads: &mut Table<Head>, names: &Table<Multiname>) -> Result<(), NoMemory>
    ensures { OnOk result (heads.new ≡ heads.old ++ map name_head names.now) }
{
    for name in names.as_slice() {
        heads.push(Head {
            kind: name_kind(name),
            value: 0,
        })?;
    }
    Ok(())
}

/// What each entry is by itself. Values that are not marked are not told apart.
pub fn heads_of(alloc: Global, abc: &Abc, marks: &[bool]) -> Result<Table<Head>, NoMemory>
    requires few { node_count (counts_of abc.now) < 2 ^ 32 }
    requires marks { length marks.now ≡ node_count (counts_of abc.now) }
    ensures { IfOk result (λ hs. TellHeads marks.now 0 hs (heads_of_file abc.now)) }
{
    let ints = int_places(alloc, abc, marks)?;
    let uints = uint_places(alloc, abc, marks)?;
    let doubles = double_places(alloc, abc, marks)?;
    let texts = text_places(alloc, abc, marks)?;
    let mut heads = Table::new(alloc);
    heads.push(Head { kind: 0, value: 0 })?;
    add_values(&mut heads, INTS, &ints)?;
    add_values(&mut heads, UINTS, &uints)?;
    add_values(&mut heads, DOUBLES, &doubles)?;
    add_values(&mut heads, TEXTS, &texts)?;
    add_spaces(&mut heads, &abc.namespaces)?;
    add_sets(&mut heads, &abc.sets)?;
    add_names(&mut heads, &abc.names)?;
    Ok(heads)
}
