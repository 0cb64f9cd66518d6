ghost use Rattle.std.specs.Prelude.{◌≡◌, ◌+◌, ◌-◌, ◌<◌, ◌^◌, [], map, nat_lt, slice_get, option_copied, if◌then◌else◌, IfOk, OnOk};
ghost use Rattle.std.specs.Option.{option_to_list};
ghost use Rattle.abc_tidy_refs.specs.Nodes.{node_count};
ghost use Rattle.abc_tidy_entries.specs.NewPools.{same_entry, new_name, new_pools as pools_with, new_set, new_space, entries_of_nodes, picked_at, pools_over};

use abc_base::{Bytes, NoMemory, Table};
use abc_file_types::{Abc, BoxedList, Eight, Multiname, Namespace, Pool};
use abc_tidy_refs::{Numbers, renumber_all};
use std::alloc::Global;

/// Entries of a pool, which get new numbers in place of their indices.
pub(crate) trait Entry: Drop {
    ghost use Rattle.abc_tidy_refs.specs.declared.nodes.Numbers.{Numbers as NumbersOf};

    ghost new: { NumbersOf → Self → Self };

    /// A copy of the entry with new numbers in place of its indices.
    fn renumbered(&self, alloc: Global, numbers: &Numbers) -> Result<Self, NoMemory>
        ensures { IfOk result (λ x. x ≡ new numbers.now self.now) };
}

impl Entry for i32 {
    ghost new = { same_entry };

    fn renumbered(&self, _alloc: Global, _numbers: &Numbers) -> Result<i32, NoMemory> {
        Ok(*self)
    }
}

impl Entry for u32 {
    ghost new = { same_entry };

    fn renumbered(&self, _alloc: Global, _numbers: &Numbers) -> Result<u32, NoMemory> {
        Ok(*self)
    }
}

impl Entry for Eight {
    ghost new = { same_entry };

    fn renumbered(&self, _alloc: Global, _numbers: &Numbers) -> Result<Eight, NoMemory> {
        Ok(*self)
    }
}

impl Entry for Bytes {
    ghost new = { same_entry };

    fn renumbered(&self, alloc: Global, _numbers: &Numbers) -> Result<Bytes, NoMemory> {
        Bytes::from_slice(alloc, self.as_slice())
    }
}

impl Entry for Namespace {
    ghost new = { new_space };

    fn renumbered(&self, _alloc: Global, numbers: &Numbers) -> Result<Namespace, NoMemory> {
        Ok(Namespace {
            kind: self.kind,
            name: numbers.number(Pool::Text, self.name),
        })
    }
}

impl Entry for Table<u32> {
    ghost new = { new_set };

    fn renumbered(&self, alloc: Global, numbers: &Numbers) -> Result<Table<u32>, NoMemory> {
        renumber_all(alloc, Pool::Space, self, numbers)
    }
}

impl Entry for Multiname {
    ghost new = { new_name };

    fn renumbered(&self, alloc: Global, numbers: &Numbers) -> Result<Multiname, NoMemory> {
        Ok(match self {
            Multiname::QName { attr, ns, name } => Multiname::QName {
                attr: *attr,
                ns: numbers.number(Pool::Space, *ns),
                name: numbers.number(Pool::Text, *name),
            },
            Multiname::Rt { attr, name } => Multiname::Rt {
                attr: *attr,
                name: numbers.number(Pool::Text, *name),
            },
            Multiname::RtL { attr } => Multiname::RtL { attr: *attr },
            Multiname::Multi { attr, name, set } => Multiname::Multi {
                attr: *attr,
                name: numbers.number(Pool::Text, *name),
                set: numbers.set_number(*set),
            },
            Multiname::MultiL { attr, set } => Multiname::MultiL {
                attr: *attr,
                set: numbers.set_number(*set),
            },
            Multiname::TypeName { base, params } => Multiname::TypeName {
                base: numbers.number(Pool::Name, *base),
                params: BoxedList::new(
                    alloc,
                    renumber_all(alloc, Pool::Name, params.list(), numbers)?,
                )?,
            },
        })
    }
}

/// The entry of a pool that a node is, if it is one; there are so many entries before those of the pool.
#[tactic(auto, using(crate::proofs::Picked::no_pick, crate::proofs::Picked::a_pick))]
fn pick<T: Drop>(before: usize, items: &Table<T>, node: u32) -> Option<&T>
    ensures { option_to_list (option_copied result) ≡ picked_at before items.now node }
{
    let node = node as usize;
    if node <= before {
        return None;
    }
    items.find(node - before - 1)
}

/// The entries of a pool that were met, with new numbers in place of their indices.
fn new_pool<T: Entry>(
    alloc: Global,
    numbers: &Numbers,
    before: usize,
    items: &Table<T>,
    seen: &Table<u32>,
) -> Result<Table<T>, NoMemory>
    ensures { IfOk result (λ t. t ≡ map (T.new numbers.now) (entries_of_nodes before items.now seen.now)) }
{
    let mut pool = Table::new(alloc);
    for node in seen.as_slice() {
        if let Some(item) = pick(before, items, *node) {
            pool.push(item.renumbered(alloc, numbers)?)?;
        }
    }
    Ok(pool)
}

/// Gives a file the pools of the tidied one.
fn fill_pools(
    alloc: Global,
    abc: &Abc,
    numbers: &Numbers,
    seen: &Table<u32>,
    new: &mut Abc,
) -> Result<(), NoMemory>
    ensures { OnOk result (new.new ≡ pools_over new.old numbers.now abc.now seen.now) }
{
    let mut before = 0;
    new.ints = new_pool(alloc, numbers, before, &abc.ints, seen)?;
    before += numbers.counts.ints as usize;
    new.uints = new_pool(alloc, numbers, before, &abc.uints, seen)?;
    before += numbers.counts.uints as usize;
    new.doubles = new_pool(alloc, numbers, before, &abc.doubles, seen)?;
    before += numbers.counts.doubles as usize;
    new.strings = new_pool(alloc, numbers, before, &abc.strings, seen)?;
    before += numbers.counts.strings as usize;
    new.namespaces = new_pool(alloc, numbers, before, &abc.namespaces, seen)?;
    before += numbers.counts.namespaces as usize;
    new.sets = new_pool(alloc, numbers, before, &abc.sets, seen)?;
    before += numbers.counts.sets as usize;
    new.names = new_pool(alloc, numbers, before, &abc.names, seen)?;
    Ok(())
}

/// The pools of the tidied file: of the nodes that were seen, in this order, each pool has its entries with their new numbers. The
/// tables after the pools are empty. It answers [`NoMemory`] where memory ran out.
pub fn new_pools(
    alloc: Global,
    abc: &Abc,
    numbers: &Numbers,
    seen: &Table<u32>,
) -> Result<Abc, NoMemory>
    ensures { IfOk result (λ t. t ≡ pools_with numbers.now abc.now seen.now) }
{
    let mut new = Abc::new(alloc);
    fill_pools(alloc, abc, numbers, seen, &mut new)?;
    Ok(new)
}
