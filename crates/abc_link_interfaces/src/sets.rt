ghost use Rattle.std.specs.Prelude.{◌≡◌, ◌+◌, ◌<◌, ◌^◌, false, length, nat_eq, not, IfOk, OnOk};
ghost use Rattle.std.specs.List.{list_any};
ghost use Rattle.abc_base_graphs.specs.Graph.{IsGraph, leads_to};
ghost use Rattle.abc_link_interfaces.specs.Sets.{AreSets, AreUnset, HasAllSets, IsSetOf, ListsBelow, ListsMarked, Settles, SettlesEach, is_settled as is_settled_in, keys_at as keys_in_sets};
ghost use Rattle.abc_link_names.specs.Interfaces.{class_graph};

use crate::gathered::{given, keys_at};
use crate::set::NumberSet;
use abc_base::{NoMemory, Table};
use abc_base_graphs::reached;
use abc_file_types::Abc;
use abc_link_names::is_interface;
use std::alloc::Global;

/// The most numbers that all sets have. Where there would be more, memory is said to have run out: of a chain of interfaces, each of
/// which names the next, the sets have numbers by the square of its length.
pub const MOST_INTERFACES: usize = 1 << 22;

/// The most numbers that are gone over to make all sets. Where there would be more, memory is said to have run out: many
/// classes that each name many, of which each has many, go over numbers by the product of the three.
pub const MOST_GONE_OVER: usize = 1 << 30;

/// How many numbers more the sets may have, and how many more may be gone over to make them.
#[derive(Drop)]
struct Room {
    kept: usize,
    gone_over: usize,
}

/// How many numbers the sets of some classes have.
fn numbers_in(sets: &Table<Option<NumberSet>>, classes: &[u32]) -> usize {
    let mut count = classes.len();
    for class in classes {
        count = count.saturating_add(keys_at(sets, *class).len());
    }
    count
}

/// Whether the set of a class is there.
fn is_settled(sets: &Table<Option<NumberSet>>, class: u32) -> bool
    ensures { result ≡ is_settled_in sets.now class }
{
    match sets.find(class as usize) {
        Some(Some(_)) => true,
        _ => false,
    }
}

/// Whether the set of one of several classes is missing.
fn any_missing(sets: &Table<Option<NumberSet>>, classes: &[u32]) -> bool
    ensures { result ≡ list_any (λ t. not (is_settled_in sets.now t)) classes.now }
{
    for class in classes {
        if !is_settled(sets, *class) {
            return true;
        }
    }
    false
}

/// Adds a class, if it is marked and an interface.
#[tactic(auto, using(crate::proofs::Marking::next_marked, crate::proofs::Marking::next_unmarked, crate::proofs::Marking::next_class))]
fn push_marked(list: &mut Vec<u32>, abc: &Abc, marks: &[bool], class: u32) -> Result<(), NoMemory>
    requires within { class < length marks.now }
    requires before { ListsMarked abc.now marks.now list.old.items class }
    ensures { OnOk result (ListsMarked abc.now marks.now list.new.items (class + 1)) }
{
    if !marks[class as usize] {
        return Ok(());
    }
    if !is_interface(abc, class) {
        return Ok(());
    }
    list.push(class)?;
    Ok(())
}

/// The interfaces among marked classes.
#[tactic(auto, using(crate::proofs::Marking::none_marked))]
fn marked(alloc: Global, abc: &Abc, marks: &[bool], count: u32) -> Result<Vec<u32>, NoMemory>
    requires { count ≡ length marks.now }
    ensures { IfOk result (λ list. ListsMarked abc.now marks.now list.items (length marks.now)) }
{
    let mut list = Vec::new(alloc);
    for class in 0..count {
        push_marked(&mut list, abc, marks, class)?;
    }
    Ok(list)
}

/// The set of a class, by the sets of all that it leads to.
#[tactic(auto, using(crate::proofs::Uniting::united))]
fn united(
    alloc: Global,
    abc: &Abc,
    graph: &Table<Table<u32>>,
    sets: &Table<Option<NumberSet>>,
    places: &mut Vec<u32>,
    class: u32,
) -> Result<NumberSet, NoMemory>
    requires graph { graph.now ≡ class_graph abc.now }
    requires sets { AreSets abc.now sets.now }
    requires there { list_any (λ t. not (is_settled_in sets.now t)) (leads_to graph.now class) ≡ false }
    ensures { IfOk result (λ s. IsSetOf abc.now class s) }
{
    let list = given(alloc, abc, sets, places, targets_of(graph, class))?;
    let set = NumberSet::new(alloc, list.as_slice())?;
    Ok(set)
}

/// The set of a class, by a search.
#[tactic(auto, using(crate::proofs::Marking::searched))]
fn searched(
    alloc: Global,
    abc: &Abc,
    graph: &Table<Table<u32>>,
    class: u32,
) -> Result<NumberSet, NoMemory>
    requires graph { graph.now ≡ class_graph abc.now }
    requires in_range { IsGraph graph.now }
    requires few { length graph.now < 2 ^ 32 }
    requires known { class < length graph.now }
    ensures { IfOk result (λ s. IsSetOf abc.now class s) }
{
    let marks = reached(alloc, graph, class)?;
    let list = marked(alloc, abc, marks.as_slice(), graph.len() as u32)?;
    NumberSet::new(alloc, list.as_slice())
}

/// What a class leads to.
#[tactic(auto, using(abc_base::proofs::Past::past_end))]
fn targets_of(graph: &Table<Table<u32>>, class: u32) -> &[u32]
    ensures { result.now ≡ leads_to graph.now class }
{
    match graph.find(class as usize) {
        Some(list) => list.as_slice(),
        None => &[],
    }
}

/// The set of a class: of those of all that it leads to, where they are there, else by a search.
fn set_for(
    alloc: Global,
    abc: &Abc,
    graph: &Table<Table<u32>>,
    sets: &Table<Option<NumberSet>>,
    places: &mut Vec<u32>,
    class: u32,
) -> Result<NumberSet, NoMemory>
    requires graph { graph.now ≡ class_graph abc.now }
    requires in_range { IsGraph graph.now }
    requires few { length graph.now < 2 ^ 32 }
    requires known { class < length graph.now }
    requires sets { AreSets abc.now sets.now }
    ensures { IfOk result (λ s. IsSetOf abc.now class s) }
{
    if any_missing(sets, targets_of(graph, class)) {
        return searched(alloc, abc, graph, class);
    }
    united(alloc, abc, graph, sets, places, class)
}

/// Puts the set of a class there, if there is room for it, unless it is there or the number is that of no class.
#[tactic(auto, using(crate::proofs::Settling::stays, crate::proofs::Settling::put))]
fn settle(
    alloc: Global,
    abc: &Abc,
    graph: &Table<Table<u32>>,
    sets: &mut Table<Option<NumberSet>>,
    places: &mut Vec<u32>,
    room: &mut Room,
    class: u32,
) -> Result<(), NoMemory>
    requires graph { graph.now ≡ class_graph abc.now }
    requires in_range { IsGraph graph.now }
    requires few { length graph.now < 2 ^ 32 }
    requires as_many { length sets.old ≡ length graph.now }
    requires sets { AreSets abc.now sets.old }
    ensures { OnOk result (Settles abc.now sets.old sets.new class) }
{
    if is_settled(sets, class) {
        return Ok(());
    }
    if class as usize >= sets.len() {
        return Ok(());
    }
    let steps = numbers_in(sets, targets_of(graph, class));
    room.gone_over = room.gone_over.checked_sub(steps).ok_or(NoMemory)?;
    let settled = set_for(alloc, abc, graph, sets, places, class)?;
    room.kept = room
        .kept
        .checked_sub(settled.as_slice().len())
        .ok_or(NoMemory)?;
    sets.set(class as usize, Some(settled));
    Ok(())
}

/// No sets, for so many classes.
#[tactic(auto, using(crate::proofs::Settling::unset_none, crate::proofs::Settling::unset_next))]
fn unset(alloc: Global, count: usize) -> Result<Table<Option<NumberSet>>, NoMemory>
    ensures { IfOk result (λ sets. AreUnset sets count) }
{
    let mut sets = Table::new(alloc);
    for _class in 0..count {
        sets.push(None)?;
    }
    Ok(sets)
}

/// Puts the sets of some classes there, each by those that are there before.
#[tactic(auto, using(crate::proofs::Settling::begun, crate::proofs::Settling::next))]
fn settle_each(
    alloc: Global,
    abc: &Abc,
    graph: &Table<Table<u32>>,
    nodes: &[u32],
) -> Result<Table<Option<NumberSet>>, NoMemory>
    requires graph { graph.now ≡ class_graph abc.now }
    requires in_range { IsGraph graph.now }
    requires few { length graph.now < 2 ^ 32 }
    ensures { IfOk result (λ sets. SettlesEach abc.now (length graph.now) sets nodes.now (length nodes.now)) }
{
    let mut sets = unset(alloc, graph.len())?;
    let mut places = vec![in alloc; 0u32; graph.len()]?;
    let mut room = Room {
        kept: MOST_INTERFACES,
        gone_over: MOST_GONE_OVER,
    };
    for class in nodes {
        settle(alloc, abc, graph, &mut sets, &mut places, &mut room, *class)?;
    }
    Ok(sets)
}

/// The sets of all classes.
#[tactic(auto, using(crate::proofs::Settling::all_settled))]
pub(crate) fn sets_of(
    alloc: Global,
    abc: &Abc,
    graph: &Table<Table<u32>>,
    nodes: &[u32],
) -> Result<Table<Option<NumberSet>>, NoMemory>
    requires graph { graph.now ≡ class_graph abc.now }
    requires in_range { IsGraph graph.now }
    requires few { length graph.now < 2 ^ 32 }
    requires nodes { ListsBelow nodes.now (length graph.now) }
    ensures { IfOk result (λ sets. HasAllSets abc.now sets) }
{
    let sets = settle_each(alloc, abc, graph, nodes)?;
    Ok(sets)
}

/// Whether the set of a class has a number.
pub(crate) fn has(sets: &Table<Option<NumberSet>>, class: u32, number: u32) -> bool
    ensures { result ≡ list_any (nat_eq number) (keys_in_sets sets.now class) }
{
    match sets.find(class as usize) {
        Some(Some(set)) => set.has(number),
        _ => false,
    }
}
