ghost use Rattle.std.specs.Prelude.{◌≡◌, ◌<◌, ◌+◌, ◌^◌, ℕ, Some, get_or, length, map, replicate, set, IfOk, OnOk};
ghost use Rattle.abc_tidy_refs.specs.Nodes.{counts_of, node_count};
ghost use Rattle.abc_base_trees.specs.Alike.{AreAlike};
ghost use Rattle.abc_base_trees.specs.Classes.{AllClassed, HaveOwnClasses, AreTreeClasses, AreDistinct};
ghost use Rattle.abc_tidy_entries.specs.Entries.{graph_of, heads_of};
ghost use Rattle.abc_tidy_entries.specs.Numbered.{AreClassPlaces, AreNodeNumbers, AreNumbersMet, next_of_pool, node_number, with_place};
ghost use Rattle.abc_tidy_entries.specs.Visited.{NumberNodes, pool_of_node as index_of_pool, roots_of as roots_of_file};

use crate::checks::count_of;
use abc_base::{NoMemory, Table};
use abc_base_trees::{Classes, Head, Rows};
use abc_file_types::Abc;
use abc_tidy_refs::Counts;
use std::alloc::Global;

/// How many pools there are, and one for node 0.
const POOLS: usize = 8;

/// The pool of a node, as its place in the file, counted from 1; 0 for node 0.
fn pool_index(counts: &Counts, node: u32) -> usize
    ensures is { result ≡ index_of_pool counts.now node }
    ensures small { result < 8 }
{
    let node = node as usize;
    let ints = counts.ints as usize;
    let uints = ints + counts.uints as usize;
    let doubles = uints + counts.doubles as usize;
    let strings = doubles + counts.strings as usize;
    let namespaces = strings + counts.namespaces as usize;
    let sets = namespaces + counts.sets as usize;
    if node == 0 {
        0
    } else if node <= ints {
        1
    } else if node <= uints {
        2
    } else if node <= doubles {
        3
    } else if node <= strings {
        4
    } else if node <= namespaces {
        5
    } else if node <= sets {
        6
    } else {
        7
    }
}

/// So many zeros.
fn zeros(alloc: Global, count: usize) -> Result<Table<usize>, NoMemory>
    ensures { IfOk result (λ t. t ≡ replicate count 0) }
{
    let mut table = Table::new(alloc);
    for _i in 0..count {
        table.push(0)?;
    }
    Ok(table)
}

/// The number at a place, or 0 past the end.
#[tactic(auto, using(abc_tidy_refs::proofs::Reading::no_number, abc_tidy_refs::proofs::Reading::a_number))]
fn read_place(places: &Table<usize>, class: usize) -> usize
    ensures { result ≡ get_or places.now class 0 }
{
    match places.fetch(class) {
        Some(place) => place,
        None => 0,
    }
}

/// The number at a place, or 0 past the end.
#[tactic(auto, using(abc_tidy_refs::proofs::Reading::no_number, abc_tidy_refs::proofs::Reading::a_number))]
fn read_number(numbers: &Table<u32>, place: usize) -> u32
    ensures { result ≡ get_or numbers.now place 0 }
{
    match numbers.fetch(place) {
        Some(number) => number,
        None => 0,
    }
}

/// Notes the place of a class, if there is one.
fn note_place(places: &mut Table<usize>, class: Option<usize>, place: usize)
    requires { (c : ℕ) → class ≡ Some c → c < length places.old }
    ensures { places.new ≡ with_place places.old class place }
{
    match class {
        Some(class) => places.set(class, place),
        None => {}
    }
}

/// The place of each class among the nodes that were met.
fn places_of(
    alloc: Global,
    classes: &Classes,
    seen: &Table<u32>,
    _heads: &Table<Head>,
    _graph: &Rows<u32>,
) -> Result<Table<usize>, NoMemory>
    requires valid { AreTreeClasses _heads.now _graph.now classes.now.keys.keys classes.now.classes }
    requires apart { HaveOwnClasses classes.now.classes seen.now }
    ensures { IfOk result (λ t. AreClassPlaces classes.now.classes seen.now (length seen.now) t) }
{
    let mut places = zeros(alloc, classes.keys.len())?;
    for i in 0..seen.len() {
        let class = classes.class(*seen.get(i));
        note_place(&mut places, class, i);
    }
    Ok(places)
}

/// How many nodes of each pool were met.
#[derive(Drop)]
struct Counters {
    met: Table<u32>,
}

impl Counters {
    /// Counts one more of a pool, and tells how many there are with it.
    fn count(&mut self, pool: usize) -> Result<u32, NoMemory>
        requires { pool < length self.old.met }
        ensures is { IfOk result (λ n. n ≡ get_or self.old.met pool 0 + 1) }
        ensures met { OnOk result (self.new.met ≡ set self.old.met pool (get_or self.old.met pool 0 + 1)) }
    {
        let number = read_number(&self.met, pool).checked_add(1).ok_or(NoMemory)?;
        self.met.set(pool, number);
        Ok(number)
    }

    /// Counts a node, and tells its number: that of node 0 is 0.
    #[tactic(auto, using(crate::proofs::Numbered::counted))]
    fn number(&mut self, counts: &Counts, node: u32) -> Result<u32, NoMemory>
        requires { length self.old.met ≡ 8 }
        ensures is { IfOk result (λ n. n ≡ next_of_pool counts.now self.old.met node) }
        ensures met { OnOk result (self.new.met
            ≡ set self.old.met (index_of_pool counts.now node)
            (get_or self.old.met (index_of_pool counts.now node) 0 + 1)) }
    {
        let pool = pool_index(counts, node);
        let number = self.count(pool)?;
        if pool == 0 {
            return Ok(0);
        }
        Ok(number)
    }
}

/// No node of any pool as yet.
fn no_counts(alloc: Global) -> Result<Table<u32>, NoMemory>
    ensures { IfOk result (λ t. t ≡ replicate 8 0) }
{
    let mut met = Table::new(alloc);
    for _pool in 0..POOLS {
        met.push(0)?;
    }
    Ok(met)
}

/// The new number of each node that was met, in order.
#[tactic(auto, using(crate::proofs::Numbered::met_begin, crate::proofs::Numbered::met_all))]
fn numbers_met(alloc: Global, counts: &Counts, seen: &Table<u32>) -> Result<Table<u32>, NoMemory>
    ensures { IfOk result (λ t. AreNumbersMet counts.now seen.now t) }
{
    let met = no_counts(alloc)?;
    let mut counters = Counters { met };
    let mut numbers = Table::new(alloc);
    for node in seen.as_slice() {
        let number = counters.number(counts, *node)?;
        numbers.push(number)?;
    }
    Ok(numbers)
}

/// The new number of a node: that of the node of its class that was met.
fn number_of_node(classes: &Classes, places: &Table<usize>, numbers: &Table<u32>, node: u32) -> u32
    ensures { result ≡ node_number classes.now.classes places.now numbers.now node }
{
    match classes.class(node) {
        Some(class) => read_number(numbers, read_place(places, class)),
        None => 0,
    }
}

/// The new number of each node.
#[tactic(auto, using(crate::proofs::Numbered::node_begin))]
fn node_numbers(
    alloc: Global,
    count: u32,
    classes: &Classes,
    places: &Table<usize>,
    numbers: &Table<u32>,
) -> Result<Table<u32>, NoMemory>
    ensures { IfOk result (λ t. AreNodeNumbers classes.now.classes places.now numbers.now count t) }
{
    let mut all = Table::new(alloc);
    for node in 0..count {
        let number = number_of_node(classes, places, numbers, node);
        all.push(number)?;
    }
    Ok(all)
}

/// The new number of each node of a file whose nodes were met in this order.
pub fn numbers_of(
    alloc: Global,
    _abc: &Abc,
    counts: &Counts,
    heads: &Table<Head>,
    graph: &Rows<u32>,
    classes: &Classes,
    seen: &Table<u32>,
) -> Result<Table<u32>, NoMemory>
    requires counts { counts.now ≡ counts_of _abc.now }
    requires heads { AreAlike classes.now.classes heads.now (heads_of _abc.now) }
    requires graph { graph.now ≡ graph_of _abc.now }
    requires valid { AreTreeClasses heads.now graph.now classes.now.keys.keys classes.now.classes }
    requires distinct { AreDistinct classes.now.keys.keys }
    requires roots { AllClassed classes.now.classes (roots_of_file _abc.now) }
    requires classed { AllClassed classes.now.classes seen.now }
    requires apart { HaveOwnClasses classes.now.classes seen.now }
    ensures { IfOk result (λ t. NumberNodes _abc.now seen.now t) }
{
    let count = count_of(graph.len())?;
    let places = places_of(alloc, classes, seen, heads, graph)?;
    let numbers = numbers_met(alloc, counts, seen)?;
    let all = node_numbers(alloc, count, classes, &places, &numbers)?;
    Ok(all)
}
