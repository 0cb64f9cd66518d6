ghost use Rattle.std.specs.Prelude.{◌≡◌, ◌∷◌, [], if◌then◌else◌, length, Contains, IfOk, IsTrue, OnOk};
ghost use Rattle.abc_link_interfaces.specs.Sets.{AddsNumbers, AddsEach, GathersInterfaces, interfaces_given_by, keys_at as keys_in_sets};
ghost use Rattle.abc_link_names.specs.Bases.{is_interface as is_interface_class};

use crate::set::NumberSet;
use abc_base::{NoMemory, Table};
use abc_file_types::Abc;
use abc_link_names::is_interface;
use std::alloc::Global;

/// Whether a number stands at a place of a list.
#[tactic(auto, using(crate::proofs::Gathering::stands))]
fn stands_at(list: &Vec<u32>, place: usize, x: u32) -> bool
    ensures { IsTrue result → Contains list.now.items x }
{
    if place >= list.len() {
        return false;
    }
    list[place] == x
}

/// Whether a number stands at the place that is noted for it.
fn is_listed(list: &Vec<u32>, places: &Vec<u32>, x: u32) -> bool
    ensures { IsTrue result → Contains list.now.items x }
{
    let at = x as usize;
    if at >= places.len() {
        return false;
    }
    stands_at(list, places[at] as usize, x)
}

/// Notes the place of a number. It is a hint: with any places a list would have the same numbers.
fn note(places: &mut Vec<u32>, x: u32, place: usize) {
    let at = x as usize;
    if at < places.len() && place <= u32::MAX as usize {
        places[at] = place as u32;
    }
}

/// Adds a number to a list, unless it stands at the place that is noted for it.
#[tactic(auto, using(crate::proofs::Gathering::listed, crate::proofs::Gathering::pushed))]
fn push_new(list: &mut Vec<u32>, places: &mut Vec<u32>, x: u32) -> Result<(), NoMemory>
    ensures list { OnOk result (AddsEach list.old.items list.new.items (x ∷ []) 1) }
{
    if is_listed(list, places, x) {
        return Ok(());
    }
    note(places, x, list.len());
    list.push(x)?;
    Ok(())
}

/// Adds some numbers.
#[tactic(auto, using(crate::proofs::Gathering::nothing, crate::proofs::Adding::next_added))]
fn push_all(list: &mut Vec<u32>, places: &mut Vec<u32>, numbers: &[u32]) -> Result<(), NoMemory>
    ensures list { OnOk result (AddsEach list.old.items list.new.items numbers.now (length numbers.now)) }
{
    for number in numbers {
        push_new(list, places, *number)?;
    }
    Ok(())
}

/// The set of a class, as far as it is there.
pub(crate) fn keys_at(sets: &Table<Option<NumberSet>>, class: u32) -> &[u32]
    ensures { result.now ≡ keys_in_sets sets.now class }
{
    match sets.find(class as usize) {
        Some(Some(set)) => set.as_slice(),
        _ => &[],
    }
}

/// Adds a class, if it is an interface.
#[tactic(auto, using(crate::proofs::Gathering::interface_added, crate::proofs::Gathering::class_passed))]
fn push_interface(
    list: &mut Vec<u32>,
    places: &mut Vec<u32>,
    abc: &Abc,
    class: u32,
) -> Result<(), NoMemory>
    ensures list { OnOk result (AddsNumbers list.old.items list.new.items
        (if is_interface_class abc.now class then class ∷ [] else [])) }
{
    if !is_interface(abc, class) {
        return Ok(());
    }
    push_new(list, places, class)
}

/// Adds what a class has of one that it leads to.
#[tactic(auto, using(crate::proofs::Gathering::given_added))]
fn push_given(
    list: &mut Vec<u32>,
    places: &mut Vec<u32>,
    abc: &Abc,
    sets: &Table<Option<NumberSet>>,
    class: u32,
) -> Result<(), NoMemory>
    ensures list { OnOk result
        (AddsNumbers list.old.items list.new.items (interfaces_given_by abc.now sets.now class)) }
{
    push_interface(list, places, abc, class)?;
    push_all(list, places, keys_at(sets, class))?;
    Ok(())
}

/// What a class has of all that it leads to.
#[tactic(auto, using(crate::proofs::Gathering::none_gathered, crate::proofs::Gathering::next_gathered))]
pub(crate) fn given(
    alloc: Global,
    abc: &Abc,
    sets: &Table<Option<NumberSet>>,
    places: &mut Vec<u32>,
    classes: &[u32],
) -> Result<Vec<u32>, NoMemory>
    ensures { IfOk result
        (λ list. GathersInterfaces abc.now sets.now classes.now list.items (length classes.now)) }
{
    let mut list = Vec::new(alloc);
    for class in classes {
        push_given(&mut list, places, abc, sets, *class)?;
    }
    Ok(list)
}
