ghost use Rattle.std.specs.Prelude.{◌≡◌, ◌<◌, ◌^◌, length, map, IfOk, OnOk};
ghost use Rattle.abc_base_graphs.specs.Index.{first};
ghost use Rattle.abc_link_names.specs.Owners.{body_of, owner_at as owner_at_of, owner_of};
ghost use Rattle.abc_link_names.specs.Methods.{methods_with_bodies as all_with_bodies};
ghost use Rattle.abc_link_layouts.specs.Owning.{AreOwners, HasFirstOwners, PutsOwner, ReachesKey};

use crate::namings::namings;
use abc_base::{NoMemory, Table};
use abc_file_types::Abc;
use abc_link_names::{Naming, Owner};
use std::alloc::Global;

/// Whose method each method is, and which body it has.
#[derive(Drop)]
pub struct Owners {
    pub(crate) namings: Table<Naming>,
    /// The first place where each method is named, up to the last method that is. Each call of a run asks for one.
    pub(crate) places: Table<Option<u32>>,
    /// The first body of each method, up to the last method that has one. Each step of a run asks for one.
    pub(crate) bodies: Table<Option<u32>>,
}

/// The methods that are named.
fn methods_of(alloc: Global, list: &[Naming]) -> Result<Vec<u32>, NoMemory>
    ensures { IfOk result (λ methods. methods.items ≡ map (λ n. n.method) list.now) }
{
    let mut methods = Vec::new(alloc);
    for naming in list {
        methods.push(naming.method)?;
    }
    Ok(methods)
}

/// The methods that have bodies.
fn methods_with_bodies(alloc: Global, abc: &Abc) -> Result<Vec<u32>, NoMemory>
    ensures { IfOk result (λ methods. methods.items ≡ all_with_bodies abc.now) }
{
    let mut list = Vec::new(alloc);
    for body in abc.bodies.as_slice() {
        list.push(body.method)?;
    }
    Ok(list)
}

/// Makes a table long enough for a number.
#[tactic(auto, using(crate::proofs::Firsts::pushed_none))]
fn reach(table: &mut Table<Option<u32>>, number: u32) -> Result<(), NoMemory>
    ensures { OnOk result (ReachesKey table.old table.new number) }
{
    for _place in table.len()..number as usize + 1 {
        table.push(None)?;
    }
    Ok(())
}

/// Puts a place at a number.
#[tactic(auto, using(crate::proofs::Firsts::put_at))]
fn put(table: &mut Table<Option<u32>>, number: u32, place: u32) -> Result<(), NoMemory>
    ensures { OnOk result (PutsOwner table.old table.new number place) }
{
    reach(table, number)?;
    table.set(number as usize, Some(place));
    Ok(())
}

/// The first place of each number. Of 2^32 numbers or more there is never room for the places.
#[tactic(auto, using(crate::proofs::Firsts::firsts_next))]
fn first_places(alloc: Global, methods: &[u32]) -> Result<Table<Option<u32>>, NoMemory>
    ensures { IfOk result (λ t. HasFirstOwners t methods.now) }
{
    if methods.len() > u32::MAX as usize {
        return Err(NoMemory);
    }
    let mut table = Table::new(alloc);
    for i in (0..methods.len()).rev() {
        put(&mut table, methods[i], i as u32)?;
    }
    Ok(table)
}

/// The first place where each method is named.
#[tactic(auto, using(crate::proofs::Firsts::firsts_in))]
fn places_of(alloc: Global, list: &[Naming]) -> Result<Table<Option<u32>>, NoMemory>
    ensures { IfOk result (λ t. HasFirstOwners t (map (λ n. n.method) list.now)) }
{
    let methods = methods_of(alloc, list)?;
    first_places(alloc, methods.as_slice())
}

/// The first body of each method.
#[tactic(auto, using(crate::proofs::Firsts::firsts_in))]
fn bodies_of(alloc: Global, abc: &Abc) -> Result<Table<Option<u32>>, NoMemory>
    ensures { IfOk result (λ t. HasFirstOwners t (all_with_bodies abc.now)) }
{
    let methods = methods_with_bodies(alloc, abc)?;
    first_places(alloc, methods.as_slice())
}

/// What a place of a list names as the owner, if there is one.
#[tactic(auto, using(abc_base::proofs::Past::past_end))]
fn owner_at(list: &Table<Naming>, place: Option<u32>) -> Owner
    ensures { result ≡ owner_at_of list.now place }
{
    match place {
        Some(place) => match list.fetch(place as usize) {
            Some(naming) => naming.owner,
            None => Owner::Free,
        },
        None => Owner::Free,
    }
}

impl Owners {
    /// The owners and bodies of a file's methods.
    pub fn new(alloc: Global, abc: &Abc) -> Result<Owners, NoMemory>
        ensures { IfOk result (λ o. AreOwners abc.now o) }
    {
        let namings = namings(alloc, abc)?;
        let places = places_of(alloc, namings.as_slice())?;
        let bodies = bodies_of(alloc, abc)?;
        Ok(Owners {
            namings,
            places,
            bodies,
        })
    }

    /// What names a method.
    #[inline(always)]
    #[tactic(auto, using(crate::proofs::Found::owner_found))]
    pub fn owner(&self, abc: &Abc, method: u32) -> Owner
        requires { AreOwners abc.now self.now }
        ensures { result ≡ owner_of abc.now method }
    {
        let _file = abc;
        owner_at(
            &self.namings,
            self.places.fetch(method as usize).unwrap_or(None),
        )
    }

    /// The body of a method, if it has one.
    #[tactic(auto, using(crate::proofs::Found::body_found))]
    pub fn body_of(&self, abc: &Abc, method: u32) -> Option<u32>
        requires { AreOwners abc.now self.now }
        ensures { result ≡ body_of abc.now method }
    {
        let _file = abc;
        self.bodies.fetch(method as usize).unwrap_or(None)
    }
}
