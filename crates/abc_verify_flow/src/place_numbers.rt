ghost use Rattle.std.specs.Prelude.{◌≡◌, ◌<◌, ◌≤◌, [], Some, length, replicate, set, slice_get, OnErr, OnOk};
ghost use Rattle.abc_verify_flow.specs.Numbering.{ReachesPlace};

use abc_base::{NoMemory, Table};
use std::alloc::Global;
use std::marker::Model;

/// A number for each of some places, which is 0 at first. Those behind the last place that got one take no memory: code
/// without branches has a million places, and one that gets a number. Contracts see the list of all.
#[derive(Drop)]
pub(crate) struct PlaceNumbers {
    /// The numbers up to the last place that got one.
    kept: Table<u32>,
    /// How many places there are.
    places: usize,
}

impl Model for PlaceNumbers {
    ghost use Rattle.std.specs.Prelude.{◌≤◌, List, ℕ, length};
    ghost use Rattle.abc_verify_flow.specs.Numbering.{with_zeros};

    ghost Value = { List ℕ };

    ghost view = { λ n. with_zeros n.places n.kept };

    ghost invariant = { λ n. length n.kept ≤ n.places };
}

/// Keeps the numbers up to a place, if they are not kept yet.
#[tactic(auto, using(crate::proofs::Numbering::reaches_already, crate::proofs::Numbering::reaches_more))]
fn reach(kept: &mut Table<u32>, place: usize, places: usize) -> Result<(), NoMemory>
    requires inside { place < places }
    requires within { length kept.old ≤ places }
    ensures ok { OnOk result (ReachesPlace place places kept.old kept.new) }
    ensures err { OnErr result (kept.new ≡ kept.old) }
{
    if place < kept.len() {
        return Ok(());
    }
    kept.resize(place + 1, 0)?;
    Ok(())
}

impl PlaceNumbers {
    /// No places. It takes no memory.
    #[tactic(auto, using(crate::proofs::Numbering::none_padded, crate::proofs::Numbering::none_within))]
    pub(crate) fn new(alloc: Global) -> PlaceNumbers
        ensures { result ≡ [] }
    {
        PlaceNumbers {
            kept: Table::new(alloc),
            places: 0,
        }
    }

    /// So many places, none of which has a number yet. The memory is used again.
    #[tactic(auto, using(crate::proofs::Numbering::none_padded, crate::proofs::Numbering::none_within))]
    pub(crate) fn renew(&mut self, places: usize)
        ensures { self.new ≡ replicate places 0 }
    {
        self.kept.truncate(0);
        self.places = places;
    }

    /// How many places there are.
    #[tactic(auto, using(crate::proofs::Numbering::all_places))]
    pub(crate) fn len(&self) -> usize
        ensures { result ≡ length self.now }
    {
        self.places
    }

    /// The number of a place.
    #[inline]
    pub(crate) fn at(&self, place: usize) -> u32
        requires { place < length self.now }
        ensures { slice_get self.now place ≡ Some result }
    {
        match self.kept.fetch(place) {
            Some(number) => number,
            None => 0,
        }
    }

    /// The number of a place, or `None` where there is no such place.
    #[tactic(auto, using(crate::proofs::Numbering::place_inside, crate::proofs::Numbering::read_past))]
    pub(crate) fn find(&self, place: usize) -> Option<u32>
        ensures { result ≡ slice_get self.now place }
    {
        if place >= self.places {
            return None;
        }
        Some(self.at(place))
    }

    /// A place gets a number. Where memory runs out all stays as it was.
    pub(crate) fn put(&mut self, place: usize, number: u32) -> Result<(), NoMemory>
        requires { place < length self.old }
        ensures ok { OnOk result (self.new ≡ set self.old place number) }
        ensures err { OnErr result (self.new ≡ self.old) }
    {
        let places = self.places;
        reach(&mut self.kept, place, places)?;
        self.kept.set(place, number);
        Ok(())
    }
}
