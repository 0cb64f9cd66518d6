ghost use Rattle.std.specs.Prelude.{◌≡◌, [], MatchOption, OnOk};
ghost use Rattle.abc_verify_flow.specs.Waits.{IsPlaceAdded, IsLowestTaken};

use abc_base::NoMemory;
use std::alloc::Global;
use std::collections::BTreeSet;
use std::marker::Model;

/// The places that wait for a walk: those with a mark, which a place gets where its state is new or rises, and loses where it is
/// taken. The lowest is taken first, since mostly what leads to a place stands before it: so a place is walked from once it knows
/// all, and not anew for each state that flows to it.
#[derive(Drop)]
pub struct Waiting {
    marked: BTreeSet<u32>,
}

impl Model for Waiting {
    ghost use Rattle.std.specs.Prelude.{List, ℕ};

    ghost Value = { List ℕ };

    ghost view = { λ w. w.marked.keys };
}

impl Waiting {
    /// No places. It takes no memory.
    pub(crate) fn new(alloc: Global) -> Waiting
        ensures { result ≡ [] }
    {
        Waiting {
            marked: BTreeSet::new(alloc),
        }
    }

    /// Forgets all places.
    pub(crate) fn clear(&mut self)
        ensures { self.new ≡ [] }
    {
        self.marked.clear();
    }

    /// Marks a place. One that waits already goes on waiting.
    #[tactic(auto, using(crate::proofs::Waits::added))]
    pub(crate) fn add(&mut self, place: u32) -> Result<(), NoMemory>
        ensures { OnOk result (IsPlaceAdded place self.old self.new) }
    {
        self.marked.insert(place)?;
        Ok(())
    }

    /// Takes the lowest place and wipes its mark, or answers `None` where no place waits.
    #[tactic(auto, using(crate::proofs::Waits::popped))]
    pub(crate) fn pop(&mut self) -> Option<u32>
        ensures { MatchOption result (self.old ≡ []) (λ place. IsLowestTaken place self.old self.new) }
    {
        self.marked.pop_first()
    }
}
