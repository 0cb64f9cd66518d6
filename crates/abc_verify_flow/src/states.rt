ghost use Rattle.std.specs.Prelude.{◌≡◌, ◌<◌, ◌+◌, [], Some, None, length, replicate, set, slice_get, IfOk, IsTrue, OnOk};
ghost use Rattle.abc_link_names.specs.Linked.{IsLinkedFile};
ghost use Rattle.abc_verify_typing.specs.Work.{at};
ghost use Rattle.abc_verify_flow.specs.Kept.{ArePlaceNumbers, IsBelowKnown, IsLoaded, IsKnownNumber, Meets, known_at, known_of_number};

use crate::copies::no_state;
use crate::flow::Flow;
use crate::kept::Kept;
use crate::place_numbers::PlaceNumbers;
use crate::step::{Merged, Met};
use abc_base::NoMemory;
use abc_verify_typing::State;
use std::alloc::Global;
use std::marker::Model;

/// The most operands, scopes, locals and blocks of locals that are kept of a method's states, all together, before one is added or
/// rises; locals that blocks share count once. Where there would be more, memory is said to have run out: a method of few bytes may
/// have many places that are led to, and so many locals at each that the states would fit into no memory.
pub const MOST_VALUES: usize = 1 << 23;

/// Where the states of a method have more values, the next one has no use of their memory.
const MANY_VALUES: usize = 1 << 16;

/// What is known at the places of a method. Few places have a state, and only these take more than four bytes.
#[derive(Drop)]
pub struct States {
    /// For each place 0, or one more than the number of its state.
    numbers: PlaceNumbers,
    /// The states by their numbers.
    known: Kept,
    /// What was known where a state came last, and what was joined of both. Their memory is used again.
    loaded: State,
    joined: State,
}

impl Model for States {
    ghost use Rattle.std.specs.Prelude.{List, Option, length};
    ghost use Rattle.abc_verify_typing.specs.declared.state.State.{State as AnyState};
    ghost use Rattle.abc_verify_flow.specs.Kept.{ArePlaceNumbers, known_at};

    ghost Value = { List (Option AnyState) };

    ghost view = { λ s. known_at s.numbers s.known };

    ghost invariant = { λ s. ArePlaceNumbers s.numbers (length s.known) };
}

/// The number of a state behind so many. Where there are too many, memory is said to have run out.
#[inline]
fn number_behind(count: usize) -> Result<u32, NoMemory>
    ensures { IfOk result (λ n. n ≡ count + 1) }
{
    if count >= u32::MAX as usize {
        return Err(NoMemory);
    }
    Ok(count as u32 + 1)
}

/// Copies the state of a number over another, and tells whether there is one: the first has the number 1.
#[tactic(auto, using(crate::proofs::Numbers::numbered_none, crate::proofs::Numbers::numbered_next))]
fn load_numbered(known: &Kept, number: u32, state: &mut State) -> Result<bool, NoMemory>
    ensures { IfOk result (IsKnownNumber known.now number state.new) }
{
    if number == 0 || number as usize > known.len() {
        return Ok(false);
    }
    known.load(number as usize - 1, state)?;
    Ok(true)
}

/// Whether a state is seen to be at most that of a number.
#[tactic(auto, using(crate::proofs::Numbers::numbered_next))]
fn is_above_numbered<F: Flow>(flow: &F, known: &Kept, number: u32, state: &State) -> bool
    requires { IsLinkedFile (F.file flow.now) }
    ensures { IsTrue result → IsBelowKnown (F.file flow.now) (known_of_number known.now number) state.now }
{
    if number == 0 || number as usize > known.len() {
        return false;
    }
    known.is_above(flow, number as usize - 1, state)
}

/// Forgets all states. Where they had many values their memory is given back.
fn forget(known: &mut Kept)
    ensures { known.new ≡ [] }
{
    if known.values() > MANY_VALUES {
        known.release();
    } else {
        known.clear();
    }
}

/// Whether there is room for more values of states. Where there is none, memory is said to have run out.
fn check_room(known: &Kept) -> Result<(), NoMemory> {
    if known.values() >= MOST_VALUES {
        return Err(NoMemory);
    }
    Ok(())
}

/// A place gets a state of its own, whatever it had before.
fn put_new(
    numbers: &mut PlaceNumbers,
    known: &mut Kept,
    place: usize,
    state: &State,
) -> Result<(), NoMemory>
    requires numbers { ArePlaceNumbers numbers.old (length known.old) }
    requires inside { place < length numbers.old }
    ensures numbers { ArePlaceNumbers numbers.new (length known.new) }
    ensures known { OnOk result
        (known_at numbers.new known.new ≡ set (known_at numbers.old known.old) place (Some state.now)) }
{
    check_room(known)?;
    let number = number_behind(known.len())?;
    known.push(state, numbers.len())?;
    numbers.put(place, number)?;
    Ok(())
}

/// A place that has the state of an index gets another. Mostly that has as many values, and takes its place; what was shared of its
/// locals then takes room of its own.
fn put_again(
    numbers: &mut PlaceNumbers,
    known: &mut Kept,
    place: usize,
    index: usize,
    state: &State,
) -> Result<(), NoMemory>
    requires numbers { ArePlaceNumbers numbers.old (length known.old) }
    requires has { slice_get numbers.old place ≡ Some (index + 1) }
    ensures numbers { ArePlaceNumbers numbers.new (length known.new) }
    ensures known { OnOk result
        (known_at numbers.new known.new ≡ set (known_at numbers.old known.old) place (Some state.now)) }
{
    check_room(known)?;
    if known.put(index, state)? {
        return Ok(());
    }
    put_new(numbers, known, place, state)
}

impl States {
    /// No places. It takes no memory.
    pub fn new(alloc: Global) -> States
        ensures { result ≡ [] }
    {
        States {
            numbers: PlaceNumbers::new(alloc),
            known: Kept::new(alloc),
            loaded: no_state(alloc),
            joined: no_state(alloc),
        }
    }

    /// Forgets all, for so many places.
    pub(crate) fn renew(&mut self, count: usize)
        ensures { self.new ≡ replicate count None }
    {
        self.numbers.renew(count);
        forget(&mut self.known);
    }

    /// Copies the state at a place over another, whose memory is used again, and tells whether one is known there.
    pub(crate) fn load(&self, place: u32, state: &mut State) -> Result<bool, NoMemory>
        ensures { IfOk result (IsLoaded self.now place state.new) }
    {
        match self.numbers.find(place as usize) {
            Some(number) => load_numbered(&self.known, number, state),
            None => Ok(false),
        }
    }

    /// Whether a state is seen to be at most what is known at a place.
    pub(crate) fn is_above<F: Flow>(&self, flow: &F, place: u32, state: &State) -> bool
        requires { IsLinkedFile (F.file flow.now) }
        ensures { IsTrue result → IsBelowKnown (F.file flow.now) (at self.now place) state.now }
    {
        match self.numbers.find(place as usize) {
            Some(number) => is_above_numbered(flow, &self.known, number, state),
            None => false,
        }
    }

    /// A place gets a copy of a state.
    #[tactic(auto, using(crate::proofs::Numbers::inside_numbers))]
    pub(crate) fn set(&mut self, place: u32, state: &State) -> Result<(), NoMemory>
        requires { place < length self.old }
        ensures { OnOk result (self.new ≡ set self.old place (Some state.now)) }
    {
        let place = place as usize;
        let number = self.numbers.at(place);
        if number == 0 {
            return put_new(&mut self.numbers, &mut self.known, place, state);
        }
        put_again(
            &mut self.numbers,
            &mut self.known,
            place,
            number as usize - 1,
            state,
        )
    }

    /// A state flows to a place.
    #[tactic(auto, using(crate::proofs::Numbers::inside_numbers))]
    pub(crate) fn meet<F: Flow>(
        &mut self,
        flow: &F,
        place: u32,
        next: &State,
    ) -> Result<Met, NoMemory>
        requires linked { IsLinkedFile (F.file flow.now) }
        requires inside { place < length self.old }
        ensures { IfOk result (Meets (F.file flow.now) self.old place next.now self.new) }
    {
        let place = place as usize;
        let number = self.numbers.at(place);
        if number == 0 {
            put_new(&mut self.numbers, &mut self.known, place, next)?;
            return Ok(Met::First);
        }
        let index = number as usize - 1;
        if self.known.is_above(flow, index, next) {
            return Ok(Met::Same);
        }
        self.known.load(index, &mut self.loaded)?;
        match flow.merge(&self.loaded, next, &mut self.joined)? {
            Merged::Same => Ok(Met::Same),
            Merged::Joined => {
                put_again(
                    &mut self.numbers,
                    &mut self.known,
                    place,
                    index,
                    &self.joined,
                )?;
                Ok(Met::Joined)
            }
            Merged::Unequal => Ok(Met::Unequal),
        }
    }
}
