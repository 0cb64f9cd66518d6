ghost use Rattle.std.specs.Prelude.{◌≡◌, ◌++◌, ◌∷◌, [], List, ℕ, filter, map, IfOk, OnOk};
ghost use Rattle.abc_base_trees.specs.Hung.{AreHung};
ghost use Rattle.abc_verify_typing.specs.Effects.{covers};
ghost use Rattle.abc_verify_typing.specs.declared.catch.Catch.{Catch as AnyCatch};
ghost use Rattle.abc_verify_flow.specs.Handled.{IsCover};
ghost use Rattle.abc_verify_flow.specs.Telling.{IsHandled, leads_beyond, range_of};

use abc_base::{NoMemory, Table};
use abc_base_trees::{Range, Stabs, stabs_of};
use abc_verify_typing::Catch;
use std::alloc::Global;

/// What the rules ask of the handlers that cover a place. It is found once a walk, since the same handlers cover all its places.
#[derive(Clone, Copy, Debug)]
pub struct Cover {
    /// Whether there are none.
    pub is_empty: bool,
    /// Whether all lead to places before the code's end.
    pub is_inside: bool,
}

/// The handlers of a method, as ranges that hang in trees.
#[derive(Debug, Drop)]
pub(crate) struct Handled {
    /// All of them.
    pub all: Stabs,
    /// Those that don't lead to places before the code's end.
    pub beyond: Stabs,
}

/// The places that a handler covers.
fn range_of(handler: &Catch) -> Range
    ensures { result ≡ range_of handler.now }
{
    Range {
        from: handler.from,
        to: handler.to,
    }
}

/// The places that each handler covers.
#[tactic(auto, using(crate::proofs::Ranges::next_range))]
fn ranges_of(alloc: Global, handlers: &[Catch]) -> Result<Table<Range>, NoMemory>
    ensures { IfOk result (λ t. t ≡ map range_of handlers.now) }
{
    let mut ranges = Table::new(alloc);
    for handler in handlers {
        ranges.push(range_of(handler))?;
    }
    Ok(ranges)
}

/// Adds the places that a handler covers, if it doesn't lead to a place before the code's end.
#[tactic(auto, using(crate::proofs::Ranges::is_beyond, crate::proofs::Ranges::not_beyond))]
fn add_beyond(ranges: &mut Table<Range>, handler: &Catch, end: usize) -> Result<(), NoMemory>
    ensures { OnOk result
        (ranges.new ≡ ranges.old ++ map range_of (filter (leads_beyond end) (handler.now ∷ []))) }
{
    if (handler.target as usize) >= end {
        ranges.push(range_of(handler))?;
    }
    Ok(())
}

/// The places that each handler covers that doesn't lead to a place before the code's end.
#[tactic(auto, using(crate::proofs::Ranges::next_beyond))]
fn ranges_beyond(alloc: Global, handlers: &[Catch], end: usize) -> Result<Table<Range>, NoMemory>
    ensures { IfOk result (λ t. t ≡ map range_of (filter (leads_beyond end) handlers.now)) }
{
    let mut ranges = Table::new(alloc);
    for handler in handlers {
        add_beyond(&mut ranges, handler, end)?;
    }
    Ok(ranges)
}

/// A tree of all handlers.
fn tree_of(alloc: Global, handlers: &[Catch]) -> Result<Stabs, NoMemory>
    ensures { IfOk result (AreHung (map range_of handlers.now)) }
{
    let places = ranges_of(alloc, handlers)?;
    stabs_of(alloc, places.as_slice())
}

/// A tree of the handlers that don't lead to a place before the code's end.
fn tree_beyond(alloc: Global, handlers: &[Catch], end: usize) -> Result<Stabs, NoMemory>
    ensures { IfOk result (AreHung (map range_of (filter (leads_beyond end) handlers.now))) }
{
    let places = ranges_beyond(alloc, handlers, end)?;
    stabs_of(alloc, places.as_slice())
}

/// The handlers of a method whose code ends there.
pub(crate) fn handled_of(alloc: Global, handlers: &[Catch], end: usize) -> Result<Handled, NoMemory>
    ensures { IfOk result (IsHandled handlers.now end) }
{
    let all = tree_of(alloc, handlers)?;
    let beyond = tree_beyond(alloc, handlers, end)?;
    Ok(Handled { all, beyond })
}

/// What the rules ask of the handlers that cover a place.
#[tactic(auto, using(crate::proofs::Covered::cover_is))]
pub(crate) fn cover_at(handled: &Handled, place: u32) -> Cover
    ensures { (hs : List AnyCatch) (end : ℕ) → IsHandled hs end handled.now
        → IsCover (filter (covers place) hs) end result }
{
    Cover {
        is_empty: handled.all.is_free(place),
        is_inside: handled.beyond.is_free(place),
    }
}
