ghost use Rattle.std.specs.Prelude.{◌≡◌, None, Some, get_or, length, replicate, set, IfOk, OnOk};
ghost use Rattle.abc_base_graphs.specs.Marks.{blank, mark_of_turn};

use abc_base::{NoMemory, Table};
use std::alloc::Global;
use std::marker::Model;

/// A number, and the turn in which it was written.
#[derive(Clone, Copy)]
struct Mark {
    turn: u32,
    number: u32,
}

/// A list of optional numbers that is wiped at once: only those count that were written in this turn. Contracts see it as
/// that list.
#[derive(Drop)]
pub struct Slate {
    marks: Table<Mark>,
    turn: u32,
}

impl Model for Slate {
    ghost use Rattle.std.specs.Prelude.{List, ℕ, map, All, ◌≤◌};
    ghost use Rattle.std.specs.declared.option.Option.{Option};
    ghost use Rattle.abc_base_graphs.specs.Marks.{mark_of_turn};

    ghost Value = { List (Option ℕ) };

    ghost view = { λ s. map (mark_of_turn s.turn) s.marks };

    ghost invariant = { λ s. All (λ m. m.turn ≤ s.turn) s.marks };
}

/// So many marks of turn 0.
#[tactic(auto, using(crate::proofs::Slated::resized))]
fn blank_marks(alloc: Global, count: usize) -> Result<Table<Mark>, NoMemory>
    ensures { IfOk result (λ t. t ≡ replicate count blank) }
{
    let mut marks = Table::new(alloc);
    marks.resize(count, Mark { turn: 0, number: 0 })?;
    Ok(marks)
}

/// Replaces the mark at a place, if there is one.
#[tactic(auto, using(std::proofs::lemmas::List::set_past))]
fn put(marks: &mut Table<Mark>, place: u32, mark: Mark)
    ensures { marks.new ≡ set marks.old place mark }
{
    if place as usize >= marks.len() {
        return;
    }
    marks.set(place as usize, mark);
}

/// The number of a mark, if it was written in a turn.
fn number_in(turn: u32, mark: Mark) -> Option<u32>
    ensures { result ≡ mark_of_turn turn mark }
{
    if mark.turn == turn {
        Some(mark.number)
    } else {
        None
    }
}

impl Slate {
    /// A slate with so many places.
    pub fn new(alloc: Global, count: usize) -> Result<Slate, NoMemory>
        ensures { IfOk result (λ s. length s ≡ count) }
    {
        let marks = blank_marks(alloc, count)?;
        Ok(Slate { marks, turn: 0 })
    }

    /// Wipes all places. After 2^32 turns memory is said to have run out.
    pub fn wipe(&mut self) -> Result<(), NoMemory>
        ensures { OnOk result (self.new ≡ replicate (length self.old) None) }
    {
        if self.turn == u32::MAX {
            return Err(NoMemory);
        }
        self.turn += 1;
        Ok(())
    }

    /// What stands at a place.
    #[tactic(auto, using(crate::proofs::Slated::seen, crate::proofs::Slated::unseen))]
    pub fn at(&self, place: u32) -> Option<u32>
        ensures { result ≡ get_or self.now place None }
    {
        match self.marks.fetch(place as usize) {
            Some(mark) => number_in(self.turn, mark),
            None => None,
        }
    }

    /// Writes a number at a place, if there is one.
    pub fn write(&mut self, place: u32, number: u32)
        ensures { self.new ≡ set self.old place (Some number) }
    {
        let turn = self.turn;
        put(&mut self.marks, place, Mark { turn, number });
    }
}
