use crate::rules::broken_early_at;
use crate::step::advance_at;
use abc_base::{NoMemory, Table};
use abc_file_types::Instr;
use abc_kinds::join;
use abc_link::Linked;
use abc_link_names::Kind;
use abc_verify_flow::{Cover, Flow, Merged, Trial};
use abc_verify_states::{Frame, entry_of, merge};
use abc_verify_typing::{Catch, State, VerifyRule};
use std::alloc::Global;

/// A method with its body, and the places where walks begin.
#[derive(Clone, Copy)]
pub(crate) struct Flowing<'a> {
    pub alloc: Global,
    pub linked: &'a Linked,
    pub frame: &'a Frame<'a>,
    pub heads: &'a Table<bool>,
}

impl Flow for Flowing<'_> {
    ghost use Rattle.abc_verify_states.specs.Frames.{routine_of_frame};

    ghost file = { λ f. f.linked.now };

    ghost routine = { λ f. routine_of_frame f.frame.now };

    ghost heads = { λ f. f.heads.now };

    fn alloc(&self) -> Global {
        self.alloc
    }

    fn len(&self) -> usize {
        self.frame.code.len()
    }

    fn instr(&self, place: u32) -> Option<&Instr> {
        self.frame.code.find(place as usize)
    }

    fn handlers(&self) -> &[Catch] {
        self.frame.handlers.as_slice()
    }

    fn is_head(&self, place: u32) -> bool {
        match self.heads.fetch(place as usize) {
            Some(is_head) => is_head,
            None => false,
        }
    }

    fn broken_early(&self, place: u32, state: &State) -> Option<VerifyRule> {
        broken_early_at(self.linked, self.frame, place, state)
    }

    fn advance(&self, place: u32, state: &mut State, cover: Cover) -> Result<Trial, NoMemory> {
        advance_at(self.linked, self.frame, place, state, cover)
    }

    fn entry(&self) -> Result<State, NoMemory> {
        entry_of(self.alloc, self.frame)
    }

    fn join(&self, a: Kind, b: Kind) -> Kind {
        join(self.linked, a, b)
    }

    fn merge(&self, old: &State, next: &State, joined: &mut State) -> Result<Merged, NoMemory> {
        merge(self.linked, old, next, joined)
    }
}
