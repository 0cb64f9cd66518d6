ghost use Rattle.std.specs.Prelude.{◌≡◌, ◌++◌, ◌∷◌, [], ◌+◌, ◌-◌, ◌&&◌, ◌||◌, leb, ltb, length};
ghost use Rattle.std.specs.Bool.{OnTrue};
ghost use Rattle.abc_verify_typing.specs.Instructions.{opcode, operand as operand_in};
ghost use Rattle.abc_verify_typing.specs.Rows.{row_at};
ghost use Rattle.abc_verify_typing.specs.Table.{sources};
ghost use Rattle.abc_verify_flow.specs.Handled.{IsCoverAt};
ghost use Rattle.abc_verify_typing.specs.Rules.{at_row, broken_early, early_rules, first_broken, has_form, has_locals, is_here, is_walked, keeps, late_rules, names_scope};
ghost use Rattle.abc_verify_typing.specs.declared.rule.VerifyRule.TheVariants as variants;
ghost use Rattle.abc_verify_states.specs.Frames.{routine_of_frame};
ghost use Rattle.abc_verify.specs.Asking.{AreRulesKept, IsAsked};
ghost use Rattle.abc_verify.specs.Visits.{here_in};

use crate::kinds::kind_at;
use crate::tables::cover_at;
use crate::visit::{Asked, Visit};
use abc_file_types::Instr;
use abc_link::Linked;
use abc_verify_flow::Cover;
use abc_verify_states::{
    Frame, has_good_form, has_good_locals, is_number_kind, layout_of_super, pops_well, pushes_well,
};
use abc_verify_typing::{
    Gives, Locals, Operand, Site, State, VerifyRule, opcode_of, row_of, second_of,
};

/// The rules before Merge.
const EARLY: [VerifyRule; 8] = [
    VerifyRule::PoolIndex,
    VerifyRule::NameForm,
    VerifyRule::StackUnder,
    VerifyRule::StackOver,
    VerifyRule::ScopeUnder,
    VerifyRule::ScopeOver,
    VerifyRule::LocalIndex,
    VerifyRule::OffEnd,
];

/// All rules but Merge.
const RULES: [VerifyRule; 16] = [
    VerifyRule::PoolIndex,
    VerifyRule::NameForm,
    VerifyRule::StackUnder,
    VerifyRule::StackOver,
    VerifyRule::ScopeUnder,
    VerifyRule::ScopeOver,
    VerifyRule::LocalIndex,
    VerifyRule::OffEnd,
    VerifyRule::NotSpace,
    VerifyRule::NotObject,
    VerifyRule::SlotIndex,
    VerifyRule::ScopeIndex,
    VerifyRule::NotHere,
    VerifyRule::NotIndex,
    VerifyRule::Parameters,
    VerifyRule::Flags,
];

/// Whether two counts are within a size, together.
fn fits(kept: usize, more: usize, size: usize) -> bool
    ensures { result ≡ leb (kept + more) size }
{
    more <= size && kept <= size - more
}

/// How many values are pushed.
fn gives_count(gives: Gives) -> usize
    ensures { result ≡ length (sources gives) }
{
    match gives {
        Gives::Nothing => 0,
        Gives::One(_) => 1,
        Gives::Two(_, _) => 2,
    }
}

impl Visit<'_> {
    /// Whether what is named has a form that the instruction takes.
    #[inline]
    fn has_form(&self) -> bool
        ensures { result ≡ has_form self.now.linked.now self.now.row.operand (operand_in self.now.instr.now) }
    {
        match self.row.operand {
            Operand::Unnamed => true,
            _ => has_good_form(self.linked, self.row.operand, self.operand()),
        }
    }

    /// Whether the locals that the instruction names are there.
    #[inline]
    fn has_locals(&self) -> bool
        ensures { result
            ≡ has_locals self.now.row.locals self.now.instr.now
            (routine_of_frame self.now.frame.now).local_count }
    {
        match self.row.locals {
            Locals::Untouched => true,
            _ => has_good_locals(self.row.locals, self.instr, self.frame.local_count),
        }
    }

    /// Whether the instruction may stand in the method.
    #[inline]
    fn stands_here(&self) -> bool
        ensures { result ≡ is_here (routine_of_frame self.now.frame.now) self.now.row.site }
    {
        match self.row.site {
            Site::Anywhere => true,
            _ => self.may_stand_here(),
        }
    }

    /// Whether the instruction may stand in the method, mostly where it may not in each.
    #[inline(never)]
    fn may_stand_here(&self) -> bool
        ensures { result ≡ is_here (routine_of_frame self.now.frame.now) self.now.row.site }
    {
        match self.row.site {
            Site::Anywhere => true,
            Site::WithActivation => self.frame.needs_activation,
            Site::OnInstance => layout_of_super(Site::OnInstance, self.frame.home).is_some(),
            Site::InMaker => layout_of_super(Site::InMaker, self.frame.home).is_some(),
        }
    }

    /// Whether the local that is an index holds a number.
    #[inline]
    fn walks_well(&self, state: &State) -> bool
        ensures { result ≡ is_walked (here_in self.now) state.now self.now.row.locals }
    {
        match self.row.locals {
            Locals::Walks => is_number_kind(kind_at(&state.locals, second_of(self.instr))),
            Locals::Untouched => true,
            Locals::Reads => true,
            Locals::Sets(_) => true,
        }
    }

    /// Whether the scope that is named is there.
    fn names_scope(&self, state: &State) -> bool
        ensures { result ≡ names_scope (here_in self.now) state.now self.now.row.operand }
    {
        match self.row.operand {
            Operand::ScopeAt => (self.operand() as usize) < state.scopes.len(),
            _ => true,
        }
    }

    /// Whether the stack keeps to its size, with a value that is caught.
    fn fits_stack(&self, asked: &Asked, state: &State, cover: Cover) -> bool
        requires asked { IsAsked (here_in self.now) asked.now }
        requires cover { IsCoverAt (routine_of_frame self.now.frame.now) self.now.place cover }
        ensures { result ≡ keeps (here_in self.now) state.now variants.StackOver }
    {
        let size = self.frame.max_stack as usize;
        let kept = state.stack.len().saturating_sub(asked.depth);
        fits(kept, gives_count(self.row.gives), size) && (size > 0 || cover.is_empty)
    }

    /// Whether a state keeps a rule.
    #[inline(always)]
    fn keeps(&self, asked: &Asked, state: &State, cover: Cover, rule: VerifyRule) -> bool
        requires asked { IsAsked (here_in self.now) asked.now }
        requires cover { IsCoverAt (routine_of_frame self.now.frame.now) self.now.place cover }
        ensures { result ≡ keeps (here_in self.now) state.now rule }
    {
        let frame = self.frame;
        match rule {
            VerifyRule::PoolIndex => self.is_in_table(),
            VerifyRule::NameForm => self.has_form(),
            VerifyRule::StackUnder => asked.depth <= state.stack.len(),
            VerifyRule::StackOver => self.fits_stack(asked, state, cover),
            VerifyRule::ScopeUnder => pops_well(self.row.scoping, state.scopes.len()),
            VerifyRule::ScopeOver => {
                pushes_well(
                    self.row.scoping,
                    state.scopes.len(),
                    frame.scope_size as usize,
                )
            }
            VerifyRule::LocalIndex => self.has_locals(),
            VerifyRule::OffEnd => self.leads_inside() && cover.is_inside,
            VerifyRule::NotSpace => self.all_suit(asked, VerifyRule::NotSpace, state),
            VerifyRule::NotObject => self.all_suit(asked, VerifyRule::NotObject, state),
            VerifyRule::SlotIndex => self.all_suit(asked, VerifyRule::SlotIndex, state),
            VerifyRule::ScopeIndex => self.names_scope(state),
            VerifyRule::NotHere => self.stands_here(),
            VerifyRule::NotIndex => {
                self.all_suit(asked, VerifyRule::NotIndex, state) && self.walks_well(state)
            }
            VerifyRule::Parameters => {
                self.place > 0 || frame.filled.len() <= frame.local_count as usize
            }
            VerifyRule::Flags => self.place > 0 || !frame.unsupported,
            VerifyRule::NotRun => true,
            VerifyRule::Merge => true,
        }
    }

    /// Whether two rules are kept.
    #[inline(always)]
    #[tactic(auto, using(crate::proofs::Kept::two_kept))]
    fn keeps_two(
        &self,
        asked: &Asked,
        state: &State,
        cover: Cover,
        first: VerifyRule,
        second: VerifyRule,
    ) -> bool
        requires asked { IsAsked (here_in self.now) asked.now }
        requires cover { IsCoverAt (routine_of_frame self.now.frame.now) self.now.place cover }
        ensures { OnTrue result (AreRulesKept (here_in self.now) state.now (first ∷ second ∷ [])) }
    {
        self.keeps(asked, state, cover, first) && self.keeps(asked, state, cover, second)
    }

    /// Whether the rules before Merge are kept.
    #[tactic(auto, using(crate::proofs::Kept::four_kept))]
    fn keeps_early(&self, asked: &Asked, state: &State, cover: Cover) -> bool
        requires asked { IsAsked (here_in self.now) asked.now }
        requires cover { IsCoverAt (routine_of_frame self.now.frame.now) self.now.place cover }
        ensures { OnTrue result (AreRulesKept (here_in self.now) state.now early_rules) }
    {
        self.keeps_two(
            asked,
            state,
            cover,
            VerifyRule::PoolIndex,
            VerifyRule::NameForm,
        ) && self.keeps_two(
            asked,
            state,
            cover,
            VerifyRule::StackUnder,
            VerifyRule::StackOver,
        ) && self.keeps_two(
            asked,
            state,
            cover,
            VerifyRule::ScopeUnder,
            VerifyRule::ScopeOver,
        ) && self.keeps_two(
            asked,
            state,
            cover,
            VerifyRule::LocalIndex,
            VerifyRule::OffEnd,
        )
    }

    /// Whether the rules after Merge are kept.
    #[tactic(auto, using(crate::proofs::Kept::four_kept))]
    fn keeps_late(&self, asked: &Asked, state: &State, cover: Cover) -> bool
        requires asked { IsAsked (here_in self.now) asked.now }
        requires cover { IsCoverAt (routine_of_frame self.now.frame.now) self.now.place cover }
        ensures { OnTrue result (AreRulesKept (here_in self.now) state.now late_rules) }
    {
        self.keeps_two(
            asked,
            state,
            cover,
            VerifyRule::NotSpace,
            VerifyRule::NotObject,
        ) && self.keeps_two(
            asked,
            state,
            cover,
            VerifyRule::SlotIndex,
            VerifyRule::ScopeIndex,
        ) && self.keeps_two(
            asked,
            state,
            cover,
            VerifyRule::NotHere,
            VerifyRule::NotIndex,
        ) && self.keeps_two(
            asked,
            state,
            cover,
            VerifyRule::Parameters,
            VerifyRule::Flags,
        )
    }

    /// Whether all rules are kept. It is asked first: which rule is broken is told by going over them once more.
    #[tactic(auto, using(crate::proofs::Kept::all_kept))]
    fn keeps_all(&self, asked: &Asked, state: &State, cover: Cover) -> bool
        requires asked { IsAsked (here_in self.now) asked.now }
        requires cover { IsCoverAt (routine_of_frame self.now.frame.now) self.now.place cover }
        ensures { OnTrue result (AreRulesKept (here_in self.now) state.now (early_rules ++ late_rules)) }
    {
        self.keeps_early(asked, state, cover) && self.keeps_late(asked, state, cover)
    }

    /// The first of some rules that a state breaks.
    #[cold]
    #[inline(never)]
    #[tactic(auto, using(crate::proofs::Loops::rule_next, crate::proofs::Loops::rule_stops))]
    fn first_broken(
        &self,
        asked: &Asked,
        state: &State,
        cover: Cover,
        rules: &[VerifyRule],
    ) -> Option<VerifyRule>
        requires asked { IsAsked (here_in self.now) asked.now }
        requires cover { IsCoverAt (routine_of_frame self.now.frame.now) self.now.place cover }
        ensures { result ≡ first_broken (keeps (here_in self.now) state.now) rules.now }
    {
        for rule in rules {
            if !self.keeps(asked, state, cover, *rule) {
                return Some(*rule);
            }
        }
        None
    }

    /// The first rule that a state breaks, Merge left out.
    #[tactic(auto, using(crate::proofs::Kept::none_broken))]
    pub(crate) fn broken(&self, asked: &Asked, state: &State, cover: Cover) -> Option<VerifyRule>
        requires asked { IsAsked (here_in self.now) asked.now }
        requires cover { IsCoverAt (routine_of_frame self.now.frame.now) self.now.place cover }
        ensures { result ≡ first_broken (keeps (here_in self.now) state.now) (early_rules ++ late_rules) }
    {
        if self.keeps_all(asked, state, cover) {
            return None;
        }
        self.first_broken(asked, state, cover, &RULES)
    }
}

/// The first rule before Merge that a state breaks at an instruction.
fn broken_early_in(
    linked: &Linked,
    frame: &Frame<'_>,
    place: u32,
    instr: &Instr,
    state: &State,
) -> Option<VerifyRule>
    ensures { result
        ≡ at_row linked.now (routine_of_frame frame.now) place instr.now early_rules state.now
        (row_at (opcode instr.now)) }
{
    match row_of(opcode_of(instr)) {
        Some(row) => {
            let visit = Visit {
                linked,
                frame,
                place,
                instr,
                row,
            };
            visit.first_broken(&visit.asked(), state, cover_at(frame, place), &EARLY)
        }
        None => Some(VerifyRule::NotRun),
    }
}

/// The first rule before Merge that a state breaks at a place.
pub fn broken_early_at(
    linked: &Linked,
    frame: &Frame<'_>,
    place: u32,
    state: &State,
) -> Option<VerifyRule>
    ensures { result ≡ broken_early linked.now (routine_of_frame frame.now) place state.now }
{
    match frame.code.find(place as usize) {
        Some(instr) => broken_early_in(linked, frame, place, instr, state),
        None => Some(VerifyRule::OffEnd),
    }
}
