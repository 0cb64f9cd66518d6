ghost use Rattle.std.specs.Prelude.{◌≡◌, IfOk, Some, map, not, set, slice_get};
ghost use Rattle.abc_link_names.specs.declared.types.Kind.TheVariants as kinds;
ghost use Rattle.abc_verify_typing.specs.Instructions.{local, second_local};
ghost use Rattle.abc_verify_typing.specs.Table.{sources};
ghost use Rattle.abc_verify_typing.specs.declared.row.RowKind.TheVariants as rows;
ghost use Rattle.abc_verify_flow.specs.Handled.{IsCoverAt};
ghost use Rattle.abc_verify_flow.specs.Walking.{IsTriedAt};
ghost use Rattle.abc_verify_flow.specs.declared.step.Written.TheVariants as writes;
ghost use Rattle.abc_verify_typing.specs.Effects.{kind_of_row, goes_on_after, is_null_kind as is_null_by, kind_of_source, locals_after, needs as needs_of, state_behind as next_state, stack_below};
ghost use Rattle.abc_verify_states.specs.Frames.{routine_of_frame};
ghost use Rattle.abc_verify.specs.Asking.{IsAsked};
ghost use Rattle.abc_verify.specs.Visits.{IsTried, given_kinds, here_in, leads_away as leads_away_by, leads_on as leads_on_by, step_by, written_by};

use crate::changes::{Given, change_scopes, change_stack, set_kind};
use crate::visit::{Asked, Visit};
use abc_base::{NoMemory, Table};
use abc_file_types::Instr;
use abc_link::Linked;
use abc_link_names::Kind;
use abc_verify_flow::{Cover, Step, Trial, Written};
use abc_verify_states::{Frame, fixed_kind};
use abc_verify_typing::{
    Gives, Leads, Locals, RowKind, State, VerifyRule, local_of, opcode_of, row_of, second_of,
};

/// Whether a kind is null's alone.
fn is_null(kind: Kind) -> bool
    ensures { result ≡ is_null_by kind }
{
    match kind {
        Kind::Null => true,
        _ => false,
    }
}

/// Whether the next place follows.
fn leads_on(leads: Leads) -> bool
    ensures { result ≡ leads_on_by leads }
{
    match leads {
        Leads::Next => true,
        Leads::Branches => true,
        Leads::Jumps => false,
        Leads::Switches => false,
        Leads::Ends => false,
    }
}

/// Whether the places that an instruction names follow.
fn leads_away(leads: Leads) -> bool
    ensures { result ≡ leads_away_by leads }
{
    match leads {
        Leads::Next => false,
        Leads::Branches => true,
        Leads::Jumps => true,
        Leads::Switches => true,
        Leads::Ends => false,
    }
}

/// Where an instruction leads, if it goes on at all.
fn step_of(goes: bool, leads: Leads, written: Written) -> Step
    ensures { result ≡ step_by goes leads written }
{
    let on = leads_on(leads);
    let away = leads_away(leads);
    Step {
        next: goes && on,
        jumps: goes && away,
        written,
    }
}

impl Visit<'_> {
    /// The kinds that are pushed.
    #[inline]
    fn given(&self, asked: &Asked, state: &State) -> Given
        requires { IsAsked (here_in self.now) asked.now }
        ensures { given_kinds result
            ≡ map (kind_of_source (here_in self.now) state.now) (sources self.now.row.gives) }
    {
        match self.row.gives {
            Gives::Nothing => Given::Nothing,
            Gives::One(a) => Given::One(self.kind_of(asked, state, a)),
            Gives::Two(a, b) => Given::Two(
                self.kind_found(asked, state, a),
                self.kind_found(asked, state, b),
            ),
        }
    }

    /// Makes two locals an object that is walked over and an index, and says which.
    #[inline(never)]
    fn walk_over(&self, locals: &mut Table<Kind>) -> Written
        ensures locals { locals.new
            ≡ set (set locals.old (local self.now.instr.now) (kind_of_row self.now.linked.now rows.Object))
            (second_local self.now.instr.now) kinds.Num }
        ensures written { result ≡ writes.Two (local self.now.instr.now) (second_local self.now.instr.now) }
    {
        let first = local_of(self.instr);
        let second = second_of(self.instr);
        set_kind(locals, first, fixed_kind(self.linked, RowKind::Object));
        set_kind(locals, second, Kind::Num);
        Written::Two(first, second)
    }

    /// Changes the locals, and says which.
    #[inline]
    fn change_locals(&self, asked: &Asked, state: &mut State) -> Written
        requires { IsAsked (here_in self.now) asked.now }
        ensures locals { state.new
            ≡ record {
              stack = state.old.stack;
              scopes = state.old.scopes;
              locals = locals_after (here_in self.now) state.old self.now.row.locals;
            } }
        ensures written { result ≡ written_by self.now.instr.now self.now.row.locals }
    {
        match self.row.locals {
            Locals::Untouched => Written::Nothing,
            Locals::Reads => Written::Nothing,
            Locals::Sets(source) => {
                let kind = self.kind_of(asked, state, source);
                let place = local_of(self.instr);
                set_kind(&mut state.locals, place, kind);
                Written::One(place)
            }
            Locals::Walks => self.walk_over(&mut state.locals),
        }
    }

    /// Whether anything follows: nothing does where the value that has to have a slot is null.
    #[inline]
    fn goes_on(&self, asked: &Asked, state: &State) -> bool
        requires { IsAsked (here_in self.now) asked.now }
        ensures { result
            ≡ goes_on_after (needs_of (here_in self.now)) (stack_below (here_in self.now) state.now) }
    {
        !is_null(self.receiver(asked, state))
    }

    /// Does the instruction to a state. Every kind is of the state before.
    #[tactic(auto, using(crate::proofs::Stepping::next_is))]
    fn step(&self, asked: &Asked, state: &mut State) -> Result<Step, NoMemory>
        requires { IsAsked (here_in self.now) asked.now }
        ensures next { IfOk result (λ w. state.new ≡ next_state (here_in self.now) state.old) }
        ensures leads { IfOk result (λ w. w
            ≡ step_by
            (goes_on_after (needs_of (here_in self.now)) (stack_below (here_in self.now) state.old))
            self.now.row.leads (written_by self.now.instr.now self.now.row.locals)) }
    {
        let goes = self.goes_on(asked, state);
        let given = self.given(asked, state);
        let written = self.change_locals(asked, state);
        change_scopes(
            self.linked,
            &mut state.scopes,
            self.row.scoping,
            &state.stack,
            asked.args,
        )?;
        change_stack(&mut state.stack, asked.depth, given)?;
        Ok(step_of(goes, self.row.leads, written))
    }
}

impl Visit<'_> {
    /// Does the instruction to a state, if that breaks no rule.
    fn advance(&self, state: &mut State, cover: Cover) -> Result<Trial, NoMemory>
        requires { IsCoverAt (routine_of_frame self.now.frame.now) self.now.place cover }
        ensures { IfOk result (IsTried (here_in self.now) state.old state.new) }
    {
        let asked = self.asked();
        match self.broken(&asked, state, cover) {
            Some(rule) => Ok(Trial::Breaks(rule)),
            None => {
                let step = self.step(&asked, state)?;
                Ok(Trial::Steps(step))
            }
        }
    }
}

/// Does an instruction to a state, if that breaks no rule.
#[tactic(auto, using(crate::proofs::Stepping::not_run))]
fn advance_in(
    linked: &Linked,
    frame: &Frame<'_>,
    place: u32,
    instr: &Instr,
    state: &mut State,
    cover: Cover,
) -> Result<Trial, NoMemory>
    requires here { slice_get frame.now.code.now place ≡ Some instr.now }
    requires cover { IsCoverAt (routine_of_frame frame.now) place cover }
    ensures { IfOk result (IsTriedAt linked.now (routine_of_frame frame.now) place state.old state.new) }
{
    match row_of(opcode_of(instr)) {
        Some(row) => {
            let visit = Visit {
                linked,
                frame,
                place,
                instr,
                row,
            };
            let trial = visit.advance(state, cover)?;
            Ok(trial)
        }
        None => Ok(Trial::Breaks(VerifyRule::NotRun)),
    }
}

/// Does the instruction at a place to a state, if that breaks no rule there, where this is what the rules ask of the handlers
/// that cover the place. What follows is where the step leads, with the state as it is then. Where memory runs out the
/// state is of no use.
#[tactic(auto, using(crate::proofs::Stepping::no_place))]
pub fn advance_at(
    linked: &Linked,
    frame: &Frame<'_>,
    place: u32,
    state: &mut State,
    cover: Cover,
) -> Result<Trial, NoMemory>
    requires { IsCoverAt (routine_of_frame frame.now) place cover }
    ensures { IfOk result (IsTriedAt linked.now (routine_of_frame frame.now) place state.old state.new) }
{
    match frame.code.find(place as usize) {
        Some(instr) => {
            let trial = advance_in(linked, frame, place, instr, state, cover)?;
            Ok(trial)
        }
        None => Ok(Trial::Breaks(VerifyRule::OffEnd)),
    }
}
