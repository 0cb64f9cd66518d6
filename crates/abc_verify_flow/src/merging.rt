ghost use Rattle.std.specs.Prelude.{◌≡◌, ◌∷◌, ◌<◌, [], Some, length, set, map, MatchResult};
ghost use Rattle.abc_link_names.specs.Linked.{IsLinkedFile};
ghost use Rattle.abc_verify_typing.specs.Instructions.{targets};
ghost use Rattle.abc_verify_typing.specs.Typing.{Derivable, HasOneShape, Refutes};
ghost use Rattle.abc_verify_flow.specs.Kept.{Clashes};
ghost use Rattle.abc_verify_flow.specs.Waits.{IsPlaceAdded};
ghost use Rattle.abc_verify_flow.specs.Walking.{AllReach, AreEntriesReady, IsTableOpen, IsStateReady, RefusedBy, landing, targets_at};
ghost use Rattle.abc_verify_flow.specs.declared.step.Refusal.TheVariants as refusals;

use crate::copies::no_state;
use crate::flow::Flow;
use crate::states::States;
use crate::step::{Met, Refusal};
use crate::waiting::Waiting;
use abc_file_types::Instr;
use abc_verify_typing::{State, VerifyRule};

/// A place gets a copy of a state, and work.
pub(crate) fn raise(
    states: &mut States,
    work: &mut Waiting,
    place: u32,
    state: &State,
) -> Result<(), Refusal>
    requires { place < length states.old }
    ensures { MatchResult result
        (λ _. (states.new ≡ set states.old place (Some state.now)) × IsPlaceAdded place work.old work.new)
        (λ e. e ≡ refusals.NoMemory) }
{
    states.set(place, state)?;
    work.add(place)?;
    Ok(())
}

/// Two states of unequal shapes meet: the rule that the first breaks, or Merge.
#[tactic(auto, using(crate::proofs::Places::clash_broken, crate::proofs::Places::clash_merge))]
fn refuse<F: Flow>(flow: &F, place: u32, old: &State, next: &State) -> VerifyRule
    requires old_derived { Derivable (F.file flow.now) (F.routine flow.now) place old.now }
    requires next_derived { Derivable (F.file flow.now) (F.routine flow.now) place next.now }
    requires unequal { HasOneShape old.now next.now → ⊥ }
    ensures { Refutes (F.file flow.now) (F.routine flow.now) place result }
{
    match flow.broken_early(place, old) {
        Some(rule) => rule,
        None => VerifyRule::Merge,
    }
}

/// Two states of unequal shapes meet at a place: why no typing is found there.
#[cold]
#[inline(never)]
fn refused<F: Flow>(flow: &F, states: &States, place: u32, next: &State) -> Refusal
    requires derived { Derivable (F.file flow.now) (F.routine flow.now) place next.now }
    requires unequal { Clashes (F.file flow.now) (F.routine flow.now) states.now place next.now }
    ensures { RefusedBy (F.file flow.now) (F.routine flow.now) result }
{
    let mut old = no_state(flow.alloc());
    match states.load(place, &mut old) {
        Ok(true) => Refusal::Refused(place, refuse(flow, place, &old, next)),
        Ok(false) => Refusal::Refused(place, VerifyRule::Merge),
        Err(_) => Refusal::NoMemory,
    }
}

/// A state flows to a place.
#[tactic(auto, using(crate::proofs::Places::met_first, crate::proofs::Places::met_joined, crate::proofs::Places::met_same, crate::proofs::Places::in_states))]
pub(crate) fn merge_at<F: Flow>(
    flow: &F,
    states: &mut States,
    work: &mut Waiting,
    place: u32,
    next: &State,
) -> Result<(), Refusal>
    requires linked { IsLinkedFile (F.file flow.now) }
    requires opened { IsTableOpen (F.file flow.now) (F.routine flow.now) states.old }
    requires ready { IsStateReady (F.file flow.now) (F.routine flow.now) (F.heads flow.now) place next.now }
    ensures { MatchResult result (λ _. AllReach (F.file flow.now) (F.routine flow.now) (F.heads flow.now)
        ((place, next.now) ∷ []) states.old work.old states.new work.new)
        (λ e. RefusedBy (F.file flow.now) (F.routine flow.now) e) }
{
    match states.meet(flow, place, next)? {
        Met::First => {
            work.add(place)?;
            Ok(())
        }
        Met::Joined => {
            work.add(place)?;
            Ok(())
        }
        Met::Same => Ok(()),
        Met::Unequal => Err(refused(flow, states, place, next)),
    }
}

/// A state flows to a place that an instruction names.
fn jump_to<F: Flow>(
    flow: &F,
    states: &mut States,
    work: &mut Waiting,
    place: u32,
    state: &State,
) -> Result<(), Refusal>
    requires linked { IsLinkedFile (F.file flow.now) }
    requires opened { IsTableOpen (F.file flow.now) (F.routine flow.now) states.old }
    requires ready { IsStateReady (F.file flow.now) (F.routine flow.now) (F.heads flow.now) place state.now }
    ensures { MatchResult result (λ _. AllReach (F.file flow.now) (F.routine flow.now) (F.heads flow.now)
        (map (landing state.now) (place ∷ [])) states.old work.old states.new work.new)
        (λ e. RefusedBy (F.file flow.now) (F.routine flow.now) e) }
{
    merge_at(flow, states, work, place, state)
}

/// A state flows to the cases of a switch.
fn jump_cases<F: Flow>(
    flow: &F,
    states: &mut States,
    work: &mut Waiting,
    state: &State,
    cases: &[u32],
) -> Result<(), Refusal>
    requires linked { IsLinkedFile (F.file flow.now) }
    requires opened { IsTableOpen (F.file flow.now) (F.routine flow.now) states.old }
    requires ready { AreEntriesReady (F.file flow.now) (F.routine flow.now) (F.heads flow.now)
        (map (landing state.now) cases.now) }
    ensures { MatchResult result (λ _. AllReach (F.file flow.now) (F.routine flow.now) (F.heads flow.now)
        (map (landing state.now) cases.now) states.old work.old states.new work.new)
        (λ e. RefusedBy (F.file flow.now) (F.routine flow.now) e) }
{
    for case in cases {
        merge_at(flow, states, work, *case, state)?;
    }
    Ok(())
}

/// A state flows to the places that an instruction names.
#[tactic(auto, using(crate::proofs::Places::reach_none, crate::proofs::Places::one_ready, crate::proofs::Places::first_ready, crate::proofs::Places::rest_ready, crate::proofs::Places::reach_rest))]
fn jump_along<F: Flow>(
    flow: &F,
    states: &mut States,
    work: &mut Waiting,
    instr: &Instr,
    state: &State,
) -> Result<(), Refusal>
    requires linked { IsLinkedFile (F.file flow.now) }
    requires opened { IsTableOpen (F.file flow.now) (F.routine flow.now) states.old }
    requires ready { AreEntriesReady (F.file flow.now) (F.routine flow.now) (F.heads flow.now)
        (map (landing state.now) (targets instr.now)) }
    ensures { MatchResult result (λ _. AllReach (F.file flow.now) (F.routine flow.now) (F.heads flow.now)
        (map (landing state.now) (targets instr.now)) states.old work.old states.new work.new)
        (λ e. RefusedBy (F.file flow.now) (F.routine flow.now) e) }
{
    match instr {
        Instr::Branch(_, target) => jump_to(flow, states, work, *target, state),
        Instr::Switch { default, cases } => {
            jump_to(flow, states, work, *default, state)?;
            jump_cases(flow, states, work, state, cases.as_slice())?;
            Ok(())
        }
        Instr::Plain(_) => Ok(()),
        Instr::One(_, _) => Ok(()),
        Instr::Two(_, _, _) => Ok(()),
        Instr::Byte(_) => Ok(()),
        Instr::Short(_) => Ok(()),
        Instr::ScopeObject(_) => Ok(()),
        Instr::Debug { .. } => Ok(()),
    }
}

/// A state flows to the places that the instruction at a place names.
#[tactic(auto, using(crate::proofs::Places::reach_none))]
pub(crate) fn jump<F: Flow>(
    flow: &F,
    states: &mut States,
    work: &mut Waiting,
    place: u32,
    state: &State,
) -> Result<(), Refusal>
    requires linked { IsLinkedFile (F.file flow.now) }
    requires opened { IsTableOpen (F.file flow.now) (F.routine flow.now) states.old }
    requires ready { AreEntriesReady (F.file flow.now) (F.routine flow.now) (F.heads flow.now)
        (map (landing state.now) (targets_at (F.routine flow.now) place)) }
    ensures { MatchResult result (λ _. AllReach (F.file flow.now) (F.routine flow.now) (F.heads flow.now)
        (map (landing state.now) (targets_at (F.routine flow.now) place)) states.old work.old states.new
        work.new) (λ e. RefusedBy (F.file flow.now) (F.routine flow.now) e) }
{
    match flow.instr(place) {
        Some(instr) => jump_along(flow, states, work, instr, state),
        None => Ok(()),
    }
}
