ghost use Rattle.std.specs.Prelude.{◌≡◌, ◌<◌, ◌^◌, ◌∷◌, true, false, [], cond, map, length, MatchResult, OnOk};
ghost use Rattle.abc_link_names.specs.Linked.{IsLinkedFile};
ghost use Rattle.abc_verify_typing.specs.Effects.{covering};
ghost use Rattle.abc_verify_typing.specs.Typing.{Derivable, HasTyping};
ghost use Rattle.abc_verify_typing.specs.Work.{IsUnderWay};
ghost use Rattle.abc_verify_flow.specs.Handled.{IsCoverAt};
ghost use Rattle.abc_verify_flow.specs.Telling.{AreHandlersTold, IsHandled};
ghost use Rattle.abc_verify_flow.specs.Walking.{AllReach, AreWalkHeads, AreEntriesReady, ArrivesAt, HasPaced, HasTurned, HasWalked, IsTableOpen, IsPending, IsSeenFirst, IsSettled, MayGoOn, Passed, RefusedBy, is_head, landing, targets_at};

use crate::copies::{copy_over, no_state};
use crate::flow::Flow;
use crate::handled::{Cover, Handled, cover_at, handled_of};
use crate::merging::{jump, merge_at, raise};
use crate::notes::note;
use crate::states::States;
use crate::step::{Onward, Refusal, Step, Trial, Written};
use crate::telling::tell;
use crate::waiting::Waiting;
use abc_base::{NoMemory, Table};
use abc_link_names::Kind;
use abc_verify_typing::{State, VerifyRule};
use std::alloc::Global;

/// A state flows to the places that an instruction names, if the step leads there.
#[tactic(auto, using(crate::proofs::Places::reach_none))]
fn jump_if<F: Flow>(
    flow: &F,
    states: &mut States,
    work: &mut Waiting,
    jumps: bool,
    place: u32,
    state: &State,
) -> Result<(), Refusal>
    requires linked { IsLinkedFile (F.file flow.now) }
    requires opened { IsTableOpen (F.file flow.now) (F.routine flow.now) states.old }
    requires ready { jumps ≡ true
        → AreEntriesReady (F.file flow.now) (F.routine flow.now) (F.heads flow.now)
        (map (landing state.now) (targets_at (F.routine flow.now) place)) }
    ensures { MatchResult result (λ _. AllReach (F.file flow.now) (F.routine flow.now) (F.heads flow.now)
        (map (landing state.now) (cond jumps (targets_at (F.routine flow.now) place) [])) states.old
        work.old states.new work.new) (λ e. RefusedBy (F.file flow.now) (F.routine flow.now) e) }
{
    if jumps {
        jump(flow, states, work, place, state)
    } else {
        Ok(())
    }
}

/// A state comes to the next place.
#[tactic(auto, using(crate::proofs::Places::arrived_not, crate::proofs::Places::arrived_head, crate::proofs::Places::head_ready))]
fn arrive<F: Flow>(
    flow: &F,
    states: &mut States,
    work: &mut Waiting,
    step: Step,
    place: u32,
    state: &State,
) -> Result<Onward, Refusal>
    requires linked { IsLinkedFile (F.file flow.now) }
    requires small { length (F.routine flow.now).code < 2 ^ 31 }
    requires opened { IsTableOpen (F.file flow.now) (F.routine flow.now) states.old }
    requires ready { step.next ≡ true → MayGoOn (F.file flow.now) (F.routine flow.now) place state.now }
    requires place { place < length (F.routine flow.now).code }
    ensures { MatchResult result (λ o. ArrivesAt (F.file flow.now) (F.routine flow.now) (F.heads flow.now)
        step place state.now states.old work.old states.new work.new o)
        (λ e. RefusedBy (F.file flow.now) (F.routine flow.now) e) }
{
    if !step.next {
        return Ok(Onward::Stops);
    }
    if flow.is_head(place + 1) {
        merge_at(flow, states, work, place + 1, state)?;
        return Ok(Onward::Stops);
    }
    Ok(Onward::GoesOn(step.written))
}

/// A walk passes a place.
#[tactic(auto, using(crate::proofs::Walks::passed, crate::proofs::Walks::now_seen, crate::proofs::Walks::jumps_ready, crate::proofs::Walks::next_ready))]
fn pass<F: Flow>(
    flow: &F,
    states: &mut States,
    work: &mut Waiting,
    cover: Cover,
    seen: &mut Table<Kind>,
    written: Written,
    place: u32,
    now: &mut State,
) -> Result<Onward, Refusal>
    requires linked { IsLinkedFile (F.file flow.now) }
    requires small { length (F.routine flow.now).code < 2 ^ 31 }
    requires heads { AreWalkHeads (F.routine flow.now) (F.heads flow.now) }
    requires opened { IsTableOpen (F.file flow.now) (F.routine flow.now) states.old }
    requires place { place < length (F.routine flow.now).code }
    requires derived { Derivable (F.file flow.now) (F.routine flow.now) place now.old }
    requires cover { IsCoverAt (F.routine flow.now) place cover }
    requires pending { IsPending (F.file flow.now) (F.routine flow.now) (F.heads flow.now)
        (covering (F.routine flow.now) place) seen.old now.old.locals written }
    ensures { MatchResult result (λ o. Passed (F.file flow.now) (F.routine flow.now) (F.heads flow.now)
        (covering (F.routine flow.now) place) place now.old now.new seen.old seen.new states.old work.old
        states.new work.new o) (λ e. RefusedBy (F.file flow.now) (F.routine flow.now) e) }
{
    note(flow, seen, &now.locals, written);
    let trial = flow.advance(place, now, cover)?;
    match trial {
        Trial::Breaks(rule) => Err(Refusal::Refused(place, rule)),
        Trial::Steps(step) => {
            jump_if(flow, states, work, step.jumps, place, now)?;
            let onward = arrive(flow, states, work, step, place, now)?;
            Ok(onward)
        }
    }
}

/// The places of a walk, from a head on; what is left is to tell the handlers.
#[tactic(auto, using(crate::proofs::Walks::walk_init, crate::proofs::Walks::walk_step, crate::proofs::Walks::walk_stop))]
fn pace<F: Flow>(
    flow: &F,
    states: &mut States,
    work: &mut Waiting,
    cover: Cover,
    seen: &mut Table<Kind>,
    start: u32,
    now: &mut State,
) -> Result<(), Refusal>
    requires linked { IsLinkedFile (F.file flow.now) }
    requires small { length (F.routine flow.now).code < 2 ^ 31 }
    requires heads { AreWalkHeads (F.routine flow.now) (F.heads flow.now) }
    requires opened { IsTableOpen (F.file flow.now) (F.routine flow.now) states.old }
    requires place { start < length (F.routine flow.now).code }
    requires derived { Derivable (F.file flow.now) (F.routine flow.now) start now.old }
    requires cover { IsCoverAt (F.routine flow.now) start cover }
    requires seen_is { IsSeenFirst (covering (F.routine flow.now) start) seen.old now.old.locals }
    ensures { MatchResult result (λ _. HasPaced (F.file flow.now) (F.routine flow.now) (F.heads flow.now)
        (covering (F.routine flow.now) start) start now.old seen.new states.old work.old states.new
        work.new) (λ e. RefusedBy (F.file flow.now) (F.routine flow.now) e) }
{
    let mut place = start;
    let mut written = Written::Nothing;
    'passing: while let Onward::GoesOn(next) = pass(
        flow, states, work, cover, seen, written, place, now,
    )? {
        written = next;
        place += 1;
    }
    Ok(())
}

/// What a walk is to keep of its locals for the handlers that cover it: nothing where there are none.
fn see_first(seen: &mut Table<Kind>, cover: Cover, locals: &Table<Kind>) -> Result<(), NoMemory>
    ensures { OnOk result (cover.is_empty ≡ false → seen.new ≡ locals.now) }
{
    if cover.is_empty {
        return Ok(());
    }
    copy_over(seen, locals.as_slice())?;
    Ok(())
}

/// A walk from a head, and what the handlers that cover it get.
fn walk_from<F: Flow>(
    flow: &F,
    handled: &Handled,
    told: &mut States,
    states: &mut States,
    work: &mut Waiting,
    seen: &mut State,
    start: u32,
    now: &mut State,
) -> Result<(), Refusal>
    requires linked { IsLinkedFile (F.file flow.now) }
    requires small { length (F.routine flow.now).code < 2 ^ 31 }
    requires heads { AreWalkHeads (F.routine flow.now) (F.heads flow.now) }
    requires handled { IsHandled (F.routine flow.now).handlers (length (F.routine flow.now).code)
        handled.now }
    requires opened { IsTableOpen (F.file flow.now) (F.routine flow.now) states.old }
    requires kept { AreHandlersTold (F.file flow.now) (F.routine flow.now) (F.heads flow.now) handled.now.all
        told.old states.old }
    requires place { start < length (F.routine flow.now).code }
    requires derived { Derivable (F.file flow.now) (F.routine flow.now) start now.old }
    ensures { MatchResult result (λ _. HasWalked (F.file flow.now) (F.routine flow.now) (F.heads flow.now)
        start now.old states.old work.old states.new work.new
        × AreHandlersTold (F.file flow.now) (F.routine flow.now) (F.heads flow.now) handled.now.all
        told.new states.new) (λ e. RefusedBy (F.file flow.now) (F.routine flow.now) e) }
{
    let cover = cover_at(handled, start);
    see_first(&mut seen.locals, cover, &now.locals)?;
    pace(flow, states, work, cover, &mut seen.locals, start, now)?;
    tell(flow, &handled.all, told, states, work, seen, start)?;
    Ok(())
}

/// What a walk has: its state, one with the locals that it saw, and for each node of the handlers what they were told there.
#[derive(Drop)]
struct Walker {
    now: State,
    seen: State,
    told: States,
}

/// One head of the work.
#[tactic(auto, using(crate::proofs::Walks::visit_none, crate::proofs::Walks::visit_walked, crate::proofs::Walks::is_whole, crate::proofs::Walks::state_inside, crate::proofs::Places::is_derived_copy))]
fn visit<F: Flow>(
    flow: &F,
    handled: &Handled,
    states: &mut States,
    work: &mut Waiting,
    walker: &mut Walker,
    place: u32,
) -> Result<(), Refusal>
    requires linked { IsLinkedFile (F.file flow.now) }
    requires small { length (F.routine flow.now).code < 2 ^ 31 }
    requires heads { AreWalkHeads (F.routine flow.now) (F.heads flow.now) }
    requires handled { IsHandled (F.routine flow.now).handlers (length (F.routine flow.now).code)
        handled.now }
    requires under_way { IsUnderWay (F.file flow.now) (F.routine flow.now) (is_head (F.heads flow.now))
        states.old (place ∷ work.old) }
    requires kept { AreHandlersTold (F.file flow.now) (F.routine flow.now) (F.heads flow.now) handled.now.all
        walker.old.told states.old }
    ensures { MatchResult result (λ _. HasTurned (F.file flow.now) (F.routine flow.now) (F.heads flow.now)
        place states.old work.old states.new work.new
        × AreHandlersTold (F.file flow.now) (F.routine flow.now) (F.heads flow.now) handled.now.all
        walker.new.told states.new) (λ e. RefusedBy (F.file flow.now) (F.routine flow.now) e) }
{
    if !states.load(place, &mut walker.now)? {
        return Ok(());
    }
    walk_from(
        flow,
        handled,
        &mut walker.told,
        states,
        work,
        &mut walker.seen,
        place,
        &mut walker.now,
    )?;
    Ok(())
}

/// The work list, where there is code. The answer is how many walks there were.
fn check_code<F: Flow>(
    flow: &F,
    states: &mut States,
    work: &mut Waiting,
    walker: &mut Walker,
) -> Result<u64, Refusal>
    requires linked { IsLinkedFile (F.file flow.now) }
    requires some { 0 < length (F.routine flow.now).code }
    requires small { length (F.routine flow.now).code < 2 ^ 31 }
    requires heads { AreWalkHeads (F.routine flow.now) (F.heads flow.now) }
    ensures { MatchResult result
        (λ walks. IsSettled (F.file flow.now) (F.routine flow.now) (F.heads flow.now) walks states.new)
        (λ e. RefusedBy (F.file flow.now) (F.routine flow.now) e) }
{
    let handled = handled_of(flow.alloc(), flow.handlers(), flow.len())?;
    walker.told.renew(handled.all.nodes());
    states.renew(flow.len());
    work.clear();
    let entry = flow.entry()?;
    raise(states, work, 0, &entry)?;
    let mut walks: u64 = 0;
    while let Some(place) = work.pop() {
        visit(flow, &handled, states, work, walker, place)?;
        walks = walks.saturating_add(1);
    }
    Ok(walks)
}

/// Memory that is used again from method to method.
#[derive(Drop)]
pub struct Memory {
    states: States,
    work: Waiting,
    walker: Walker,
}

impl Memory {
    /// None is taken yet.
    pub fn new(alloc: Global) -> Memory {
        Memory {
            states: States::new(alloc),
            work: Waiting::new(alloc),
            walker: Walker {
                now: no_state(alloc),
                seen: no_state(alloc),
                told: States::new(alloc),
            },
        }
    }
}

/// Whether a method has a typing. The answer is Ok exactly where it has one, with how many walks there were: from each head at most
/// once more than its state rose. Else a place and a rule refute every typing, or memory ran out.
#[tactic(auto, using(crate::proofs::Walks::no_code, crate::proofs::Counts::settled_typing))]
pub fn check_flow<F: Flow>(flow: &F, memory: &mut Memory) -> Result<u64, Refusal>
    requires linked { IsLinkedFile (F.file flow.now) }
    requires small { length (F.routine flow.now).code < 2 ^ 31 }
    requires heads { AreWalkHeads (F.routine flow.now) (F.heads flow.now) }
    ensures { MatchResult result (λ walks. HasTyping (F.file flow.now) (F.routine flow.now)
        × IsSettled (F.file flow.now) (F.routine flow.now) (F.heads flow.now) walks memory.new.states)
        (λ e. RefusedBy (F.file flow.now) (F.routine flow.now) e) }
{
    if flow.len() == 0 {
        return Err(Refusal::Refused(0, VerifyRule::OffEnd));
    }
    check_code(
        flow,
        &mut memory.states,
        &mut memory.work,
        &mut memory.walker,
    )
}
