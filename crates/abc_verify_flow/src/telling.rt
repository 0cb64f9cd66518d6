ghost use Rattle.std.specs.Prelude.{◌≡◌, ◌*◌, ◌<◌, ◌∷◌, [], Some, map, slice_get, IfOk, MatchResult, OnOk};
ghost use Rattle.abc_link_names.specs.Linked.{IsLinkedFile};
ghost use Rattle.abc_base_trees.specs.Hung.{AreHung, leaves};
ghost use Rattle.abc_verify_typing.specs.Effects.{covering};
ghost use Rattle.abc_verify_typing.specs.declared.catch.Catch.{Catch as AnyCatch};
ghost use Rattle.abc_verify_typing.specs.Work.{at};
ghost use Rattle.abc_verify_flow.specs.Telling.{AreHandlersTold, HandlerAt, HasCaught, HasCaughtOne, HasTold, HasToldAt, IsReadyFor, Raises, range_of};
ghost use Rattle.abc_verify_flow.specs.Walking.{AllReach, AreEntriesReady, IsTableOpen, RefusedBy, caught_with};

use crate::copies::{copy_state, no_state};
use crate::flow::Flow;
use crate::merging::merge_at;
use crate::states::States;
use crate::step::{Merged, Refusal};
use crate::waiting::Waiting;
use abc_base::NoMemory;
use abc_base_trees::Stabs;
use abc_link_names::Kind;
use abc_verify_typing::{Catch, State};

/// What was told together with what was seen, if that is more than what was told. States that have not one shape, of which there
/// are none here, would not be joined: then it is what was seen.
fn raised_above<F: Flow>(flow: &F, old: &State, seen: &State) -> Result<Option<State>, NoMemory>
    requires { IsLinkedFile (F.file flow.now) }
    ensures { IfOk result (Raises (F.file flow.now) (Some old.now) seen.now) }
{
    let mut joined = no_state(flow.alloc());
    match flow.merge(old, seen, &mut joined)? {
        Merged::Same => Ok(None),
        Merged::Joined => Ok(Some(joined)),
        Merged::Unequal => Ok(Some(copy_state(flow.alloc(), seen)?)),
    }
}

/// What was told at a node together with what was seen, if that is more than what was told.
fn raised<F: Flow>(
    flow: &F,
    told: &States,
    node: u32,
    seen: &State,
) -> Result<Option<State>, NoMemory>
    requires { IsLinkedFile (F.file flow.now) }
    ensures { IfOk result (Raises (F.file flow.now) (at told.now node) seen.now) }
{
    if told.is_above(flow, node, seen) {
        return Ok(None);
    }
    let mut old = no_state(flow.alloc());
    if told.load(node, &mut old)? {
        return raised_above(flow, &old, seen);
    }
    Ok(Some(copy_state(flow.alloc(), seen)?))
}

/// Leaves nothing on a state's stack but what is caught, and no scopes.
fn catch_in(state: &mut State, kind: Kind) -> Result<(), NoMemory>
    ensures { OnOk result (state.new ≡ record { stack = kind ∷ []; scopes = []; locals = state.old.locals }) }
{
    state.stack.clear();
    state.stack.push(kind)?;
    state.scopes.truncate(0);
    Ok(())
}

/// A handler gets the locals of a state.
fn catch_one<F: Flow>(
    flow: &F,
    states: &mut States,
    work: &mut Waiting,
    caught: &mut State,
    handler: Catch,
) -> Result<(), Refusal>
    requires linked { IsLinkedFile (F.file flow.now) }
    requires opened { IsTableOpen (F.file flow.now) (F.routine flow.now) states.old }
    requires ready { IsReadyFor (F.file flow.now) (F.routine flow.now) (F.heads flow.now) caught.old.locals
        handler }
    ensures { MatchResult result (λ _. AllReach (F.file flow.now) (F.routine flow.now) (F.heads flow.now)
        (caught_with caught.old.locals handler ∷ []) states.old work.old states.new work.new
        × (caught.new.locals ≡ caught.old.locals))
        (λ e. RefusedBy (F.file flow.now) (F.routine flow.now) e) }
{
    catch_in(caught, handler.kind)?;
    merge_at(flow, states, work, handler.target, caught)?;
    Ok(())
}

/// The handler of a number, or `None` where there is none.
fn handler_at(handlers: &[Catch], number: u32) -> Option<Catch>
    ensures { result ≡ slice_get handlers.now number }
{
    handlers.get(number as usize).copied()
}

/// The handler of a number, if there is one, gets the locals of a state.
fn catch_numbered<F: Flow>(
    flow: &F,
    states: &mut States,
    work: &mut Waiting,
    caught: &mut State,
    number: u32,
) -> Result<(), Refusal>
    requires linked { IsLinkedFile (F.file flow.now) }
    requires opened { IsTableOpen (F.file flow.now) (F.routine flow.now) states.old }
    requires ready { (h : AnyCatch) → slice_get (F.routine flow.now).handlers number ≡ Some h
        → IsReadyFor (F.file flow.now) (F.routine flow.now) (F.heads flow.now) caught.old.locals h }
    ensures { MatchResult result (λ _. HasCaughtOne (F.file flow.now) (F.routine flow.now) (F.heads flow.now)
        number caught.old.locals states.old work.old states.new work.new
        × (caught.new.locals ≡ caught.old.locals))
        (λ e. RefusedBy (F.file flow.now) (F.routine flow.now) e) }
{
    match handler_at(flow.handlers(), number) {
        Some(handler) => {
            catch_one(flow, states, work, caught, handler)?;
            Ok(())
        }
        None => Ok(()),
    }
}

/// All handlers at a node get the locals of a state, whose stack is empty then as at first.
fn catch_all<F: Flow>(
    flow: &F,
    stabs: &Stabs,
    states: &mut States,
    work: &mut Waiting,
    caught: &mut State,
    node: u32,
) -> Result<(), Refusal>
    requires linked { IsLinkedFile (F.file flow.now) }
    requires opened { IsTableOpen (F.file flow.now) (F.routine flow.now) states.old }
    requires ready { (h : AnyCatch) → HandlerAt stabs.now (F.routine flow.now).handlers node h
        → IsReadyFor (F.file flow.now) (F.routine flow.now) (F.heads flow.now) caught.old.locals h }
    ensures { MatchResult result (λ _. HasCaught (F.file flow.now) (F.routine flow.now) (F.heads flow.now)
        stabs.now node caught.old.locals states.old work.old states.new work.new
        × (caught.new.locals ≡ caught.old.locals))
        (λ e. RefusedBy (F.file flow.now) (F.routine flow.now) e) }
{
    let mut link = stabs.first(node);
    while let Some(hang) = stabs.find(link) {
        catch_numbered(flow, states, work, caught, hang.number)?;
        link = hang.next;
    }
    caught.stack.clear();
    Ok(())
}

/// The handlers at a node get the locals of a state, which is kept.
fn tell_more<F: Flow>(
    flow: &F,
    stabs: &Stabs,
    told: &mut States,
    states: &mut States,
    work: &mut Waiting,
    caught: State,
    node: u32,
) -> Result<(), Refusal>
    requires linked { IsLinkedFile (F.file flow.now) }
    requires opened { IsTableOpen (F.file flow.now) (F.routine flow.now) states.old }
    requires inside { node < 2 * leaves stabs.now }
    requires kept { AreHandlersTold (F.file flow.now) (F.routine flow.now) (F.heads flow.now) stabs.now
        told.old states.old }
    requires ready { (h : AnyCatch) → HandlerAt stabs.now (F.routine flow.now).handlers node h
        → IsReadyFor (F.file flow.now) (F.routine flow.now) (F.heads flow.now) caught.locals h }
    ensures { MatchResult result (λ _. HasToldAt (F.file flow.now) (F.routine flow.now) (F.heads flow.now)
        stabs.now node caught.locals states.old work.old told.new states.new work.new)
        (λ e. RefusedBy (F.file flow.now) (F.routine flow.now) e) }
{
    let mut caught = caught;
    catch_all(flow, stabs, states, work, &mut caught, node)?;
    told.set(node, &caught)?;
    Ok(())
}

/// The handlers at a node, if there are any, get the locals that were seen, where these are not what they were told.
fn tell_at<F: Flow>(
    flow: &F,
    stabs: &Stabs,
    told: &mut States,
    states: &mut States,
    work: &mut Waiting,
    seen: &State,
    node: u32,
) -> Result<(), Refusal>
    requires linked { IsLinkedFile (F.file flow.now) }
    requires opened { IsTableOpen (F.file flow.now) (F.routine flow.now) states.old }
    requires inside { node < 2 * leaves stabs.now }
    requires kept { AreHandlersTold (F.file flow.now) (F.routine flow.now) (F.heads flow.now) stabs.now
        told.old states.old }
    requires ready { (h : AnyCatch) → HandlerAt stabs.now (F.routine flow.now).handlers node h
        → IsReadyFor (F.file flow.now) (F.routine flow.now) (F.heads flow.now) seen.now.locals h }
    ensures { MatchResult result (λ _. HasToldAt (F.file flow.now) (F.routine flow.now) (F.heads flow.now)
        stabs.now node seen.now.locals states.old work.old told.new states.new work.new)
        (λ e. RefusedBy (F.file flow.now) (F.routine flow.now) e) }
{
    if stabs.first(node) == 0 {
        return Ok(());
    }
    match raised(flow, told, node, seen)? {
        Some(caught) => {
            tell_more(flow, stabs, told, states, work, caught, node)?;
            Ok(())
        }
        None => Ok(()),
    }
}

/// The handlers that cover a place get the locals that were seen.
pub(crate) fn tell<F: Flow>(
    flow: &F,
    stabs: &Stabs,
    told: &mut States,
    states: &mut States,
    work: &mut Waiting,
    seen: &State,
    place: u32,
) -> Result<(), Refusal>
    requires linked { IsLinkedFile (F.file flow.now) }
    requires opened { IsTableOpen (F.file flow.now) (F.routine flow.now) states.old }
    requires hung { AreHung (map range_of (F.routine flow.now).handlers) stabs.now }
    requires kept { AreHandlersTold (F.file flow.now) (F.routine flow.now) (F.heads flow.now) stabs.now
        told.old states.old }
    requires ready { AreEntriesReady (F.file flow.now) (F.routine flow.now) (F.heads flow.now)
        (map (caught_with seen.now.locals) (covering (F.routine flow.now) place)) }
    ensures { MatchResult result (λ _. HasTold (F.file flow.now) (F.routine flow.now) (F.heads flow.now)
        stabs.now place seen.now.locals states.old work.old told.new states.new work.new)
        (λ e. RefusedBy (F.file flow.now) (F.routine flow.now) e) }
{
    let mut node = stabs.leaf(place);
    while node > 0 {
        tell_at(flow, stabs, told, states, work, seen, node)?;
        node /= 2;
    }
    Ok(())
}
