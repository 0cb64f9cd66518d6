ghost use Rattle.std.specs.Prelude.{◌≡◌, IfOk, OnOk};

use abc_base::{NoMemory, Table};
use abc_link_names::Kind;
use abc_verify_typing::{Stack, State};
use std::alloc::Global;

/// Copies a list over another, whose memory is used again.
#[inline]
#[tactic(auto, using(crate::proofs::Waits::nothing))]
pub(crate) fn copy_over<T: Copy + Drop>(copy: &mut Table<T>, items: &[T]) -> Result<(), NoMemory>
    ensures { OnOk result (copy.new ≡ items.now) }
{
    copy.truncate(0);
    if items.is_empty() {
        return Ok(());
    }
    copy.extend_from_slice(items)?;
    Ok(())
}

/// Copies a stack over another, whose memory is used again. Mostly it is empty.
#[tactic(auto, using(crate::proofs::Waits::nothing))]
fn copy_stack_over(copy: &mut Stack<Kind>, stack: &Stack<Kind>) -> Result<(), NoMemory>
    ensures { OnOk result (copy.new ≡ stack.now) }
{
    if stack.len() == 0 {
        copy.clear();
        return Ok(());
    }
    copy.copy_from(stack)?;
    Ok(())
}

/// Copies a state over another, whose memory is used again.
fn copy_state_over(copy: &mut State, state: &State) -> Result<(), NoMemory>
    ensures { OnOk result (copy.new ≡ state.now) }
{
    copy_stack_over(&mut copy.stack, &state.stack)?;
    copy_over(&mut copy.scopes, state.scopes.as_slice())?;
    copy_over(&mut copy.locals, state.locals.as_slice())?;
    Ok(())
}

/// A state of nothing. It takes no memory.
pub(crate) fn no_state(alloc: Global) -> State {
    State {
        stack: Stack::new(alloc),
        scopes: Table::new(alloc),
        locals: Table::new(alloc),
    }
}

/// A copy of a state.
pub(crate) fn copy_state(alloc: Global, state: &State) -> Result<State, NoMemory>
    ensures { IfOk result (λ s. s ≡ state.now) }
{
    let mut copy = no_state(alloc);
    copy_state_over(&mut copy, state)?;
    Ok(copy)
}
