ghost use Rattle.std.specs.Prelude.{◌≡◌, ◌++◌, IfOk, replicate, take};
ghost use Rattle.abc_link_names.specs.declared.types.Kind.TheVariants as kinds;
ghost use Rattle.abc_verify_typing.specs.Typing.{entry};
ghost use Rattle.abc_verify_states.specs.Frames.{routine_of_frame};

use crate::frame::Frame;
use abc_base::{NoMemory, Table};
use abc_link_names::Kind;
use abc_verify_typing::{Stack, State};
use std::alloc::Global;

/// What is filled, and then undefined, up to so many locals.
#[tactic(auto, using(crate::proofs::Starts::filled_up))]
fn first_locals(alloc: Global, filled: &Table<Kind>, count: u32) -> Result<Table<Kind>, NoMemory>
    ensures { IfOk result (λ t. t ≡ take count (filled.now ++ replicate count kinds.Undef)) }
{
    let mut locals = Table::with_capacity(alloc, filled.len().max(count as usize))?;
    locals.extend_from_slice(filled.as_slice())?;
    locals.resize(count as usize, Kind::Undef)?;
    Ok(locals)
}

/// The state that a method begins with.
pub fn entry_of(alloc: Global, frame: &Frame<'_>) -> Result<State, NoMemory>
    ensures { IfOk result (λ s. s ≡ entry (routine_of_frame frame.now)) }
{
    let stack = Stack::new(alloc);
    let scopes = Table::new(alloc);
    let locals = first_locals(alloc, &frame.filled, frame.local_count)?;
    Ok(State {
        stack,
        scopes,
        locals,
    })
}
