//! The places of a method that begin a walk.

ghost use Rattle.std.specs.Prelude.{◌≡◌, ◌<◌, ◌≤◌, ◌∷◌, [], false, length, replicate, IfOk};
ghost use Rattle.abc_verify_typing.specs.Instructions.{targets};
ghost use Rattle.abc_verify_states.specs.Marking.{AreHeadsOf, Marks, code_targets, handler_places};

use abc_base::{NoMemory, Table};
use abc_file_types::Instr;
use abc_verify_typing::Catch;
use std::alloc::Global;

/// No marks.
#[tactic(auto, using(crate::proofs::Marked::none_marked))]
fn no_marks(alloc: Global, count: usize) -> Result<Table<bool>, NoMemory>
    ensures { IfOk result (λ t. t ≡ replicate count false) }
{
    let mut marks = Table::new(alloc);
    marks.resize(count, false)?;
    Ok(marks)
}

/// Marks a place, if it is one of the code.
#[tactic(auto, using(crate::proofs::Marked::marks_set, crate::proofs::Marked::marks_past))]
fn mark(marks: &mut Table<bool>, place: u32)
    ensures { Marks (place ∷ []) marks.old marks.new }
{
    if (place as usize) < marks.len() {
        marks.set(place as usize, true);
    }
}

/// Marks places.
#[tactic(auto, using(crate::proofs::Marked::marks_none, crate::proofs::Marked::marks_next, crate::proofs::Marked::marks_whole))]
fn mark_all(marks: &mut Table<bool>, places: &[u32])
    ensures { Marks places.now marks.old marks.new }
{
    for place in places {
        mark(marks, *place);
    }
}

/// Marks the targets of a switch.
#[tactic(auto, using(crate::proofs::Marked::marks_both))]
fn mark_switch(marks: &mut Table<bool>, default: u32, cases: &[u32])
    ensures { Marks (default ∷ cases.now) marks.old marks.new }
{
    mark(marks, default);
    mark_all(marks, cases);
}

/// Marks what an instruction leads to.
#[tactic(auto, using(crate::proofs::Marked::marks_none))]
fn mark_instr(marks: &mut Table<bool>, instr: &Instr)
    ensures { Marks (targets instr.now) marks.old marks.new }
{
    match instr {
        Instr::Branch(_, target) => mark(marks, *target),
        Instr::Switch { default, cases } => mark_switch(marks, *default, cases.as_slice()),
        Instr::Plain(_) => {}
        Instr::One(_, _) => {}
        Instr::Two(_, _, _) => {}
        Instr::Byte(_) => {}
        Instr::Short(_) => {}
        Instr::ScopeObject(_) => {}
        Instr::Debug { .. } => {}
    }
}

/// Marks what the instructions lead to.
#[tactic(auto, using(crate::proofs::Marked::code_none, crate::proofs::Marked::code_next, crate::proofs::Marked::code_whole))]
fn mark_code(marks: &mut Table<bool>, code: &[Instr])
    ensures { Marks (code_targets code.now) marks.old marks.new }
{
    for instr in code {
        mark_instr(marks, instr);
    }
}

/// Marks where a handler leads to, and where its range begins and ends.
#[tactic(auto, using(crate::proofs::Marked::marks_three))]
fn mark_handler(marks: &mut Table<bool>, handler: &Catch)
    ensures { Marks (handler_places (handler.now ∷ [])) marks.old marks.new }
{
    mark(marks, handler.target);
    mark(marks, handler.from);
    mark(marks, handler.to);
}

/// Marks where handlers lead to, and where their ranges begin and end.
#[tactic(auto, using(crate::proofs::Marked::handlers_none, crate::proofs::Marked::handlers_next, crate::proofs::Marked::handlers_whole))]
fn mark_handlers(marks: &mut Table<bool>, handlers: &[Catch])
    ensures { Marks (handler_places handlers.now) marks.old marks.new }
{
    for handler in handlers {
        mark_handler(marks, handler);
    }
}

/// How many places have marks: all of the code, and one where there is no code.
fn count_of(code: &[Instr]) -> usize
    ensures some { 0 < result }
    ensures enough { length code.now ≤ result }
{
    if code.is_empty() { 1 } else { code.len() }
}

/// The places that begin a walk: the first, what instructions and handlers lead to, and where ranges of handlers begin and
/// end.
#[tactic(auto, using(crate::proofs::Marked::heads))]
pub fn heads_of(alloc: Global, code: &[Instr], handlers: &[Catch]) -> Result<Table<bool>, NoMemory>
    ensures { IfOk result (λ t. AreHeadsOf code.now handlers.now t) }
{
    let mut marks = no_marks(alloc, count_of(code))?;
    mark(&mut marks, 0);
    mark_code(&mut marks, code);
    mark_handlers(&mut marks, handlers);
    Ok(marks)
}
