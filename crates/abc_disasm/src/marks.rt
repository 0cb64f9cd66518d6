//! Which instructions of a body, and whether its end, are named by its branches, switches and handlers.
ghost use Rattle.std.specs.Prelude.{◌≡◌, ◌+◌, ◌++◌, ◌∷◌, ◌<◌, ◌^◌, [], ℕ, List, OnOk, length, vec_len};
ghost use Rattle.std.specs.List.{flat_map};
ghost use Rattle.abc_disasm.specs.Texts.{body_targets, handler_targets, instr_targets};
ghost use Rattle.abc_disasm.specs.Marks.{AreTargetMarks};

use abc_base::NoMemory;
use abc_file_types::{Body, Handler, Instr};

/// Marks a number.
fn mark(marks: &mut Vec<bool>, n: u32)
    ensures len { vec_len marks.new ≡ vec_len marks.old }
    ensures marked { (named : List ℕ) → AreTargetMarks marks.old.items named
        → AreTargetMarks marks.new.items (named ++ n ∷ []) }
{
    let at = n as usize;
    if at < marks.len() {
        marks[at] = true;
    }
}

fn mark_all(marks: &mut Vec<bool>, targets: &[u32])
    ensures len { vec_len marks.new ≡ vec_len marks.old }
    ensures marked { (named : List ℕ) → AreTargetMarks marks.old.items named
        → AreTargetMarks marks.new.items (named ++ targets.now) }
{
    for target in targets {
        mark(marks, *target);
    }
}

/// Marks what an instruction names.
fn mark_instr(marks: &mut Vec<bool>, instr: &Instr)
    ensures len { vec_len marks.new ≡ vec_len marks.old }
    ensures marked { (named : List ℕ) → AreTargetMarks marks.old.items named
        → AreTargetMarks marks.new.items (named ++ instr_targets instr.now) }
{
    match instr {
        Instr::Branch(_, target) => mark(marks, *target),
        Instr::Switch { default, cases } => {
            mark(marks, *default);
            mark_all(marks, cases.as_slice());
        }
        _ => {}
    }
}

/// Marks what a handler names.
fn mark_handler(marks: &mut Vec<bool>, handler: &Handler)
    ensures len { vec_len marks.new ≡ vec_len marks.old }
    ensures marked { (named : List ℕ) → AreTargetMarks marks.old.items named
        → AreTargetMarks marks.new.items (named ++ handler_targets handler.now) }
{
    mark_all(marks, &[handler.from, handler.to, handler.target]);
}

fn mark_code(marks: &mut Vec<bool>, code: &[Instr])
    ensures len { vec_len marks.new ≡ vec_len marks.old }
    ensures marked { (named : List ℕ) → AreTargetMarks marks.old.items named
        → AreTargetMarks marks.new.items (named ++ flat_map instr_targets code.now) }
{
    for instr in code {
        mark_instr(marks, instr);
    }
}

fn mark_handlers(marks: &mut Vec<bool>, handlers: &[Handler])
    ensures len { vec_len marks.new ≡ vec_len marks.old }
    ensures marked { (named : List ℕ) → AreTargetMarks marks.old.items named
        → AreTargetMarks marks.new.items (named ++ flat_map handler_targets handlers.now) }
{
    for handler in handlers {
        mark_handler(marks, handler);
    }
}

/// Marks, for each number of an instruction of the body, and for that of the end, whether it is named. The memory of the
/// marks of another body is used again.
pub fn mark_body(marks: &mut Vec<bool>, body: &Body) -> Result<(), NoMemory>
    requires { length (body.now).code < 2 ^ 23 }
    ensures len { OnOk result (vec_len marks.new ≡ length (body.now).code + 1) }
    ensures marked { OnOk result (AreTargetMarks marks.new.items (body_targets body.now)) }
{
    marks.clear();
    marks.resize(body.code.len() + 1, false)?;
    mark_code(marks, body.code.as_slice());
    mark_handlers(marks, body.handlers.as_slice());
    Ok(())
}
