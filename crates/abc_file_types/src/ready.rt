ghost use Rattle.std.specs.Prelude.{◌≡◌, ◌↔◌, ◌≤◌, ◌<◌, ◌-◌, ◌^◌, All, IsTrue, MatchOption, Some, length, min};
ghost use Rattle.abc_file_types.specs.Bodies.{IsReadyBody, IsHandlerWithin};
ghost use Rattle.abc_file_types.specs.CodeBytes.{code_len as total, instr_len as len_of};
ghost use Rattle.abc_file_types.specs.Opcodes.{form_at};
ghost use Rattle.abc_file_types.specs.Ready.{AllCanSpell, AllUpTo, CanSpell, IsReady};

use crate::code::{Body, Handler, Instr};
use crate::instructions::instr_len;
use crate::opcodes::{Form, opcode};
use crate::sizes::U30_LIMIT;
use crate::tables::Abc;
use abc_base::Table;

/// The least length that no code has.
const CODE_LIMIT: u64 = 1 << 23;

/// Whether the instruction with this opcode has this form.
#[tactic(auto, unfolding(crate::specs::Opcodes::form_at))]
fn has_form(op: u8, form: Form) -> bool
    ensures { IsTrue result ↔ (form_at op ≡ Some form) }
{
    match opcode(op) {
        Some(info) => info.form == form,
        None => false,
    }
}

fn are_within(targets: &[u32], count: usize) -> bool
    ensures { IsTrue result ↔ All (λ t. t ≤ count) targets.now }
{
    targets.iter().all(|target| *target as usize <= count)
}

/// Whether a switch has some cases, and not too many, that lead to instructions or to the end.
#[tactic(auto, using(crate::proofs::Readiness::up_to))]
fn is_switch(default: u32, cases: &[u32], count: usize) -> bool
    ensures { IsTrue result
        ↔ ((default ≤ count) × AllUpTo count cases.now × (0 < length cases.now)
        × (length cases.now ≤ 2 ^ 30)) }
{
    let some = 0 < cases.len() && cases.len() <= U30_LIMIT as usize;
    default as usize <= count && are_within(cases, count) && some
}

/// Whether the instruction can be spelled in code of so many instructions.
#[inline(always)]
fn can_spell(instr: &Instr, count: usize) -> bool
    ensures { IsTrue result ↔ CanSpell count instr.now }
{
    match instr {
        Instr::Plain(op) => has_form(*op, Form::Plain),
        Instr::One(op, x) => has_form(*op, Form::One) && *x < U30_LIMIT,
        Instr::Two(op, x, y) => { has_form(*op, Form::Two) && *x < U30_LIMIT && *y < U30_LIMIT }
        Instr::Branch(op, target) => has_form(*op, Form::Branch) && *target as usize <= count,
        Instr::Switch { default, cases } => is_switch(*default, cases.as_slice(), count),
        Instr::Byte(x) => *x >= i8::MIN,
        Instr::Short(x) => *x >= i16::MIN,
        Instr::ScopeObject(_) => true,
        Instr::Debug { name, extra, .. } => *name < U30_LIMIT && *extra < U30_LIMIT,
    }
}

/// How many bytes the instruction has in the canonical code, if it can be spelled in code of so many instructions. It is
/// 2^64 - 1 where that is greater.
#[inline(always)]
fn spelled_len(instr: &Instr, count: usize) -> Option<u64>
    ensures { MatchOption result (CanSpell count instr.now → ⊥)
        (λ n. CanSpell count instr.now × (n ≡ min (len_of instr.now) (2 ^ 64 - 1))) }
{
    if !can_spell(instr, count) {
        return None;
    }
    Some(instr_len(instr))
}

/// The same for all instructions, one after the other.
fn spelled_code_len(code: &[Instr], count: usize) -> Option<u64>
    ensures { MatchOption result (All (CanSpell count) code.now → ⊥)
        (λ n. All (CanSpell count) code.now × (n ≡ min (total code.now) (2 ^ 64 - 1))) }
{
    let mut len: u64 = 0;
    for instr in code {
        let more = spelled_len(instr, count)?;
        len = len.saturating_add(more);
    }
    Some(len)
}

/// How many bytes the code has in its canonical spelling, if some bytes spell it. The instructions are gone over once for both.
#[tactic(auto, using(crate::proofs::Readiness::spelled))]
fn ready_code_len(code: &Table<Instr>) -> Option<u64>
    ensures { MatchOption result (IsReady code.now → ⊥) (λ n. IsReady code.now × (n ≡ total code.now)) }
{
    let len = spelled_code_len(code.as_slice(), code.len())?;
    if len >= CODE_LIMIT {
        return None;
    }
    Some(len)
}

/// Whether some bytes spell the code.
pub fn is_ready(code: &Table<Instr>) -> bool
    ensures { IsTrue result ↔ IsReady code.now }
{
    match ready_code_len(code) {
        Some(_) => true,
        None => false,
    }
}

fn is_within(handler: &Handler, count: usize) -> bool
    ensures { IsTrue result ↔ IsHandlerWithin count handler.now }
{
    handler.from as usize <= count
        && handler.to as usize <= count
        && handler.target as usize <= count
}

fn are_all_within(handlers: &[Handler], count: usize) -> bool
    ensures { IsTrue result ↔ All (IsHandlerWithin count) handlers.now }
{
    handlers.iter().all(|handler| is_within(handler, count))
}

/// How many bytes the body's code has in its canonical spelling, if some bytes spell it, and the body's exceptions name
/// places in it.
pub fn ready_len(body: &Body) -> Option<u64>
    ensures { MatchOption result (IsReadyBody body.now → ⊥)
        (λ n. IsReadyBody body.now × (n ≡ total (body.now).code)) }
{
    let len = ready_code_len(&body.code)?;
    if !are_all_within(body.handlers.as_slice(), body.code.len()) {
        return None;
    }
    Some(len)
}

/// Whether some bytes spell the body's code, and its exceptions name places in it.
pub fn is_ready_body(body: &Body) -> bool
    ensures { IsTrue result ↔ IsReadyBody body.now }
{
    match ready_len(body) {
        Some(_) => true,
        None => false,
    }
}

/// Whether that is so of every body.
pub fn are_bodies_ready(abc: &Abc) -> bool
    ensures { IsTrue result ↔ All IsReadyBody (abc.now).bodies }
{
    abc.bodies.as_slice().iter().all(is_ready_body)
}
