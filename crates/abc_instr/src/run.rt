//! Runs of instructions that are in their shortest forms: they are copied as they stand.
ghost use Rattle.std.specs.Prelude.{◌≡◌, ◌≤◌, ◌<◌, ◌+◌, ◌^◌, IfOk, Some, get_or, length};
ghost use Rattle.abc_file_types.specs.Opcodes.{form_at};
ghost use Rattle.abc_instr.specs.declared.run.TheConstants.{STEPS as steps_of_code};
ghost use Rattle.abc_instr.specs.Marks.{mark_at};
ghost use Rattle.abc_instr.specs.Runs.{IsPassed, Runs, StepsOver, step_at};

use crate::holes::Hole;
use crate::marks::Marks;
use abc_base::NoMemory;
use abc_file_types::{Form, opcode};
use abc_varint::front_s24;

/// How many bytes have to be at hand from the start of an instruction on.
pub(crate) const AT_HAND: usize = 4;

/// How an instruction is passed whose numbers have one byte each: how many bytes it has, and below what the two bytes
/// behind its opcode stand then: 128 for a number, and 256 for a byte of another kind or of what follows. No byte is below
/// 0, so no other instruction is passed so.
#[derive(Clone, Copy, Debug)]
struct Step {
    len: u8,
    first: u16,
    second: u16,
}

const OTHER: Step = Step {
    len: 0,
    first: 0,
    second: 0,
};

const ALONE: Step = Step {
    len: 1,
    first: 256,
    second: 256,
};

const OCTET: Step = Step {
    len: 2,
    first: 256,
    second: 256,
};

const ONE: Step = Step {
    len: 2,
    first: 128,
    second: 256,
};

const TWO: Step = Step {
    len: 3,
    first: 128,
    second: 128,
};

/// The steps by opcodes.
const STEPS: [Step; 256] = [
    // 00 to 0f
    OTHER, OTHER, ALONE, ALONE, ONE, ONE, ONE, ALONE, ONE, ALONE, OTHER, OTHER, OTHER, OTHER,
    OTHER, OTHER,
    // 10 to 1f
    OTHER, OTHER, OTHER, OTHER, OTHER, OTHER, OTHER, OTHER, OTHER, OTHER, OTHER, OTHER, ALONE,
    ALONE, ALONE, ALONE,
    // 20 to 2f
    ALONE, ALONE, OTHER, ALONE, OCTET, ONE, ALONE, ALONE, ALONE, ALONE, ALONE, ALONE, ONE, ONE,
    ONE, ONE,
    // 30 to 3f
    ALONE, ONE, TWO, OTHER, OTHER, OTHER, OTHER, OTHER, OTHER, OTHER, OTHER, OTHER, OTHER, OTHER,
    OTHER, OTHER,
    // 40 to 4f
    ONE, ONE, ONE, TWO, TWO, TWO, TWO, ALONE, ALONE, ONE, TWO, OTHER, TWO, OTHER, TWO, TWO,
    // 50 to 5f
    OTHER, OTHER, OTHER, ONE, OTHER, ONE, ONE, ALONE, ONE, ONE, ONE, OTHER, OTHER, ONE, ONE, OTHER,
    // 60 to 6f
    ONE, ONE, ONE, ONE, ALONE, OCTET, ONE, OTHER, ONE, OTHER, ONE, OTHER, ONE, ONE, ONE, ONE,
    // 70 to 7f
    ALONE, ALONE, ALONE, ALONE, ALONE, ALONE, ALONE, ALONE, ALONE, OTHER, OTHER, OTHER, OTHER,
    OTHER, OTHER, OTHER,
    // 80 to 8f
    ONE, OTHER, ALONE, OTHER, OTHER, ALONE, ONE, ALONE, OTHER, OTHER, OTHER, OTHER, OTHER, OTHER,
    OTHER, OTHER,
    // 90 to 9f
    ALONE, ALONE, ONE, ALONE, ONE, ALONE, ALONE, ALONE, OTHER, OTHER, OTHER, OTHER, OTHER, OTHER,
    OTHER, OTHER,
    // a0 to af
    ALONE, ALONE, ALONE, ALONE, ALONE, ALONE, ALONE, ALONE, ALONE, ALONE, ALONE, ALONE, ALONE,
    ALONE, ALONE, ALONE,
    // b0 to bf
    ALONE, ALONE, ONE, ALONE, ALONE, OTHER, OTHER, OTHER, OTHER, OTHER, OTHER, OTHER, OTHER, OTHER,
    OTHER, OTHER,
    // c0 to cf
    ALONE, ALONE, ONE, ONE, ALONE, ALONE, ALONE, ALONE, OTHER, OTHER, OTHER, OTHER, OTHER, OTHER,
    OTHER, OTHER,
    // d0 to df
    ALONE, ALONE, ALONE, ALONE, ALONE, ALONE, ALONE, ALONE, OTHER, OTHER, OTHER, OTHER, OTHER,
    OTHER, OTHER, OTHER,
    // e0 to ef
    OTHER, OTHER, OTHER, OTHER, OTHER, OTHER, OTHER, OTHER, OTHER, OTHER, OTHER, OTHER, OTHER,
    OTHER, OTHER, OTHER,
    // f0 to ff
    ONE, ONE, OTHER, OTHER, OTHER, OTHER, OTHER, OTHER, OTHER, OTHER, OTHER, OTHER, OTHER, OTHER,
    OTHER, OTHER,
];

/// The step of an opcode.
#[inline(always)]
fn step_of(steps: &[Step; 256], op: u8) -> Step
    requires { steps.now ≡ steps_of_code }
    ensures { result ≡ step_at op }
{
    steps[op as usize]
}

/// How many bytes the instruction at the front has where its first number has two bytes, in their shortest form, and a second
/// one has one byte; 0 where that isn't so. Its step doesn't pass it.
#[inline(always)]
fn longer_len(step: Step, bytes: &[u8]) -> usize
    requires room { 4 ≤ length bytes.now }
    requires step { step ≡ step_at (get_or bytes.now 0 0) }
    requires other { (get_or bytes.now 1 0 < step.first) × (get_or bytes.now 2 0 < step.second) → ⊥ }
    ensures { 0 < result → IsPassed result bytes.now }
{
    if bytes[2] == 0 || bytes[2] >= 128 {
        return 0;
    }
    if step.len == 2 {
        return 3;
    }
    if step.len == 3 && bytes[3] < 128 {
        return 4;
    }
    0
}

/// How many bytes the instruction at the front has where it has no targets, is in its shortest form, and its numbers have
/// one byte each, or the first of them has two; 0 where it is another.
#[inline(always)]
fn step_len(bytes: &[u8]) -> usize
    requires { 4 ≤ length bytes.now }
    ensures { 0 < result → IsPassed result bytes.now }
{
    let step = step_of(&STEPS, bytes[0]);
    if (bytes[1] as u16) < step.first && (bytes[2] as u16) < step.second {
        return step.len as usize;
    }
    longer_len(step, bytes)
}

/// Notes the offset of the branch at the front, from `here` on as it was read and from `moved` on in the canonical code. Gives
/// how many bytes it has; 0, and nothing is noted, where it isn't within so many bytes.
#[inline(always)]
fn note_branch(
    bytes: &[u8],
    most: usize,
    here: u32,
    moved: u32,
    holes: &mut Vec<Hole>,
) -> Result<usize, NoMemory>
    requires room { 4 ≤ length bytes.now }
    requires form { form_at (get_or bytes.now 0 0) ≡ Some Form.Branch }
    requires here { here + 4 < 2 ^ 32 }
    requires moved { moved + 4 < 2 ^ 32 }
    ensures step { IfOk result
        (λ n. 0 < n → StepsOver n bytes.now most here moved holes.old.items holes.new.items) }
    ensures none { IfOk result (λ n. n ≡ 0 → holes.new.items ≡ holes.old.items) }
{
    if most < 4 {
        return Ok(0);
    }
    holes.push(Hole {
        place: here + 1,
        at: moved + 1,
        base: here + 4,
        moved: moved + 4,
        offset: front_s24(&bytes[1..]),
    })?;
    Ok(4)
}

/// The same where the instruction isn't passed by its numbers: a branch, or another.
#[inline(always)]
#[tactic(auto, unfolding(abc_file_types::specs::Opcodes::form_at))]
fn other_over(
    bytes: &[u8],
    most: usize,
    here: u32,
    moved: u32,
    holes: &mut Vec<Hole>,
) -> Result<usize, NoMemory>
    requires room { 4 ≤ length bytes.now }
    requires here { here + 4 < 2 ^ 32 }
    requires moved { moved + 4 < 2 ^ 32 }
    ensures step { IfOk result
        (λ n. 0 < n → StepsOver n bytes.now most here moved holes.old.items holes.new.items) }
    ensures none { IfOk result (λ n. n ≡ 0 → holes.new.items ≡ holes.old.items) }
{
    let Some(info) = opcode(bytes[0]) else {
        return Ok(0);
    };
    match info.form {
        Form::Branch => note_branch(bytes, most, here, moved, holes),
        _ => Ok(0),
    }
}

/// How many bytes the instruction at the front of so many has, where it is in its shortest form and no switch, and notes its
/// offset where it is a branch; 0, and nothing is noted, where it is another.
#[inline(always)]
fn step_over(
    bytes: &[u8],
    most: usize,
    here: u32,
    moved: u32,
    holes: &mut Vec<Hole>,
) -> Result<usize, NoMemory>
    requires room { 4 ≤ length bytes.now }
    requires here { here + 4 < 2 ^ 32 }
    requires moved { moved + 4 < 2 ^ 32 }
    ensures step { IfOk result
        (λ n. 0 < n → StepsOver n bytes.now most here moved holes.old.items holes.new.items) }
    ensures none { IfOk result (λ n. n ≡ 0 → holes.new.items ≡ holes.old.items) }
{
    let count = step_len(bytes);
    if count == 0 {
        return other_over(bytes, most, here, moved, holes);
    }
    if count > most {
        return Ok(0);
    }
    Ok(count)
}

/// Goes over instructions at the front that are in their shortest forms, so many bytes at most, as far as they go and are no
/// switches. They start at a place of the code as it was read, and at one of the canonical code. Marks each, and notes the
/// offsets of branches. Gives how many bytes they have.
#[inline(never)]
pub(crate) fn run(
    bytes: &[u8],
    most: usize,
    here: u32,
    moved: u32,
    marks: &mut Marks,
    holes: &mut Vec<Hole>,
) -> Result<usize, NoMemory>
    requires room { 0 < most → most + 4 ≤ length bytes.now }
    requires places { here + most ≤ length marks.old }
    requires here { here + most < 2 ^ 23 }
    requires moved { moved ≤ here }
    ensures most { IfOk result (λ n. n ≤ most) }
    ensures runs { IfOk result
        (Runs bytes.now here moved (mark_at marks.old) (mark_at marks.new) holes.old.items holes.new.items) }
{
    let mut at = 0;
    while at < most {
        let start = moved + at as u32;
        let count = step_over(&bytes[at..], most - at, here + at as u32, start, holes)?;
        if count == 0 {
            break;
        }
        marks.put(here as usize + at, start);
        at += count;
    }
    Ok(at)
}
