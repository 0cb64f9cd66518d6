ghost use Rattle.std.specs.Prelude.{◌≡◌};
ghost use Rattle.abc_verify_typing.specs.Instructions.{opcode};
ghost use Rattle.abc_run_state.specs.Outer.{Outer};
ghost use Rattle.abc_file_types.specs.declared.code.Instr.TheVariants.{Branch, One, Plain, Two};
ghost use Rattle.abc_run_dispatch.specs.Dispatching.{CanDispatch, DispatchesHere};

use crate::arms::{
    call_arm, class_arm, comparison_arm, constant_arm, constant_inline, construct_arm,
    construct_property_arm, control_arm, control_inline, convert_arm, convert_fast, count_arm,
    double_arm, double_fast, find_arm, first_branch_arm, first_branch_fast, first_branch_inline,
    last_branch_arm, last_branch_fast, late_arm, local_arm, new_arm, next_arm, property_arm,
    property_call_arm, property_fast, push_arm, return_arm, scope_arm, single_arm, slot_arm,
    super_arm, super_call_arm, typed_arm, walk_arm,
};
use crate::groups::{Alone, Numbered, Paired, group_alone, group_numbered, group_paired};
use crate::parts::{number_of, opcode_of, second_of};
use abc_file_types::{Instr, op};
use abc_link::Linked;
use abc_run_state::{Left, State, Stop, goes};
use abc_run_values::{run_byte, run_debug, run_scope_object, run_short, run_switch};

/// An opcode that stands alone, by its group.
#[inline(never)]
fn run_rare_alone(linked: &Linked, s: &mut State, op: u8, left: &mut Result<Left, Stop>) -> bool
    ghost out: { Outer }
    requires { CanDispatch linked.now out (Plain op) s.old left.old }
    ensures { DispatchesHere linked.now out (Plain op) s.old result left.new s.new }
{
    match group_alone(op) {
        Alone::Control => control_arm(linked, s, op, left),
        Alone::Walk => walk_arm(linked, s, op, left),
        Alone::Push => push_arm(linked, s, op, left),
        Alone::Return => return_arm(linked, s, op, left),
        Alone::Scope => scope_arm(linked, s, op, left),
        Alone::Convert => convert_arm(linked, s, op, left),
        Alone::Late => late_arm(linked, s, op, left),
        Alone::Single => single_arm(linked, s, op, left),
        Alone::Double => double_arm(linked, s, op, left),
        Alone::Comparison => comparison_arm(linked, s, op, left),
        Alone::Local => local_arm(linked, s, op, left),
    }
}

/// An opcode with one number, by its group.
#[inline(never)]
fn run_rare_numbered(
    linked: &Linked,
    s: &mut State,
    op: u8,
    n: u32,
    left: &mut Result<Left, Stop>,
) -> bool
    ghost out: { Outer }
    requires { CanDispatch linked.now out (One op n) s.old left.old }
    ensures { DispatchesHere linked.now out (One op n) s.old result left.new s.new }
{
    match group_numbered(op) {
        Numbered::Super => super_arm(linked, s, op, n, left),
        Numbered::Constant => constant_arm(linked, s, op, n, left),
        Numbered::New => new_arm(linked, s, op, n, left),
        Numbered::Call => call_arm(linked, s, n, left),
        Numbered::Construct => construct_arm(linked, s, n, left),
        Numbered::Class => class_arm(linked, s, n, left),
        Numbered::Find => find_arm(linked, s, op, n, left),
        Numbered::Property => property_arm(linked, s, op, n, left),
        Numbered::Slot => slot_arm(linked, s, op, n, left),
        Numbered::Typed => typed_arm(linked, s, op, n, left),
        Numbered::Count => count_arm(linked, s, op, n, left),
    }
}

/// An opcode with two numbers.
#[inline(always)]
fn run_paired(
    linked: &Linked,
    s: &mut State,
    op: u8,
    n: u32,
    count: u32,
    left: &mut Result<Left, Stop>,
) -> bool
    ghost out: { Outer }
    requires { CanDispatch linked.now out (Two op n count) s.old left.old }
    ensures { DispatchesHere linked.now out (Two op n count) s.old result left.new s.new }
{
    match group_paired(op) {
        Paired::Next => next_arm(linked, s, n, count, left),
        Paired::SuperCall => super_call_arm(linked, s, op, n, count, left),
        Paired::PropertyCall => property_call_arm(linked, s, op, n, count, left),
        Paired::Construct => construct_property_arm(linked, s, n, count, left),
    }
}

/// A branch, by its group.
#[inline(never)]
fn run_rare_branch(
    linked: &Linked,
    s: &mut State,
    op: u8,
    target: u32,
    left: &mut Result<Left, Stop>,
) -> bool
    ghost out: { Outer }
    requires { CanDispatch linked.now out (Branch op target) s.old left.old }
    ensures { DispatchesHere linked.now out (Branch op target) s.old result left.new s.new }
{
    if op < op::IFEQ {
        first_branch_arm(linked, s, op, target, left)
    } else {
        last_branch_arm(linked, s, op, target, left)
    }
}

/// An instruction, by its form.
#[inline(never)]
fn run_other(linked: &Linked, s: &mut State, instr: &Instr, left: &mut Result<Left, Stop>) -> bool
    ghost out: { Outer }
    requires { CanDispatch linked.now out instr.now s.old left.old }
    ensures { DispatchesHere linked.now out instr.now s.old result left.new s.new }
{
    match instr {
        Instr::Plain(op) => run_rare_alone(linked, s, *op, left),
        Instr::One(op, n) => run_rare_numbered(linked, s, *op, *n, left),
        Instr::Two(op, n, count) => run_paired(linked, s, *op, *n, *count, left),
        Instr::Branch(op, target) => run_rare_branch(linked, s, *op, *target, left),
        Instr::Switch { default, cases } => goes(
            run_switch(linked, s, *default, cases.as_slice()),
            left,
        ),
        Instr::Byte(n) => goes(run_byte(linked, s, *n), left),
        Instr::Short(n) => goes(run_short(linked, s, *n), left),
        Instr::ScopeObject(n) => goes(run_scope_object(linked, s, *n), left),
        Instr::Debug {
            kind,
            name,
            reg,
            extra,
        } => goes(run_debug(linked, s, *kind, *name, *reg, *extra), left),
    }
}

/// `pushbyte`, or an instruction of another form.
#[inline(always)]
fn run_byte_or_other(
    linked: &Linked,
    s: &mut State,
    instr: &Instr,
    left: &mut Result<Left, Stop>,
) -> bool
    ghost out: { Outer }
    requires { CanDispatch linked.now out instr.now s.old left.old }
    ensures { DispatchesHere linked.now out instr.now s.old result left.new s.new }
{
    match instr {
        Instr::Byte(n) => goes(run_byte(linked, s, *n), left),
        _ => run_other(linked, s, instr, left),
    }
}

/// What is common, by its opcode, in one table; all else by its form.
#[inline(always)]
fn run_common(
    linked: &Linked,
    s: &mut State,
    op: u8,
    instr: &Instr,
    left: &mut Result<Left, Stop>,
) -> bool
    ghost out: { Outer }
    requires can { CanDispatch linked.now out instr.now s.old left.old }
    requires opcode { op ≡ opcode instr.now }
    ensures { DispatchesHere linked.now out instr.now s.old result left.new s.new }
{
    match op {
        op::LABEL => control_inline(linked, s, op, left),
        op::IFNLT => first_branch_fast(linked, s, op, number_of(instr), left),
        op::IFNLE => first_branch_fast(linked, s, op, number_of(instr), left),
        op::IFNGT => first_branch_fast(linked, s, op, number_of(instr), left),
        op::IFNGE => first_branch_fast(linked, s, op, number_of(instr), left),
        op::JUMP => first_branch_inline(linked, s, op, number_of(instr), left),
        op::IFTRUE => first_branch_inline(linked, s, op, number_of(instr), left),
        op::IFFALSE => first_branch_inline(linked, s, op, number_of(instr), left),
        op::IFLT => last_branch_fast(linked, s, op, number_of(instr), left),
        op::IFLE => last_branch_fast(linked, s, op, number_of(instr), left),
        op::IFGT => last_branch_fast(linked, s, op, number_of(instr), left),
        op::IFGE => last_branch_fast(linked, s, op, number_of(instr), left),
        op::PUSHNULL => push_arm(linked, s, op, left),
        op::PUSHUNDEFINED => push_arm(linked, s, op, left),
        op::PUSHTRUE => push_arm(linked, s, op, left),
        op::PUSHFALSE => push_arm(linked, s, op, left),
        op::POP => push_arm(linked, s, op, left),
        op::DUP => push_arm(linked, s, op, left),
        op::SWAP => push_arm(linked, s, op, left),
        op::PUSHINT => constant_inline(linked, s, op, number_of(instr), left),
        op::CALLPROPERTY => property_call_arm(
            linked,
            s,
            op,
            number_of(instr),
            second_of(instr),
            left,
        ),
        op::RETURNVOID => return_arm(linked, s, op, left),
        op::RETURNVALUE => return_arm(linked, s, op, left),
        op::CALLPROPVOID => property_call_arm(
            linked,
            s,
            op,
            number_of(instr),
            second_of(instr),
            left,
        ),
        op::FINDPROPSTRICT => find_arm(linked, s, op, number_of(instr), left),
        op::GETLEX => find_arm(linked, s, op, number_of(instr), left),
        op::SETPROPERTY => property_fast(linked, s, op, number_of(instr), left),
        op::GETLOCAL => constant_inline(linked, s, op, number_of(instr), left),
        op::SETLOCAL => constant_inline(linked, s, op, number_of(instr), left),
        op::GETPROPERTY => property_fast(linked, s, op, number_of(instr), left),
        op::GETSLOT => slot_arm(linked, s, op, number_of(instr), left),
        op::SETSLOT => slot_arm(linked, s, op, number_of(instr), left),
        op::CONVERT_I => convert_fast(linked, s, op, left),
        op::CONVERT_U => convert_fast(linked, s, op, left),
        op::CONVERT_D => convert_fast(linked, s, op, left),
        op::INCREMENT => single_arm(linked, s, op, left),
        op::DECREMENT => single_arm(linked, s, op, left),
        op::NOT => single_arm(linked, s, op, left),
        op::ADD => double_fast(linked, s, op, left),
        op::SUBTRACT => double_fast(linked, s, op, left),
        op::MULTIPLY => double_fast(linked, s, op, left),
        op::LSHIFT => double_fast(linked, s, op, left),
        op::RSHIFT => double_fast(linked, s, op, left),
        op::URSHIFT => double_fast(linked, s, op, left),
        op::BITAND => double_fast(linked, s, op, left),
        op::BITOR => double_fast(linked, s, op, left),
        op::BITXOR => double_fast(linked, s, op, left),
        op::INCREMENT_I => single_arm(linked, s, op, left),
        op::DECREMENT_I => single_arm(linked, s, op, left),
        op::INCLOCAL_I => count_arm(linked, s, op, number_of(instr), left),
        op::DECLOCAL_I => count_arm(linked, s, op, number_of(instr), left),
        op::ADD_I => double_fast(linked, s, op, left),
        op::SUBTRACT_I => double_fast(linked, s, op, left),
        op::MULTIPLY_I => double_fast(linked, s, op, left),
        op::GETLOCAL_0 => local_arm(linked, s, op, left),
        op::GETLOCAL_1 => local_arm(linked, s, op, left),
        op::GETLOCAL_2 => local_arm(linked, s, op, left),
        op::GETLOCAL_3 => local_arm(linked, s, op, left),
        op::SETLOCAL_0 => local_arm(linked, s, op, left),
        op::SETLOCAL_1 => local_arm(linked, s, op, left),
        op::SETLOCAL_2 => local_arm(linked, s, op, left),
        op::SETLOCAL_3 => local_arm(linked, s, op, left),
        _ => run_other(linked, s, instr, left),
    }
}

/// An instruction.
#[inline(always)]
pub(crate) fn run_instr(
    linked: &Linked,
    s: &mut State,
    instr: &Instr,
    left: &mut Result<Left, Stop>,
) -> bool
    ghost out: { Outer }
    requires { CanDispatch linked.now out instr.now s.old left.old }
    ensures { DispatchesHere linked.now out instr.now s.old result left.new s.new }
{
    match opcode_of(instr) {
        Some(op) => run_common(linked, s, op, instr, left),
        None => run_byte_or_other(linked, s, instr, left),
    }
}
