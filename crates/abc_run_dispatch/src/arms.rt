ghost use Rattle.std.specs.Prelude.{true, ◌≡◌};
ghost use Rattle.abc_run_dispatch.specs.MemberGroups.{property_call_ops, property_ops};
ghost use Rattle.abc_run_dispatch.specs.NewGroups.{new_ops, scope_ops};
ghost use Rattle.abc_run_dispatch.specs.ObjectGroups.{late_ops, slot_ops, walk_ops};
ghost use Rattle.abc_run_values.specs.Groups.{comparison_ops, constant_ops, control_ops, convert_ops, count_ops, double_ops, first_branch_ops, last_branch_ops, local_ops, push_ops, return_ops, single_ops, type_ops};
ghost use Rattle.abc_run_dispatch.specs.ScopeGroups.{find_ops, super_call_ops, super_ops};
ghost use Rattle.abc_run_state.specs.Outer.{Outer};
ghost use Rattle.abc_file_types.specs.Opcodes.{is_in};
ghost use Rattle.abc_file_types.specs.declared.code.Instr.TheVariants.{Branch, One, Plain, Two};
ghost use Rattle.abc_file_types.specs.declared.op.TheConstants.{CALL, CONSTRUCT, CONSTRUCTPROP, HASNEXT2, NEWCLASS};
ghost use Rattle.abc_run_dispatch.specs.Dispatching.{CanDispatch, DispatchesHere};
ghost use Rattle.abc_run_dispatch.specs.StepGroups.{first_order_ops, last_order_ops, to_number_ops};

use crate::calling::{run_call_value, run_property_call};
use crate::classes::run_class;
use crate::constructing::{run_construct, run_construct_property};
use crate::finding::run_find;
use crate::making::run_new;
use crate::properties::{run_element_fast, run_property, run_property_fast};
use crate::scoping::run_scope;
use crate::slots::run_slot;
use crate::supers::{run_super, run_super_call};
use crate::values::{run_late, run_walk};
use crate::walking::run_next;
use abc_link::Linked;
use abc_run_state::{Left, State, Stop, goes, leaves};
use abc_run_values::{
    number_on_top, numbers_on_top, run_comparison, run_constant, run_control, run_convert,
    run_count, run_double, run_first_branch, run_last_branch, run_local, run_push, run_return,
    run_return_fast, run_single, run_typed,
};

// (A group that is rare or long stands in a function of its own, an arm, which the dispatch calls last: so it needs the registers and the memory of
// no such group. What is common and short stands in the dispatch itself. Most operands of operations are numbers: a fast path is that of these, in the
// dispatch itself, and has the contract of the arm, to which it leaves all others. `inline(always)` here would make the functions that call these so
// many times so large that the toolchain takes that hint away from those.)

/// An opcode that goes on, moves operands or drops a scope.
#[inline(never)]
pub(crate) fn control_arm(
    linked: &Linked,
    s: &mut State,
    op: u8,
    left: &mut Result<Left, Stop>,
) -> bool
    ghost out: { Outer }
    requires can { CanDispatch linked.now out (Plain op) s.old left.old }
    requires among { is_in op control_ops ≡ true }
    ensures { DispatchesHere linked.now out (Plain op) s.old result left.new s.new }
{
    goes(run_control(linked, s, op), left)
}

/// The same as `control_arm`, in the dispatch itself.
#[inline]
pub(crate) fn control_inline(
    linked: &Linked,
    s: &mut State,
    op: u8,
    left: &mut Result<Left, Stop>,
) -> bool
    ghost out: { Outer }
    requires can { CanDispatch linked.now out (Plain op) s.old left.old }
    requires among { is_in op control_ops ≡ true }
    ensures { DispatchesHere linked.now out (Plain op) s.old result left.new s.new }
{
    goes(run_control(linked, s, op), left)
}

/// An opcode that walks over properties.
#[inline(never)]
pub(crate) fn walk_arm(
    linked: &Linked,
    s: &mut State,
    op: u8,
    left: &mut Result<Left, Stop>,
) -> bool
    ghost out: { Outer }
    requires can { CanDispatch linked.now out (Plain op) s.old left.old }
    requires among { is_in op walk_ops ≡ true }
    ensures { DispatchesHere linked.now out (Plain op) s.old result left.new s.new }
{
    goes(run_walk(linked, s, op), left)
}

/// An opcode that pushes a value.
#[inline]
pub(crate) fn push_arm(
    linked: &Linked,
    s: &mut State,
    op: u8,
    left: &mut Result<Left, Stop>,
) -> bool
    ghost out: { Outer }
    requires can { CanDispatch linked.now out (Plain op) s.old left.old }
    requires among { is_in op push_ops ≡ true }
    ensures { DispatchesHere linked.now out (Plain op) s.old result left.new s.new }
{
    goes(run_push(linked, s, op), left)
}

/// An opcode that returns.
#[inline(never)]
pub(crate) fn return_arm(
    linked: &Linked,
    s: &mut State,
    op: u8,
    left: &mut Result<Left, Stop>,
) -> bool
    ghost out: { Outer }
    requires can { CanDispatch linked.now out (Plain op) s.old left.old }
    requires among { is_in op return_ops ≡ true }
    ensures { DispatchesHere linked.now out (Plain op) s.old result left.new s.new }
{
    if run_return_fast(linked, s, op, left) {
        return false;
    }
    leaves(run_return(linked, s, op), left)
}

/// An opcode that makes a scope.
#[inline(never)]
pub(crate) fn scope_arm(
    linked: &Linked,
    s: &mut State,
    op: u8,
    left: &mut Result<Left, Stop>,
) -> bool
    ghost out: { Outer }
    requires can { CanDispatch linked.now out (Plain op) s.old left.old }
    requires among { is_in op scope_ops ≡ true }
    ensures { DispatchesHere linked.now out (Plain op) s.old result left.new s.new }
{
    goes(run_scope(linked, s, op), left)
}

/// A conversion.
#[inline(never)]
pub(crate) fn convert_arm(
    linked: &Linked,
    s: &mut State,
    op: u8,
    left: &mut Result<Left, Stop>,
) -> bool
    ghost out: { Outer }
    requires can { CanDispatch linked.now out (Plain op) s.old left.old }
    requires among { is_in op convert_ops ≡ true }
    ensures { DispatchesHere linked.now out (Plain op) s.old result left.new s.new }
{
    goes(run_convert(linked, s, op), left)
}

/// The same as `convert_arm`, in the dispatch itself.
#[inline]
pub(crate) fn convert_inline(
    linked: &Linked,
    s: &mut State,
    op: u8,
    left: &mut Result<Left, Stop>,
) -> bool
    ghost out: { Outer }
    requires can { CanDispatch linked.now out (Plain op) s.old left.old }
    requires among { is_in op convert_ops ≡ true }
    ensures { DispatchesHere linked.now out (Plain op) s.old result left.new s.new }
{
    goes(run_convert(linked, s, op), left)
}

/// A conversion to a number. The fast path is that of a number; what else is on top goes the way of `convert_arm`.
#[inline]
pub(crate) fn convert_fast(
    linked: &Linked,
    s: &mut State,
    op: u8,
    left: &mut Result<Left, Stop>,
) -> bool
    ghost out: { Outer }
    requires can { CanDispatch linked.now out (Plain op) s.old left.old }
    requires among { is_in op to_number_ops ≡ true }
    ensures { DispatchesHere linked.now out (Plain op) s.old result left.new s.new }
{
    if number_on_top(&s.frames) {
        convert_inline(linked, s, op, left)
    } else {
        convert_arm(linked, s, op, left)
    }
}

/// An opcode that asks for the type of a value that is known late.
#[inline(never)]
pub(crate) fn late_arm(
    linked: &Linked,
    s: &mut State,
    op: u8,
    left: &mut Result<Left, Stop>,
) -> bool
    ghost out: { Outer }
    requires can { CanDispatch linked.now out (Plain op) s.old left.old }
    requires among { is_in op late_ops ≡ true }
    ensures { DispatchesHere linked.now out (Plain op) s.old result left.new s.new }
{
    goes(run_late(linked, s, op), left)
}

/// An opcode that computes of one value.
#[inline(never)]
pub(crate) fn single_arm(
    linked: &Linked,
    s: &mut State,
    op: u8,
    left: &mut Result<Left, Stop>,
) -> bool
    ghost out: { Outer }
    requires can { CanDispatch linked.now out (Plain op) s.old left.old }
    requires among { is_in op single_ops ≡ true }
    ensures { DispatchesHere linked.now out (Plain op) s.old result left.new s.new }
{
    goes(run_single(linked, s, op), left)
}

/// An opcode that computes of two values.
#[inline(never)]
pub(crate) fn double_arm(
    linked: &Linked,
    s: &mut State,
    op: u8,
    left: &mut Result<Left, Stop>,
) -> bool
    ghost out: { Outer }
    requires can { CanDispatch linked.now out (Plain op) s.old left.old }
    requires among { is_in op double_ops ≡ true }
    ensures { DispatchesHere linked.now out (Plain op) s.old result left.new s.new }
{
    goes(run_double(linked, s, op), left)
}

/// The same as `double_arm`, in the dispatch itself.
#[inline]
pub(crate) fn double_inline(
    linked: &Linked,
    s: &mut State,
    op: u8,
    left: &mut Result<Left, Stop>,
) -> bool
    ghost out: { Outer }
    requires can { CanDispatch linked.now out (Plain op) s.old left.old }
    requires among { is_in op double_ops ≡ true }
    ensures { DispatchesHere linked.now out (Plain op) s.old result left.new s.new }
{
    goes(run_double(linked, s, op), left)
}

/// The same as `double_arm`. The fast path is that of two numbers; other operands go the way of `double_arm`.
#[inline]
pub(crate) fn double_fast(
    linked: &Linked,
    s: &mut State,
    op: u8,
    left: &mut Result<Left, Stop>,
) -> bool
    ghost out: { Outer }
    requires can { CanDispatch linked.now out (Plain op) s.old left.old }
    requires among { is_in op double_ops ≡ true }
    ensures { DispatchesHere linked.now out (Plain op) s.old result left.new s.new }
{
    if numbers_on_top(&s.frames) {
        double_inline(linked, s, op, left)
    } else {
        double_arm(linked, s, op, left)
    }
}

/// A comparison.
#[inline(never)]
pub(crate) fn comparison_arm(
    linked: &Linked,
    s: &mut State,
    op: u8,
    left: &mut Result<Left, Stop>,
) -> bool
    ghost out: { Outer }
    requires can { CanDispatch linked.now out (Plain op) s.old left.old }
    requires among { is_in op comparison_ops ≡ true }
    ensures { DispatchesHere linked.now out (Plain op) s.old result left.new s.new }
{
    goes(run_comparison(linked, s, op), left)
}

/// An opcode that reads or writes one of the first locals.
#[inline]
pub(crate) fn local_arm(
    linked: &Linked,
    s: &mut State,
    op: u8,
    left: &mut Result<Left, Stop>,
) -> bool
    ghost out: { Outer }
    requires can { CanDispatch linked.now out (Plain op) s.old left.old }
    requires among { is_in op local_ops ≡ true }
    ensures { DispatchesHere linked.now out (Plain op) s.old result left.new s.new }
{
    goes(run_local(linked, s, op), left)
}

/// A property of the base.
#[inline(never)]
pub(crate) fn super_arm(
    linked: &Linked,
    s: &mut State,
    op: u8,
    n: u32,
    left: &mut Result<Left, Stop>,
) -> bool
    ghost out: { Outer }
    requires can { CanDispatch linked.now out (One op n) s.old left.old }
    requires among { is_in op super_ops ≡ true }
    ensures { DispatchesHere linked.now out (One op n) s.old result left.new s.new }
{
    goes(run_super(linked, s, op, n), left)
}

/// A constant, or a local.
#[inline(never)]
pub(crate) fn constant_arm(
    linked: &Linked,
    s: &mut State,
    op: u8,
    n: u32,
    left: &mut Result<Left, Stop>,
) -> bool
    ghost out: { Outer }
    requires can { CanDispatch linked.now out (One op n) s.old left.old }
    requires among { is_in op constant_ops ≡ true }
    ensures { DispatchesHere linked.now out (One op n) s.old result left.new s.new }
{
    goes(run_constant(linked, s, op, n), left)
}

/// The same as `constant_arm`, in the dispatch itself.
#[inline]
pub(crate) fn constant_inline(
    linked: &Linked,
    s: &mut State,
    op: u8,
    n: u32,
    left: &mut Result<Left, Stop>,
) -> bool
    ghost out: { Outer }
    requires can { CanDispatch linked.now out (One op n) s.old left.old }
    requires among { is_in op constant_ops ≡ true }
    ensures { DispatchesHere linked.now out (One op n) s.old result left.new s.new }
{
    goes(run_constant(linked, s, op, n), left)
}

/// An opcode that makes an object.
#[inline(never)]
pub(crate) fn new_arm(
    linked: &Linked,
    s: &mut State,
    op: u8,
    n: u32,
    left: &mut Result<Left, Stop>,
) -> bool
    ghost out: { Outer }
    requires can { CanDispatch linked.now out (One op n) s.old left.old }
    requires among { is_in op new_ops ≡ true }
    ensures { DispatchesHere linked.now out (One op n) s.old result left.new s.new }
{
    goes(run_new(linked, s, op, n), left)
}

/// A call of a value.
#[inline(never)]
pub(crate) fn call_arm(
    linked: &Linked,
    s: &mut State,
    n: u32,
    left: &mut Result<Left, Stop>,
) -> bool
    ghost out: { Outer }
    requires { CanDispatch linked.now out (One CALL n) s.old left.old }
    ensures { DispatchesHere linked.now out (One CALL n) s.old result left.new s.new }
{
    leaves(run_call_value(linked, s, n), left)
}

/// `new` on a value.
#[inline(never)]
pub(crate) fn construct_arm(
    linked: &Linked,
    s: &mut State,
    n: u32,
    left: &mut Result<Left, Stop>,
) -> bool
    ghost out: { Outer }
    requires { CanDispatch linked.now out (One CONSTRUCT n) s.old left.old }
    ensures { DispatchesHere linked.now out (One CONSTRUCT n) s.old result left.new s.new }
{
    goes(run_construct(linked, s, n), left)
}

/// A class that is made.
#[inline(never)]
pub(crate) fn class_arm(
    linked: &Linked,
    s: &mut State,
    n: u32,
    left: &mut Result<Left, Stop>,
) -> bool
    ghost out: { Outer }
    requires { CanDispatch linked.now out (One NEWCLASS n) s.old left.old }
    ensures { DispatchesHere linked.now out (One NEWCLASS n) s.old result left.new s.new }
{
    goes(run_class(linked, s, n), left)
}

/// A search in scopes.
#[inline(never)]
pub(crate) fn find_arm(
    linked: &Linked,
    s: &mut State,
    op: u8,
    n: u32,
    left: &mut Result<Left, Stop>,
) -> bool
    ghost out: { Outer }
    requires can { CanDispatch linked.now out (One op n) s.old left.old }
    requires among { is_in op find_ops ≡ true }
    ensures { DispatchesHere linked.now out (One op n) s.old result left.new s.new }
{
    goes(run_find(linked, s, op, n), left)
}

/// A property that is read, written or deleted.
#[inline(never)]
pub(crate) fn property_arm(
    linked: &Linked,
    s: &mut State,
    op: u8,
    n: u32,
    left: &mut Result<Left, Stop>,
) -> bool
    ghost out: { Outer }
    requires can { CanDispatch linked.now out (One op n) s.old left.old }
    requires among { is_in op property_ops ≡ true }
    ensures { DispatchesHere linked.now out (One op n) s.old result left.new s.new }
{
    if run_property_fast(linked, s, op, n) {
        return true;
    }
    goes(run_property(linked, s, op, n), left)
}

/// The same as `property_arm`. The fast path is that of an element by its number; each other name goes the way of `property_arm`.
#[inline]
pub(crate) fn property_fast(
    linked: &Linked,
    s: &mut State,
    op: u8,
    n: u32,
    left: &mut Result<Left, Stop>,
) -> bool
    ghost out: { Outer }
    requires can { CanDispatch linked.now out (One op n) s.old left.old }
    requires among { is_in op property_ops ≡ true }
    ensures { DispatchesHere linked.now out (One op n) s.old result left.new s.new }
{
    if run_element_fast(linked, s, op, n) {
        return true;
    }
    property_arm(linked, s, op, n, left)
}

/// A slot that is read or written.
#[inline(never)]
pub(crate) fn slot_arm(
    linked: &Linked,
    s: &mut State,
    op: u8,
    n: u32,
    left: &mut Result<Left, Stop>,
) -> bool
    ghost out: { Outer }
    requires can { CanDispatch linked.now out (One op n) s.old left.old }
    requires among { is_in op slot_ops ≡ true }
    ensures { DispatchesHere linked.now out (One op n) s.old result left.new s.new }
{
    goes(run_slot(linked, s, op, n), left)
}

/// An opcode with a type.
#[inline(never)]
pub(crate) fn typed_arm(
    linked: &Linked,
    s: &mut State,
    op: u8,
    n: u32,
    left: &mut Result<Left, Stop>,
) -> bool
    ghost out: { Outer }
    requires can { CanDispatch linked.now out (One op n) s.old left.old }
    requires among { is_in op type_ops ≡ true }
    ensures { DispatchesHere linked.now out (One op n) s.old result left.new s.new }
{
    goes(run_typed(linked, s, op, n), left)
}

/// A local that counts.
#[inline(never)]
pub(crate) fn count_arm(
    linked: &Linked,
    s: &mut State,
    op: u8,
    n: u32,
    left: &mut Result<Left, Stop>,
) -> bool
    ghost out: { Outer }
    requires can { CanDispatch linked.now out (One op n) s.old left.old }
    requires among { is_in op count_ops ≡ true }
    ensures { DispatchesHere linked.now out (One op n) s.old result left.new s.new }
{
    goes(run_count(linked, s, op, n), left)
}

/// The next property of a walk.
#[inline(never)]
pub(crate) fn next_arm(
    linked: &Linked,
    s: &mut State,
    n: u32,
    count: u32,
    left: &mut Result<Left, Stop>,
) -> bool
    ghost out: { Outer }
    requires { CanDispatch linked.now out (Two HASNEXT2 n count) s.old left.old }
    ensures { DispatchesHere linked.now out (Two HASNEXT2 n count) s.old result left.new s.new }
{
    goes(run_next(linked, s, n, count), left)
}

/// A call of a property of the base.
#[inline(never)]
pub(crate) fn super_call_arm(
    linked: &Linked,
    s: &mut State,
    op: u8,
    n: u32,
    count: u32,
    left: &mut Result<Left, Stop>,
) -> bool
    ghost out: { Outer }
    requires can { CanDispatch linked.now out (Two op n count) s.old left.old }
    requires among { is_in op super_call_ops ≡ true }
    ensures { DispatchesHere linked.now out (Two op n count) s.old result left.new s.new }
{
    leaves(run_super_call(linked, s, op, n, count), left)
}

/// A call of a property.
#[inline(never)]
pub(crate) fn property_call_arm(
    linked: &Linked,
    s: &mut State,
    op: u8,
    n: u32,
    count: u32,
    left: &mut Result<Left, Stop>,
) -> bool
    ghost out: { Outer }
    requires can { CanDispatch linked.now out (Two op n count) s.old left.old }
    requires among { is_in op property_call_ops ≡ true }
    ensures { DispatchesHere linked.now out (Two op n count) s.old result left.new s.new }
{
    run_property_call(linked, s, op, n, count, left)
}

/// `new` on a property.
#[inline(never)]
pub(crate) fn construct_property_arm(
    linked: &Linked,
    s: &mut State,
    n: u32,
    count: u32,
    left: &mut Result<Left, Stop>,
) -> bool
    ghost out: { Outer }
    requires { CanDispatch linked.now out (Two CONSTRUCTPROP n count) s.old left.old }
    ensures { DispatchesHere linked.now out (Two CONSTRUCTPROP n count) s.old result left.new s.new }
{
    goes(run_construct_property(linked, s, n, count), left)
}

/// `ifnlt` to `iffalse`.
#[inline(never)]
pub(crate) fn first_branch_arm(
    linked: &Linked,
    s: &mut State,
    op: u8,
    target: u32,
    left: &mut Result<Left, Stop>,
) -> bool
    ghost out: { Outer }
    requires can { CanDispatch linked.now out (Branch op target) s.old left.old }
    requires among { is_in op first_branch_ops ≡ true }
    ensures { DispatchesHere linked.now out (Branch op target) s.old result left.new s.new }
{
    goes(run_first_branch(linked, s, op, target), left)
}

/// The same as `first_branch_arm`, in the dispatch itself.
#[inline]
pub(crate) fn first_branch_inline(
    linked: &Linked,
    s: &mut State,
    op: u8,
    target: u32,
    left: &mut Result<Left, Stop>,
) -> bool
    ghost out: { Outer }
    requires can { CanDispatch linked.now out (Branch op target) s.old left.old }
    requires among { is_in op first_branch_ops ≡ true }
    ensures { DispatchesHere linked.now out (Branch op target) s.old result left.new s.new }
{
    goes(run_first_branch(linked, s, op, target), left)
}

/// A branch by an order, `ifnlt` to `ifnge`. The fast path is that of two numbers; other operands go the way of `first_branch_arm`.
#[inline]
pub(crate) fn first_branch_fast(
    linked: &Linked,
    s: &mut State,
    op: u8,
    target: u32,
    left: &mut Result<Left, Stop>,
) -> bool
    ghost out: { Outer }
    requires can { CanDispatch linked.now out (Branch op target) s.old left.old }
    requires among { is_in op first_order_ops ≡ true }
    ensures { DispatchesHere linked.now out (Branch op target) s.old result left.new s.new }
{
    if numbers_on_top(&s.frames) {
        first_branch_inline(linked, s, op, target, left)
    } else {
        first_branch_arm(linked, s, op, target, left)
    }
}

/// `ifeq` to `ifstrictne`.
#[inline(never)]
pub(crate) fn last_branch_arm(
    linked: &Linked,
    s: &mut State,
    op: u8,
    target: u32,
    left: &mut Result<Left, Stop>,
) -> bool
    ghost out: { Outer }
    requires can { CanDispatch linked.now out (Branch op target) s.old left.old }
    requires among { is_in op last_branch_ops ≡ true }
    ensures { DispatchesHere linked.now out (Branch op target) s.old result left.new s.new }
{
    goes(run_last_branch(linked, s, op, target), left)
}

/// The same as `last_branch_arm`, in the dispatch itself.
#[inline]
pub(crate) fn last_branch_inline(
    linked: &Linked,
    s: &mut State,
    op: u8,
    target: u32,
    left: &mut Result<Left, Stop>,
) -> bool
    ghost out: { Outer }
    requires can { CanDispatch linked.now out (Branch op target) s.old left.old }
    requires among { is_in op last_branch_ops ≡ true }
    ensures { DispatchesHere linked.now out (Branch op target) s.old result left.new s.new }
{
    goes(run_last_branch(linked, s, op, target), left)
}

/// A branch by an order, `iflt` to `ifge`. The fast path is that of two numbers; other operands go the way of `last_branch_arm`.
#[inline]
pub(crate) fn last_branch_fast(
    linked: &Linked,
    s: &mut State,
    op: u8,
    target: u32,
    left: &mut Result<Left, Stop>,
) -> bool
    ghost out: { Outer }
    requires can { CanDispatch linked.now out (Branch op target) s.old left.old }
    requires among { is_in op last_order_ops ≡ true }
    ensures { DispatchesHere linked.now out (Branch op target) s.old result left.new s.new }
{
    if numbers_on_top(&s.frames) {
        last_branch_inline(linked, s, op, target, left)
    } else {
        last_branch_arm(linked, s, op, target, left)
    }
}
