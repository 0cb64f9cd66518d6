ghost use Rattle.std.specs.Prelude.{◌≡◌, true};
ghost use Rattle.abc_run_calls.specs.Arguments.{HasArgumentRoom};
ghost use Rattle.abc_run_values.specs.Here.{RunsHere};
ghost use Rattle.abc_run_dispatch.specs.Dispatching.{IsDoneHereIf};
ghost use Rattle.abc_run_values.specs.Ready.{CanRun};
ghost use Rattle.abc_run_state.specs.Outer.{Outer};
ghost use Rattle.abc_file_types.specs.Opcodes.{is_in};
ghost use Rattle.abc_file_types.specs.declared.code.Instr.TheVariants.{One};
ghost use Rattle.abc_run_dispatch.specs.MemberGroups.{property_ops};

use crate::deleting::run_delete;
use abc_file_types::op;
use abc_link::Linked;
use abc_run_members::{
    get_element_fast, get_property, get_property_fast, set_element_fast, set_property,
    set_property_fast,
};
use abc_run_state::{State, Stop};

/// What reads, writes and deletes a property.
pub fn run_property(linked: &Linked, s: &mut State, op: u8, n: u32) -> Result<(), Stop>
    ghost out: { Outer }
    requires run { CanRun linked.now out s.old (One op n) }
    requires known { HasArgumentRoom linked.now s.old.given.limit }
    requires among { is_in op property_ops ≡ true }
    ensures { RunsHere linked.now out (One op n) s.old result s.new }
{
    match op {
        op::SETPROPERTY => set_property(linked, s, n, false),
        op::GETPROPERTY => get_property(linked, s, n),
        op::INITPROPERTY => set_property(linked, s, n, true),
        op::DELETEPROPERTY => run_delete(linked, s, n),
        _ => unreachable!(),
    }
}

/// The fast path of `run_property`, by a name of which no part comes at run time, where it needs no search: whether it is done. It says
/// no, and has done nothing, where `get_property_fast` and `set_property_fast` do, and of `deleteproperty`.
#[inline(always)]
pub fn run_property_fast(linked: &Linked, s: &mut State, op: u8, n: u32) -> bool
    ghost out: { Outer }
    requires run { CanRun linked.now out s.old (One op n) }
    ensures { IsDoneHereIf result linked.now out (One op n) s.old s.new }
{
    match op {
        op::SETPROPERTY => set_property_fast(linked, s, n, false),
        op::GETPROPERTY => get_property_fast(linked, s, n),
        op::INITPROPERTY => set_property_fast(linked, s, n, true),
        _ => false,
    }
}

/// The fast path of `run_property`, by the number of an element: whether it is done. It says no, and has done nothing, where
/// `get_element_fast` and `set_element_fast` do, and of `deleteproperty`.
#[inline(always)]
pub fn run_element_fast(linked: &Linked, s: &mut State, op: u8, n: u32) -> bool
    ghost out: { Outer }
    requires run { CanRun linked.now out s.old (One op n) }
    ensures { IsDoneHereIf result linked.now out (One op n) s.old s.new }
{
    match op {
        op::SETPROPERTY => set_element_fast(linked, s, n, false),
        op::GETPROPERTY => get_element_fast(linked, s, n),
        op::INITPROPERTY => set_element_fast(linked, s, n, true),
        _ => false,
    }
}
