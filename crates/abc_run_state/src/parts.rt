ghost use Rattle.std.specs.Prelude.{◌≡◌, IfOk};
ghost use Rattle.abc_heap_store.specs.Texts.{IsText};
ghost use Rattle.abc_objects.specs.Stands.{StandsOver};
ghost use Rattle.abc_objects.specs.Values.{Exists};
ghost use Rattle.abc_objects.specs.Growing.{Grows};
ghost use Rattle.abc_ops.specs.Left.{LeavesHeap};
ghost use Rattle.abc_meaning.specs.Ops.{coerce_to, coerces, compares, computes_one, computes_two, converts, spells};
ghost use Rattle.abc_run_state.specs.Outer.{Outer, setting_in, world};
ghost use Rattle.abc_run_state.specs.Standing.{Stays};
ghost use Rattle.abc_run_state.specs.Stops.{part_outcome, stop_of_end};

use crate::state::{State, Stop};
use abc_heap_values::{Conversion, Span, Value};
use abc_link::Linked;
use abc_link_names::Ty;
use abc_objects::Arena;
use abc_ops::OpEnd;

/// Why a step goes no further where an operation has no value.
fn stop_for(end: OpEnd) -> Stop
    ensures { result ≡ stop_of_end end }
{
    match end {
        OpEnd::Profile(fault) => Stop::Faults(fault),
        OpEnd::Full(limit) => Stop::Fills(limit),
        OpEnd::Throw(class) => Stop::Errs(class),
    }
}

/// What a conversion makes of a value.
#[inline(always)]
pub fn convert(linked: &Linked, s: &mut State, to: Conversion, v: Value) -> Result<Value, Stop>
    ghost out: { Outer }
    requires over { StandsOver linked.now s.old.arena }
    requires value { Exists linked.now s.old.arena v }
    ensures part { converts (setting_in linked.now out) to v (world s.old out)
        ≡ part_outcome result (world s.new out) }
    ensures stays { Stays linked.now s.old s.new }
    ensures there { IfOk result (Exists linked.now s.new.arena) }
{
    match abc_ops::convert(linked, &mut s.arena, to, v) {
        Ok(made) => Ok(made),
        Err(end) => Err(stop_for(end)),
    }
}

/// A value coerced to a type, as it is computed.
#[inline(always)]
fn coerce_in(linked: &Linked, a: &mut Arena, ty: Ty, v: Value) -> Result<Value, OpEnd>
    requires over { StandsOver linked.now a.old }
    requires value { Exists linked.now a.old v }
    ensures left { LeavesHeap (coerce_to linked.now a.old ty v) result a.new }
    ensures over { StandsOver linked.now a.new }
    ensures grows { Grows a.old a.new }
    ensures there { IfOk result (Exists linked.now a.new) }
{
    abc_ops::coerce(linked, a, ty, v)
}

/// A value coerced to a type.
#[inline(always)]
pub fn coerce(linked: &Linked, s: &mut State, ty: Ty, v: Value) -> Result<Value, Stop>
    ghost out: { Outer }
    requires over { StandsOver linked.now s.old.arena }
    requires value { Exists linked.now s.old.arena v }
    ensures part { coerces (setting_in linked.now out) ty v (world s.old out)
        ≡ part_outcome result (world s.new out) }
    ensures stays { Stays linked.now s.old s.new }
    ensures there { IfOk result (Exists linked.now s.new.arena) }
{
    match coerce_in(linked, &mut s.arena, ty, v) {
        Ok(made) => Ok(made),
        Err(end) => Err(stop_for(end)),
    }
}

/// What an opcode computes of one value.
#[inline(always)]
pub fn compute_one(linked: &Linked, s: &mut State, op: u8, v: Value) -> Result<Value, Stop>
    ghost out: { Outer }
    requires over { StandsOver linked.now s.old.arena }
    requires value { Exists linked.now s.old.arena v }
    ensures part { computes_one op v (world s.old out) ≡ part_outcome result (world s.new out) }
    ensures stays { Stays linked.now s.old s.new }
    ensures there { IfOk result (Exists linked.now s.new.arena) }
{
    match abc_ops::unary(linked, &mut s.arena, op, v) {
        Ok(made) => Ok(made),
        Err(end) => Err(stop_for(end)),
    }
}

/// What an opcode computes of two values.
#[inline(always)]
pub fn compute_two(
    linked: &Linked,
    s: &mut State,
    op: u8,
    x: Value,
    y: Value,
) -> Result<Value, Stop>
    ghost out: { Outer }
    requires over { StandsOver linked.now s.old.arena }
    requires left { Exists linked.now s.old.arena x }
    requires right { Exists linked.now s.old.arena y }
    ensures part { computes_two (setting_in linked.now out) op x y (world s.old out)
        ≡ part_outcome result (world s.new out) }
    ensures stays { Stays linked.now s.old s.new }
    ensures there { IfOk result (Exists linked.now s.new.arena) }
{
    match abc_ops::binary(linked, &mut s.arena, op, x, y) {
        Ok(made) => Ok(made),
        Err(end) => Err(stop_for(end)),
    }
}

/// How an opcode compares two values.
#[inline(always)]
pub fn compare(linked: &Linked, s: &State, op: u8, x: Value, y: Value) -> Result<bool, Stop>
    ghost out: { Outer }
    requires over { StandsOver linked.now s.now.arena }
    requires left { Exists linked.now s.now.arena x }
    requires right { Exists linked.now s.now.arena y }
    ensures { compares (setting_in linked.now out) op x y (world s.now out)
        ≡ part_outcome result (world s.now out) }
{
    match abc_ops::compare(linked, &s.arena, op, x, y) {
        Ok(is) => Ok(is),
        Err(end) => Err(stop_for(end)),
    }
}

/// The text of a value.
pub fn spell(linked: &Linked, s: &mut State, v: Value) -> Result<Span, Stop>
    ghost out: { Outer }
    requires over { StandsOver linked.now s.old.arena }
    requires value { Exists linked.now s.old.arena v }
    ensures part { spells (setting_in linked.now out) v (world s.old out)
        ≡ part_outcome result (world s.new out) }
    ensures stays { Stays linked.now s.old s.new }
    ensures there { IfOk result (IsText linked.now.file.strings s.new.arena) }
{
    match abc_ops::convert(linked, &mut s.arena, Conversion::ConvertS, v) {
        Ok(Value::Text(text)) => Ok(text),
        Ok(_) => unreachable!(),
        Err(end) => Err(stop_for(end)),
    }
}
