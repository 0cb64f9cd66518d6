ghost use Rattle.std.specs.Prelude.{◌≡◌, IsSome, Some};
ghost use Rattle.abc_meaning.specs.Late.{or_null};
ghost use Rattle.abc_link_names.specs.Types.{type_of};
ghost use Rattle.abc_frames.specs.Ready.{HasFrameRoom};
ghost use Rattle.abc_objects.specs.Stands.{StandsOver};
ghost use Rattle.abc_objects.specs.Values.{Exists};
ghost use Rattle.abc_run_state.specs.Outer.{Outer};
ghost use Rattle.abc_run_state.specs.Standing.{IsSet};
ghost use Rattle.abc_meaning.specs.Types.{is_of_type};
ghost use Rattle.abc_run_state.specs.Plain.{coerces_named, keeps_named, tests_named};
ghost use Rattle.abc_run_state.specs.Doing.{Does};

use crate::operands::operand;
use crate::parts::coerce;
use crate::state::{State, Stop};
use abc_frames::finish;
use abc_heap_values::Value;
use abc_link::Linked;
use abc_link_names::Ty;
use abc_ops::is_of;

/// The type that a name is, where the meaning knows one.
fn type_named(linked: &Linked, name: u32) -> Ty
    requires { IsSome (type_of linked.now name) }
    ensures { type_of linked.now name ≡ Some result }
{
    match linked.type_of(name) {
        Some(ty) => ty,
        None => unreachable!(),
    }
}

/// Whether a value is of a type.
pub fn is_it(linked: &Linked, s: &State, ty: Ty, v: Value) -> bool
    requires over { StandsOver linked.now s.now.arena }
    requires value { Exists linked.now s.now.arena v }
    ensures { result ≡ is_of_type linked.now s.now.arena ty v }
{
    is_of(linked, &s.arena, ty, v)
}

/// `coerce`.
pub fn coerce_to(linked: &Linked, s: &mut State, name: u32) -> Result<(), Stop>
    ghost out: { Outer }
    requires set { IsSet linked.now s.old }
    requires ready { HasFrameRoom 1 1 s.old.frames }
    requires ty { IsSome (type_of linked.now name) }
    ensures { Does linked.now out (λ p. coerces_named p name) s.old result s.new }
{
    let ty = type_named(linked, name);
    let v = operand(&s.frames, 0);
    let coerced = coerce(linked, s, ty, v)?;
    finish(&mut s.frames, 1, coerced);
    Ok(())
}

/// `astype`: the value, or null where it is not of the type.
pub fn as_type(linked: &Linked, s: &mut State, name: u32) -> Result<(), Stop>
    ghost out: { Outer }
    requires set { IsSet linked.now s.old }
    requires ready { HasFrameRoom 1 1 s.old.frames }
    requires ty { IsSome (type_of linked.now name) }
    ensures { Does linked.now out (λ p. keeps_named p name) s.old result s.new }
{
    let ty = type_named(linked, name);
    let v = operand(&s.frames, 0);
    let is = is_it(linked, s, ty, v);
    finish(&mut s.frames, 1, value_or_null(v, is));
    Ok(())
}

/// A value, or null.
pub fn value_or_null(v: Value, is: bool) -> Value
    ensures { result ≡ or_null v is }
{
    if is { v } else { Value::Null }
}

/// `istype`.
pub fn is_type(linked: &Linked, s: &mut State, name: u32) -> Result<(), Stop>
    ghost out: { Outer }
    requires set { IsSet linked.now s.old }
    requires ready { HasFrameRoom 1 1 s.old.frames }
    requires ty { IsSome (type_of linked.now name) }
    ensures { Does linked.now out (λ p. tests_named p name) s.old result s.new }
{
    let ty = type_named(linked, name);
    let v = operand(&s.frames, 0);
    let is = is_it(linked, s, ty, v);
    finish(&mut s.frames, 1, Value::Bool(is));
    Ok(())
}
