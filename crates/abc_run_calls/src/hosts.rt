ghost use Rattle.std.specs.Prelude.{◌≤◌};
ghost use Rattle.abc_frames.specs.Ready.{HasFrameRoom};
ghost use Rattle.abc_run_state.specs.Outer.{Outer};
ghost use Rattle.abc_run_state.specs.Settling.{given_by_how, taken_by};
ghost use Rattle.abc_run_state.specs.Standing.{IsSet};
ghost use Rattle.abc_run_calls.specs.Calls.{coerces_only, converts_only};
ghost use Rattle.abc_run_state.specs.Doing.{Does};

use abc_base::HostClass;
use abc_heap_values::Conversion;
use abc_link::Linked;
use abc_link_names::Ty;
use abc_run_state::{How, State, Stop, coerce, convert, operand, settle};

/// A class object takes exactly one argument, which is coerced to the class's type.
pub(crate) fn call_class(
    linked: &Linked,
    s: &mut State,
    ty: Ty,
    count: u32,
    how: How,
) -> Result<(), Stop>
    ghost out: { Outer }
    requires set { IsSet linked.now s.old }
    requires ready { HasFrameRoom (taken_by how) (given_by_how how) s.old.frames }
    requires count { count ≤ taken_by how }
    ensures { Does linked.now out (λ p. coerces_only p ty count how) s.old result s.new }
{
    if count != 1 {
        return Err(Stop::Errs(HostClass::ArgumentError));
    }
    let v = operand(&s.frames, 0);
    let made = coerce(linked, s, ty, v)?;
    settle(&mut s.frames, how, made);
    Ok(())
}

/// `new` on a class of the host whose values are no objects takes exactly one argument, which is converted.
pub(crate) fn convert_only(
    linked: &Linked,
    s: &mut State,
    to: Conversion,
    count: u32,
    how: How,
) -> Result<(), Stop>
    ghost out: { Outer }
    requires set { IsSet linked.now s.old }
    requires ready { HasFrameRoom (taken_by how) (given_by_how how) s.old.frames }
    requires count { count ≤ taken_by how }
    ensures { Does linked.now out (λ p. converts_only p to count how) s.old result s.new }
{
    if count != 1 {
        return Err(Stop::Errs(HostClass::ArgumentError));
    }
    let v = operand(&s.frames, 0);
    let made = convert(linked, s, to, v)?;
    settle(&mut s.frames, how, made);
    Ok(())
}
