ghost use Rattle.std.specs.Prelude.{◌≡◌, IfOk};
ghost use Rattle.abc_heap_values.specs.declared.values.Value.TheVariants.{Obj};
ghost use Rattle.abc_run_state.specs.Stops.{part_outcome};
ghost use Rattle.abc_meaning.specs.Members.{with_holder};
ghost use Rattle.abc_meaning.specs.World.{World, pure};
ghost use Rattle.abc_run_names.specs.Receivers.{IsReceiver, receiver_object};

use abc_base::HostClass;
use abc_heap_values::{ObjId, Value};
use abc_run_state::Stop;

/// Null and undefined have nothing.
pub fn is_holder(v: Value) -> Result<(), Stop>
    ensures { (w : World) → with_holder v (pure tt) w ≡ part_outcome result w }
{
    match v {
        Value::Undefined => Err(Stop::Errs(HostClass::TypeError)),
        Value::Null => Err(Stop::Errs(HostClass::TypeError)),
        Value::Num(_) => Ok(()),
        Value::Bool(_) => Ok(()),
        Value::Text(_) => Ok(()),
        Value::Space(_) => Ok(()),
        Value::Obj(_) => Ok(()),
    }
}

/// The object that a receiver is; null throws.
pub fn receiver(v: Value) -> Result<ObjId, Stop>
    requires { IsReceiver v }
    ensures is { (w : World) → receiver_object v w ≡ part_outcome result w }
    ensures object { IfOk result (λ o. v ≡ Obj o) }
{
    match v {
        Value::Obj(o) => Ok(o),
        Value::Null => Err(Stop::Errs(HostClass::TypeError)),
        Value::Undefined => unreachable!(),
        Value::Num(_) => unreachable!(),
        Value::Bool(_) => unreachable!(),
        Value::Text(_) => unreachable!(),
        Value::Space(_) => unreachable!(),
    }
}
