ghost use Rattle.std.specs.Prelude.{◌≡◌, IfOk};
ghost use Rattle.abc_heap_store.specs.Heap.{Heap};
ghost use Rattle.abc_link_names.specs.Linked.{LinkedFile};
ghost use Rattle.abc_objects.specs.Growing.{Grows};
ghost use Rattle.abc_objects.specs.Stands.{StandsOver};
ghost use Rattle.abc_objects.specs.Values.{Exists};
ghost use Rattle.abc_ops.specs.Coercions.{Coerces, CoercionKeeps, value_kept_by, undefined_as_null as null_for_undefined};

use crate::conversions::convert;
use crate::end::OpEnd;
use crate::types::is_of;
use abc_base::HostClass;
use abc_heap_values::{Conversion, Value, is_nothing, is_undefined};
use abc_link::Linked;
use abc_link_names::Ty;
use abc_objects::Arena;

fn undefined_as_null(v: Value) -> Value
    ensures value { result ≡ null_for_undefined v }
    ensures there { (l : LinkedFile) (h : Heap) → Exists l h v → Exists l h result }
{
    if is_undefined(v) { Value::Null } else { v }
}

/// The value where it is of a type; undefined and null become null.
fn keep_by(is: bool, v: Value) -> Result<Value, OpEnd>
    ensures value { result ≡ value_kept_by is v }
    ensures there { (l : LinkedFile) (h : Heap) → Exists l h v → IfOk result (Exists l h) }
{
    if is_nothing(v) {
        return Ok(Value::Null);
    }
    if is {
        return Ok(v);
    }
    Err(OpEnd::Throw(HostClass::TypeError))
}

fn keep(l: &Linked, a: &Arena, ty: Ty, v: Value) -> Result<Value, OpEnd>
    requires over { StandsOver l.now a.now }
    requires value { Exists l.now a.now v }
    ensures kept { CoercionKeeps l.now a.now ty v result }
    ensures there { IfOk result (Exists l.now a.now) }
{
    let is = is_of(l, a, ty, v);
    keep_by(is, v)
}

/// The value that coercion to a type gives. int, uint, Number, Boolean and String convert, and end as `convert` does. To a
/// class, an interface or Namespace, undefined and null become null, a value of the type stays, and any other throws a
/// TypeError.
#[inline(always)]
#[tactic(auto, using(crate::proofs::Staying::grows_itself))]
pub fn coerce(l: &Linked, a: &mut Arena, ty: Ty, v: Value) -> Result<Value, OpEnd>
    requires over { StandsOver l.now a.old }
    requires value { Exists l.now a.old v }
    ensures left { Coerces l.now a.old a.new ty v result }
    ensures over { StandsOver l.now a.new }
    ensures grows { Grows a.old a.new }
    ensures there { IfOk result (Exists l.now a.new) }
{
    match ty {
        Ty::Any => Ok(v),
        Ty::Void => Ok(Value::Undefined),
        Ty::Object => Ok(undefined_as_null(v)),
        Ty::Int => convert(l, a, Conversion::ConvertI, v),
        Ty::UInt => convert(l, a, Conversion::ConvertU, v),
        Ty::Number => convert(l, a, Conversion::ConvertD, v),
        Ty::Boolean => convert(l, a, Conversion::ConvertB, v),
        Ty::Text => convert(l, a, Conversion::CoerceS, v),
        Ty::Space => keep(l, a, ty, v),
        Ty::Of(_) => keep(l, a, ty, v),
        Ty::Interface(_) => keep(l, a, ty, v),
    }
}
