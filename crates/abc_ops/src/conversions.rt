ghost use Rattle.std.specs.Prelude.{◌≡◌, IfOk};
ghost use Rattle.abc_base.specs.Ranges.{IsNumber};
ghost use Rattle.abc_heap_store.specs.Heap.{Heap};
ghost use Rattle.abc_heap_store.specs.Texts.{IsText};
ghost use Rattle.abc_link_names.specs.Pool.{space as space_in};
ghost use Rattle.abc_link_names.specs.Linked.{LinkedFile};
ghost use Rattle.abc_objects.specs.Growing.{Grows};
ghost use Rattle.abc_objects.specs.Stands.{StandsOver};
ghost use Rattle.abc_objects.specs.Starts.{string_span};
ghost use Rattle.abc_objects.specs.Values.{Exists};
ghost use Rattle.abc_ops.specs.Conversions.{conversion_result, object_or_error, spelling, converted_or_null as text_or_null_of};
ghost use Rattle.abc_ops.specs.Left.{LeavesHeap, as_value, number_or_fault};

use crate::end::OpEnd;
use crate::made::make_number;
use abc_base::{Fault, HostClass};
use abc_heap_values::{Conversion, Span, Value, is_nothing, is_true, to_int, to_number, to_uint};
use abc_link::Linked;
use abc_link_names::space_name;
use abc_objects::{Arena, FixedText, span_of_string};

/// The text of a namespace: its name.
fn name_of_space(l: &Linked, space: u32) -> Span
    ensures { result ≡ string_span l.now.file.strings (space_in l.now.file space).name }
{
    l.linked_law();
    let abc = l.abc();
    span_of_string(&abc.strings, space_name(abc, space))
}

fn spell_as(l: &Linked, a: &mut Arena, v: Value) -> Result<Span, OpEnd>
    requires { Exists l.now a.old v }
    ensures { LeavesHeap (spelling l.now a.old v) result a.new }
{
    match v {
        Value::Undefined => Ok(FixedText::Undefined.span()),
        Value::Null => Ok(FixedText::Null.span()),
        Value::Num(n) => make_number(a, n),
        Value::Bool(true) => Ok(FixedText::True.span()),
        Value::Bool(false) => Ok(FixedText::False.span()),
        Value::Text(s) => Ok(s),
        Value::Space(n) => Ok(name_of_space(l, n)),
        Value::Obj(_) => Err(OpEnd::Profile(Fault::ObjectToPrimitive)),
    }
}

/// The text of a value. That of a number is made, and a namespace has its name.
pub fn spell(l: &Linked, a: &mut Arena, v: Value) -> Result<Span, OpEnd>
    requires over { StandsOver l.now a.old }
    requires value { Exists l.now a.old v }
    ensures left { LeavesHeap (spelling l.now a.old v) result a.new }
    ensures over { StandsOver l.now a.new }
    ensures grows { Grows a.old a.new }
    ensures there { IfOk result (IsText l.now.file.strings a.new) }
{
    spell_as(l, a, v)
}

/// The text of a value, as a value.
fn to_text(l: &Linked, a: &mut Arena, v: Value) -> Result<Value, OpEnd>
    requires over { StandsOver l.now a.old }
    requires value { Exists l.now a.old v }
    ensures left { LeavesHeap (as_value (spelling l.now a.old v)) result a.new }
    ensures over { StandsOver l.now a.new }
    ensures grows { Grows a.old a.new }
    ensures there { IfOk result (Exists l.now a.new) }
{
    match spell(l, a, v) {
        Ok(s) => Ok(Value::Text(s)),
        Err(end) => Err(end),
    }
}

/// The text of a value, and null for undefined and null.
#[tactic(auto, using(crate::proofs::Staying::grows_itself))]
fn text_or_null(l: &Linked, a: &mut Arena, v: Value) -> Result<Value, OpEnd>
    requires over { StandsOver l.now a.old }
    requires value { Exists l.now a.old v }
    ensures left { LeavesHeap (text_or_null_of l.now a.old v) result a.new }
    ensures over { StandsOver l.now a.new }
    ensures grows { Grows a.old a.new }
    ensures there { IfOk result (Exists l.now a.new) }
{
    if is_nothing(v) {
        return Ok(Value::Null);
    }
    to_text(l, a, v)
}

/// The value itself; undefined and null throw a TypeError.
fn to_object(v: Value) -> Result<Value, OpEnd>
    ensures value { result ≡ object_or_error v }
    ensures there { (l : LinkedFile) (h : Heap) → Exists l h v → IfOk result (Exists l h) }
{
    if is_nothing(v) {
        return Err(OpEnd::Throw(HostClass::TypeError));
    }
    Ok(v)
}

/// A number as a value.
pub fn number_value(n: Result<i64, Fault>) -> Result<Value, OpEnd>
    requires { IfOk n IsNumber }
    ensures value { result ≡ number_or_fault n }
    ensures there { (l : LinkedFile) (h : Heap) → IfOk result (Exists l h) }
{
    match n {
        Ok(n) => Ok(Value::Num(n)),
        Err(fault) => Err(OpEnd::Profile(fault)),
    }
}

/// The value that a conversion gives. To a number undefined is the fault NotANumber (but 0 for an integer), a text is
/// TextToNumber, and a namespace or an object ObjectToPrimitive, as is an object to a text. To an object undefined and null
/// throw a TypeError. The text of a number is made: it ends as `Full` of the texts exactly where there is no room for it.
#[tactic(auto, using(crate::proofs::Staying::grows_itself))]
pub fn convert(l: &Linked, a: &mut Arena, to: Conversion, v: Value) -> Result<Value, OpEnd>
    requires over { StandsOver l.now a.old }
    requires value { Exists l.now a.old v }
    ensures left { LeavesHeap (conversion_result l.now a.old to v) result a.new }
    ensures over { StandsOver l.now a.new }
    ensures grows { Grows a.old a.new }
    ensures there { IfOk result (Exists l.now a.new) }
{
    match to {
        Conversion::ConvertS => to_text(l, a, v),
        Conversion::ConvertI => number_value(to_int(v)),
        Conversion::ConvertU => number_value(to_uint(v)),
        Conversion::ConvertD => number_value(to_number(v)),
        Conversion::ConvertB => Ok(Value::Bool(is_true(v))),
        Conversion::ConvertO => to_object(v),
        Conversion::CoerceS => text_or_null(l, a, v),
    }
}
