ghost use Rattle.std.specs.Prelude.{◌≡◌, IfOk};
ghost use Rattle.abc_heap_store.specs.Texts.{IsText};
ghost use Rattle.abc_link_names.specs.Linked.{LinkedFile};
ghost use Rattle.abc_objects.specs.Growing.{Grows};
ghost use Rattle.abc_objects.specs.Stands.{StandsOver};
ghost use Rattle.abc_objects.specs.Values.{Exists};
ghost use Rattle.abc_ops.specs.Left.{LeavesHeap};
ghost use Rattle.abc_ops.specs.Operations.{computation, computed_single, concatenation, joined_texts, joined_to, name_of_what, type_name as type_name_of};

use crate::conversions::{number_value, spell};
use crate::end::OpEnd;
use crate::made::make_joined;
use crate::opcodes::{operation, single};
use abc_file_types::op;
use abc_heap_store::What;
use abc_heap_values::{Span, Value, calculate_value, calculate_values, is_text, is_true};
use abc_link::Linked;
use abc_objects::{Arena, FixedText};

fn name_of_object(what: What) -> FixedText
    ensures { result ≡ name_of_what what }
{
    match what {
        What::Closure { .. } => FixedText::Function,
        What::Trace => FixedText::Function,
        What::Formula(_) => FixedText::Function,
        _ => FixedText::Object,
    }
}

/// The name of a value's type, as `typeof` gives it.
fn type_name(a: &Arena, v: Value) -> FixedText
    requires { (l : LinkedFile) × Exists l a.now v }
    ensures { result ≡ type_name_of a.now v }
{
    match v {
        Value::Undefined => FixedText::Undefined,
        Value::Null => FixedText::Object,
        Value::Num(_) => FixedText::Number,
        Value::Bool(_) => FixedText::Boolean,
        Value::Text(_) => FixedText::Str,
        Value::Space(_) => FixedText::Object,
        Value::Obj(o) => name_of_object(a.what(o)),
    }
}

/// What an opcode computes of a value: 90, 91, 93, 97, C0, C1 and C4 a number, 95 the name of its type, 96 whether it is
/// false. It ends by a fault alone: where the value is made no number, as `convert` says, or the result is out of range.
#[tactic(auto, using(crate::proofs::Staying::grows_itself))]
pub fn unary(l: &Linked, a: &mut Arena, op: u8, v: Value) -> Result<Value, OpEnd>
    requires over { StandsOver l.now a.old }
    requires value { Exists l.now a.old v }
    ensures left { LeavesHeap (computed_single a.old op v) result a.new }
    ensures over { StandsOver l.now a.new }
    ensures grows { Grows a.old a.new }
    ensures there { IfOk result (Exists l.now a.new) }
{
    let _ = l;
    if op == op::TYPEOF {
        return Ok(Value::Text(type_name(a, v).span()));
    }
    if op == op::NOT {
        return Ok(Value::Bool(!is_true(v)));
    }
    number_value(calculate_value(single(op), v))
}

/// Two texts, one after the other.
fn join_texts(l: &Linked, a: &mut Arena, s: Span, t: Span) -> Result<Value, OpEnd>
    requires over { StandsOver l.now a.old }
    requires left { IsText l.now.file.strings a.old s }
    requires right { IsText l.now.file.strings a.old t }
    ensures left { LeavesHeap (joined_texts l.now a.old s t) result a.new }
    ensures over { StandsOver l.now a.new }
    ensures grows { Grows a.old a.new }
    ensures there { IfOk result (Exists l.now a.new) }
{
    match make_joined(l, a, s, t) {
        Ok(both) => Ok(Value::Text(both)),
        Err(end) => Err(end),
    }
}

/// A text, and then that of a value.
fn join_to(l: &Linked, a: &mut Arena, s: Span, y: Value) -> Result<Value, OpEnd>
    requires over { StandsOver l.now a.old }
    requires left { IsText l.now.file.strings a.old s }
    requires right { Exists l.now a.old y }
    ensures left { LeavesHeap (joined_to l.now a.old s y) result a.new }
    ensures over { StandsOver l.now a.new }
    ensures grows { Grows a.old a.new }
    ensures there { IfOk result (Exists l.now a.new) }
{
    match spell(l, a, y) {
        Ok(t) => join_texts(l, a, s, t),
        Err(end) => Err(end),
    }
}

/// The texts of two values, the left made before the right, one after the other.
fn join(l: &Linked, a: &mut Arena, x: Value, y: Value) -> Result<Value, OpEnd>
    requires over { StandsOver l.now a.old }
    requires left { Exists l.now a.old x }
    requires right { Exists l.now a.old y }
    ensures left { LeavesHeap (concatenation l.now a.old x y) result a.new }
    ensures over { StandsOver l.now a.new }
    ensures grows { Grows a.old a.new }
    ensures there { IfOk result (Exists l.now a.new) }
{
    match spell(l, a, x) {
        Ok(s) => join_to(l, a, s, y),
        Err(end) => Err(end),
    }
}

/// What an opcode from A0 to AA or from C5 to C7 computes of two values. A0 joins texts where one of them is a text: each
/// text that it makes, the left before the right, ends it as `Full` of the texts exactly where there is no room for it. Else
/// the left is made a number before the right, with the faults of `convert`; a result out of range or a quotient that is not
/// whole is the fault Range, and a divisor 0 NotANumber.
#[inline(always)]
#[tactic(auto, using(crate::proofs::Staying::grows_itself))]
pub fn binary(l: &Linked, a: &mut Arena, op: u8, x: Value, y: Value) -> Result<Value, OpEnd>
    requires over { StandsOver l.now a.old }
    requires left { Exists l.now a.old x }
    requires right { Exists l.now a.old y }
    ensures left { LeavesHeap (computation l.now a.old op x y) result a.new }
    ensures over { StandsOver l.now a.new }
    ensures grows { Grows a.old a.new }
    ensures there { IfOk result (Exists l.now a.new) }
{
    let texts = is_text(x) || is_text(y);
    if op == op::ADD && texts {
        return join(l, a, x, y);
    }
    number_value(calculate_values(operation(op), x, y))
}
