ghost use Rattle.std.specs.Prelude.{◌≡◌};
ghost use Rattle.abc_heap_values.specs.Equality.{equal_values, number_equals, object_equals, same_number, same_object, is_equal_space, same_text, same_truth, same_values, text_equals};
ghost use Rattle.abc_heap_values.specs.Reads.{IsReadable};

use crate::kinds::{is_nothing, is_null, is_undefined};
use crate::numbers::number_of_truth;
use crate::texts::Texts;
use crate::values::{ObjId, Span, Value};
use abc_base::Fault;

fn is_number(n: i64, v: Value) -> bool
    ensures { result ≡ same_number n v }
{
    match v {
        Value::Num(m) => n == m,
        _ => false,
    }
}

fn is_truth(truth: bool, v: Value) -> bool
    ensures { result ≡ same_truth truth v }
{
    match v {
        Value::Bool(other) => truth == other,
        _ => false,
    }
}

fn is_text<T: Texts>(texts: &T, s: Span, v: Value) -> bool
    requires left { T.has texts.now s }
    requires right { IsReadable (T.has texts.now) v }
    ensures { result ≡ same_text (T.text texts.now) s v }
{
    match v {
        Value::Text(t) => texts.bytes(s) == texts.bytes(t),
        _ => false,
    }
}

fn is_space<T: Texts>(texts: &T, a: u32, v: Value) -> bool
    ensures { result ≡ is_equal_space (T.same texts.now) a v }
{
    match v {
        Value::Space(b) => texts.is_same_space(a, b),
        _ => false,
    }
}

fn is_object(o: ObjId, v: Value) -> bool
    ensures { result ≡ same_object o v }
{
    match v {
        Value::Obj(other) => o.0 == other.0,
        _ => false,
    }
}

/// Whether two values are of one kind and equal: numbers, truths and texts by what they are, namespaces by equality,
/// objects by identity.
pub fn strictly_equal<T: Texts>(texts: &T, x: Value, y: Value) -> bool
    requires left { IsReadable (T.has texts.now) x }
    requires right { IsReadable (T.has texts.now) y }
    ensures { result ≡ same_values (T.text texts.now) (T.same texts.now) x y }
{
    match x {
        Value::Undefined => is_undefined(y),
        Value::Null => is_null(y),
        Value::Num(n) => is_number(n, y),
        Value::Bool(truth) => is_truth(truth, y),
        Value::Text(s) => is_text(texts, s, y),
        Value::Space(a) => is_space(texts, a, y),
        Value::Obj(o) => is_object(o, y),
    }
}

fn number_equal(n: i64, v: Value) -> Result<bool, Fault>
    ensures { result ≡ number_equals n v }
{
    match v {
        Value::Undefined | Value::Null | Value::Space(_) => Ok(false),
        Value::Num(m) => Ok(n == m),
        Value::Bool(truth) => Ok(n == number_of_truth(truth)),
        Value::Text(_) => Err(Fault::TextToNumber),
        Value::Obj(_) => Err(Fault::ObjectToPrimitive),
    }
}

fn text_equal<T: Texts>(texts: &T, s: Span, v: Value) -> Result<bool, Fault>
    requires left { T.has texts.now s }
    requires right { IsReadable (T.has texts.now) v }
    ensures { result ≡ text_equals (T.text texts.now) s v }
{
    match v {
        Value::Num(_) | Value::Bool(_) => Err(Fault::TextToNumber),
        Value::Obj(_) => Err(Fault::ObjectToPrimitive),
        _ => Ok(is_text(texts, s, v)),
    }
}

fn object_equal(o: ObjId, v: Value) -> Result<bool, Fault>
    ensures { result ≡ object_equals o v }
{
    match v {
        Value::Num(_) | Value::Bool(_) | Value::Text(_) => Err(Fault::ObjectToPrimitive),
        _ => Ok(is_object(o, v)),
    }
}

/// Whether two values are equal: those of one kind strictly, null and undefined, and a number and a truth by number. It is
/// a fault where a text would be made a number, or an object a primitive value.
pub fn equal<T: Texts>(texts: &T, x: Value, y: Value) -> Result<bool, Fault>
    requires left { IsReadable (T.has texts.now) x }
    requires right { IsReadable (T.has texts.now) y }
    ensures { result ≡ equal_values (T.text texts.now) (T.same texts.now) x y }
{
    match x {
        Value::Undefined | Value::Null => Ok(is_nothing(y)),
        Value::Num(n) => number_equal(n, y),
        Value::Bool(truth) => number_equal(number_of_truth(truth), y),
        Value::Text(s) => text_equal(texts, s, y),
        Value::Space(a) => Ok(is_space(texts, a, y)),
        Value::Obj(o) => object_equal(o, y),
    }
}
