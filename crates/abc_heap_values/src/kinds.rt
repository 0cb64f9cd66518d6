ghost use Rattle.std.specs.Prelude.{◌≡◌};
ghost use Rattle.abc_heap_values.specs.Kinds.{is_nothing as nothing, is_null as null, is_text as text, is_undefined as undefined};

use crate::values::Value;

/// Whether a value is undefined.
pub fn is_undefined(v: Value) -> bool
    ensures { result ≡ undefined v }
{
    match v {
        Value::Undefined => true,
        _ => false,
    }
}

/// Whether a value is null.
pub fn is_null(v: Value) -> bool
    ensures { result ≡ null v }
{
    match v {
        Value::Null => true,
        _ => false,
    }
}

/// Whether a value is undefined or null.
pub fn is_nothing(v: Value) -> bool
    ensures { result ≡ nothing v }
{
    match v {
        Value::Undefined | Value::Null => true,
        _ => false,
    }
}

/// Whether a value is a text.
pub fn is_text(v: Value) -> bool
    ensures { result ≡ text v }
{
    match v {
        Value::Text(_) => true,
        _ => false,
    }
}
