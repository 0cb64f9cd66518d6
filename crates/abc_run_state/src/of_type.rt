ghost use Rattle.std.specs.Prelude.{◌≡◌, true};
ghost use Rattle.std.specs.Int.{int_wrap, w32};
ghost use Rattle.abc_link_names.specs.declared.types.Ty.TheVariants as types;
ghost use Rattle.abc_run_state.specs.OfType.{IsOfNamed, IsOfType};

use abc_heap_values::Value;
use abc_link::Linked;
use abc_link_names::Ty;

/// Whether a number is from -2147483648 to 2147483647.
fn is_int(n: i64) -> bool
    ensures { result ≡ true → int_wrap w32 n ≡ n }
{
    if n < -2147483648 {
        return false;
    }
    if n > 2147483647 {
        return false;
    }
    true
}

/// Whether a value is what it is coerced to, an int.
fn is_of_int(v: Value) -> bool
    ensures { result ≡ true → IsOfType types.Int v }
{
    match v {
        Value::Num(n) => is_int(n),
        _ => false,
    }
}

/// Whether a value is what it is coerced to, a number.
fn is_of_number(v: Value) -> bool
    ensures { result ≡ true → IsOfType types.Number v }
{
    match v {
        Value::Num(_) => true,
        _ => false,
    }
}

/// Whether a value is what it is coerced to, a truth.
fn is_of_boolean(v: Value) -> bool
    ensures { result ≡ true → IsOfType types.Boolean v }
{
    match v {
        Value::Bool(_) => true,
        _ => false,
    }
}

/// Whether a value is what it is coerced to, a text.
fn is_of_text(v: Value) -> bool
    ensures { result ≡ true → IsOfType types.Text v }
{
    match v {
        Value::Text(_) => true,
        _ => false,
    }
}

/// Whether a value is what it is coerced to, a type, where that is told without the heap. Where it is not, it answers false.
#[inline(always)]
fn is_of_type(ty: Ty, v: Value) -> bool
    ensures { result ≡ true → IsOfType ty v }
{
    match ty {
        Ty::Any => true,
        Ty::Int => is_of_int(v),
        Ty::Number => is_of_number(v),
        Ty::Boolean => is_of_boolean(v),
        Ty::Text => is_of_text(v),
        _ => false,
    }
}

/// Whether a value is what it is coerced to, a type of the file.
#[inline(always)]
pub fn is_of_named(linked: &Linked, ty: u32, v: Value) -> bool
    ensures { result ≡ true → IsOfNamed linked.now ty v }
{
    match linked.type_of(ty) {
        Some(found) => is_of_type(found, v),
        None => false,
    }
}
