ghost use Rattle.std.specs.Prelude.{◌≡◌, nat_lt};
ghost use Rattle.std.specs.List.{list_all};
ghost use Rattle.abc_heap_values.specs.Numbers.{IsInRange};
ghost use Rattle.abc_heap_values.specs.Order.{holds_by, number_if_any as number_if, numbers_hold as numbers_hold_by, order_of, ordered_numbers, ordered_texts, text_below};
ghost use Rattle.abc_heap_values.specs.Reads.{IsReadable};

use crate::kinds::is_undefined;
use crate::numbers::to_number;
use crate::texts::Texts;
use crate::values::Value;
use abc_base::Fault;

/// What two values are asked for.
#[derive(Clone, Copy, Debug, PartialEq, Eq)]
pub enum Order {
    Less,
    LessOrEqual,
    Greater,
    GreaterOrEqual,
}

fn holds(order: Order, below: bool, above: bool) -> bool
    ensures { result ≡ holds_by order below above }
{
    match order {
        Order::Less => below,
        Order::LessOrEqual => !above,
        Order::Greater => above,
        Order::GreaterOrEqual => !below,
    }
}

fn is_ascii(bytes: &[u8]) -> bool
    ensures { result ≡ list_all (λ b. nat_lt b 0x80) bytes.now }
{
    bytes.iter().all(|b| *b < 0x80)
}

fn is_below(a: &[u8], b: &[u8]) -> bool
    ensures { result ≡ text_below a.now b.now }
{
    a.cmp(&b).is_lt()
}

#[inline(never)]
fn order_texts(order: Order, a: &[u8], b: &[u8]) -> Result<bool, Fault>
    ensures { result ≡ ordered_texts order a.now b.now }
{
    if !is_ascii(a) {
        return Err(Fault::TextOrder);
    }
    if !is_ascii(b) {
        return Err(Fault::TextOrder);
    }
    Ok(holds(order, is_below(a, b), is_below(b, a)))
}

/// A value as a number; undefined is none, and no fault.
#[tactic(auto, using(crate::proofs::Following::goes, crate::proofs::Following::stops))]
fn number_or_none(v: Value) -> Result<Option<i64>, Fault>
    requires { IsInRange v }
    ensures { result ≡ number_if v }
{
    if is_undefined(v) {
        return Ok(None);
    }
    let n = to_number(v)?;
    Ok(Some(n))
}

fn numbers_hold(order: Order, left: Option<i64>, right: Option<i64>) -> bool
    ensures { result ≡ numbers_hold_by order left right }
{
    match (left, right) {
        (Some(a), Some(b)) => holds(order, a < b, b < a),
        _ => false,
    }
}

#[tactic(auto, using(crate::proofs::Following::goes, crate::proofs::Following::stops))]
fn order_numbers(order: Order, x: Value, y: Value) -> Result<bool, Fault>
    requires left { IsInRange x }
    requires right { IsInRange y }
    ensures { result ≡ ordered_numbers order x y }
{
    let left = number_or_none(x)?;
    let right = number_or_none(y)?;
    Ok(numbers_hold(order, left, right))
}

/// Whether two values stand in an order: two texts by their bytes, all others by their numbers, the left first. Undefined
/// stands in none.
#[inline(always)]
pub fn are_ordered<T: Texts>(texts: &T, order: Order, x: Value, y: Value) -> Result<bool, Fault>
    requires left_text { IsReadable (T.has texts.now) x }
    requires right_text { IsReadable (T.has texts.now) y }
    requires left { IsInRange x }
    requires right { IsInRange y }
    ensures { result ≡ order_of (T.text texts.now) order x y }
{
    match (x, y) {
        (Value::Num(a), Value::Num(b)) => Ok(holds(order, a < b, b < a)),
        (Value::Text(s), Value::Text(t)) => order_texts(order, texts.bytes(s), texts.bytes(t)),
        _ => order_numbers(order, x, y),
    }
}
