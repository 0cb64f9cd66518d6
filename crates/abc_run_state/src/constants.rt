ghost use Rattle.std.specs.Prelude.{◌≡◌, ◌<◌, ◌^◌, pos};
ghost use Rattle.abc_heap_values.specs.declared.values.Value.TheVariants.{Num};
ghost use Rattle.abc_objects.specs.Starts.{string_span};
ghost use Rattle.abc_link_names.specs.Starts.{int_at as int_in, uint_at as uint_in};

use abc_file_types::Abc;
use abc_heap_values::{Span, Value};
use abc_link::Linked;
use abc_objects::span_of_string;

/// An entry of the pool of ints; 0 is 0.
#[tactic(auto, using(abc_base::proofs::Past::past_end))]
fn int_at(abc: &Abc, index: u32) -> i32
    ensures { result ≡ int_in abc.now index }
{
    if index == 0 {
        return 0;
    }
    match abc.ints.fetch(index as usize - 1) {
        Some(int) => int,
        None => 0,
    }
}

/// An entry of the pool of uints; 0 is 0.
#[tactic(auto, using(abc_base::proofs::Past::past_end))]
fn uint_at(abc: &Abc, index: u32) -> u32
    ensures { result ≡ uint_in abc.now index }
{
    if index == 0 {
        return 0;
    }
    match abc.uints.fetch(index as usize - 1) {
        Some(uint) => uint,
        None => 0,
    }
}

/// An integer of the pool, as a value.
pub fn int_value(linked: &Linked, index: u32) -> Value
    ensures { result ≡ Num (int_in linked.now.file index) }
{
    Value::Num(i64::from(int_at(linked.abc(), index)))
}

/// An unsigned integer of the pool, as a value.
pub fn uint_value(linked: &Linked, index: u32) -> Value
    ensures { result ≡ Num (pos (uint_in linked.now.file index)) }
{
    Value::Num(i64::from(uint_at(linked.abc(), index)))
}

/// Where a string of the pool lies; 0 is the empty text.
pub fn string_at(linked: &Linked, index: u32) -> Span
    requires { index < 2 ^ 30 }
    ensures { result ≡ string_span linked.now.file.strings index }
{
    linked.linked_law();
    span_of_string(&linked.abc().strings, index)
}
