ghost use Rattle.std.specs.Prelude.{◌≡◌};
ghost use Rattle.abc_link_names.specs.Starts.{start_as, default_of, host_default as default_in, int_at as int_in, raw_of_option, space_value as space_of, start_of as starts_at, to_any as any_of, to_boolean as boolean_of, to_class as class_of, to_host as host_of, to_int as int_of, to_namespace as namespace_of, to_number as number_from, to_object as object_of, to_text as text_of, to_uint as uint_of, to_void as void_of, uint_at as uint_in};

use crate::named::Named;
use crate::pool::{space_name, text_at};
use crate::start::{Raw, Start};
use abc_base::HostClass;
use abc_file_types::{Abc, OptionValue, ValueKind};

/// An entry of the pool of ints; 0 is 0.
#[tactic(auto, using(abc_base::proofs::Past::past_end))]
fn int_at(abc: &Abc, index: u32) -> i32
    ensures { result ≡ int_in abc.now index }
{
    if index == 0 {
        return 0;
    }
    match abc.ints.fetch(index as usize - 1) {
        Some(int) => int,
        None => 0,
    }
}

/// An entry of the pool of uints; 0 is 0.
#[tactic(auto, using(abc_base::proofs::Past::past_end))]
fn uint_at(abc: &Abc, index: u32) -> u32
    ensures { result ≡ uint_in abc.now index }
{
    if index == 0 {
        return 0;
    }
    match abc.uints.fetch(index as usize - 1) {
        Some(uint) => uint,
        None => 0,
    }
}

fn space_value(index: u32) -> Raw
    ensures { result ≡ space_of index }
{
    if index == 0 {
        Raw::Null
    } else {
        Raw::Space(index)
    }
}

/// The value of a trait.
fn raw_value(abc: &Abc, value: OptionValue) -> Raw
    ensures { result ≡ raw_of_option abc.now value.kind value.value }
{
    match value.kind {
        ValueKind::Undefined => Raw::Undefined,
        ValueKind::Utf8 => Raw::Text(value.value),
        ValueKind::Int => Raw::Int(int_at(abc, value.value)),
        ValueKind::UInt => Raw::UInt(uint_at(abc, value.value)),
        ValueKind::Double => Raw::Double,
        ValueKind::False => Raw::Bool(false),
        ValueKind::True => Raw::Bool(true),
        ValueKind::Null => Raw::Null,
        ValueKind::Private => space_value(value.value),
        ValueKind::Namespace => space_value(value.value),
        ValueKind::Package => space_value(value.value),
        ValueKind::PackageInternal => space_value(value.value),
        ValueKind::Protected => space_value(value.value),
        ValueKind::Explicit => space_value(value.value),
        ValueKind::StaticProtected => space_value(value.value),
    }
}

fn to_any(raw: Raw) -> Option<Start>
    ensures { result ≡ any_of raw }
{
    match raw {
        Raw::Undefined => Some(Start::Undefined),
        Raw::Null => Some(Start::Null),
        Raw::Int(int) => Some(Start::Num(int as i64)),
        Raw::UInt(uint) => Some(Start::Num(uint as i64)),
        Raw::Double => None,
        Raw::Bool(truth) => Some(Start::Bool(truth)),
        Raw::Text(text) => Some(Start::Text(text)),
        Raw::Space(space) => Some(Start::Space(space)),
    }
}

fn to_void(raw: Raw) -> Option<Start>
    ensures { result ≡ void_of raw }
{
    match raw {
        Raw::Double => None,
        _ => Some(Start::Undefined),
    }
}

fn to_object(raw: Raw) -> Option<Start>
    ensures { result ≡ object_of raw }
{
    match raw {
        Raw::Undefined => Some(Start::Null),
        _ => to_any(raw),
    }
}

fn to_number(raw: Raw) -> Option<Start>
    ensures { result ≡ number_from raw }
{
    match raw {
        Raw::Null => Some(Start::Num(0)),
        Raw::Int(int) => Some(Start::Num(int as i64)),
        Raw::UInt(uint) => Some(Start::Num(uint as i64)),
        Raw::Bool(true) => Some(Start::Num(1)),
        Raw::Bool(false) => Some(Start::Num(0)),
        _ => None,
    }
}

fn to_int(raw: Raw) -> Option<Start>
    ensures { result ≡ int_of raw }
{
    match raw {
        Raw::Undefined => Some(Start::Num(0)),
        Raw::UInt(uint) => Some(Start::Num(uint.cast_signed() as i64)),
        _ => to_number(raw),
    }
}

fn to_uint(raw: Raw) -> Option<Start>
    ensures { result ≡ uint_of raw }
{
    match raw {
        Raw::Undefined => Some(Start::Num(0)),
        Raw::Int(int) => Some(Start::Num(int.cast_unsigned() as i64)),
        _ => to_number(raw),
    }
}

fn to_boolean(abc: &Abc, raw: Raw) -> Option<Start>
    ensures { result ≡ boolean_of abc.now raw }
{
    match raw {
        Raw::Undefined | Raw::Null => Some(Start::Bool(false)),
        Raw::Int(int) => Some(Start::Bool(int != 0)),
        Raw::UInt(uint) => Some(Start::Bool(uint != 0)),
        Raw::Double => None,
        Raw::Bool(truth) => Some(Start::Bool(truth)),
        Raw::Text(text) => Some(Start::Bool(!text_at(abc, text).is_empty())),
        Raw::Space(_) => Some(Start::Bool(true)),
    }
}

fn to_text(abc: &Abc, raw: Raw) -> Option<Start>
    ensures { result ≡ text_of abc.now raw }
{
    match raw {
        Raw::Undefined | Raw::Null => Some(Start::Null),
        Raw::Int(_) | Raw::UInt(_) | Raw::Double => None,
        Raw::Bool(truth) => Some(Start::BoolText(truth)),
        Raw::Text(text) => Some(Start::Text(text)),
        Raw::Space(space) => Some(Start::Text(space_name(abc, space))),
    }
}

fn to_class(raw: Raw) -> Option<Start>
    ensures { result ≡ class_of raw }
{
    match raw {
        Raw::Undefined | Raw::Null => Some(Start::Null),
        _ => None,
    }
}

fn to_namespace(raw: Raw) -> Option<Start>
    ensures { result ≡ namespace_of raw }
{
    match raw {
        Raw::Space(space) => Some(Start::Space(space)),
        _ => to_class(raw),
    }
}

fn to_host(abc: &Abc, host: HostClass, raw: Raw) -> Option<Start>
    ensures { result ≡ host_of abc.now host raw }
{
    match host {
        HostClass::Object => to_object(raw),
        HostClass::Namespace => to_namespace(raw),
        HostClass::Str => to_text(abc, raw),
        HostClass::Int => to_int(raw),
        HostClass::UInt => to_uint(raw),
        HostClass::Number => to_number(raw),
        HostClass::Boolean => to_boolean(abc, raw),
        _ => to_class(raw),
    }
}

fn host_default(host: HostClass) -> Start
    ensures { result ≡ default_in host }
{
    match host {
        HostClass::Int | HostClass::UInt | HostClass::Number => Start::Num(0),
        HostClass::Boolean => Start::Bool(false),
        _ => Start::Null,
    }
}

/// The value at which a slot of a type starts: that of its trait, coerced, or the type's own without one. There is none
/// where the coercion faults, throws or makes a new text, and none of a double.
pub fn start_of(abc: &Abc, named: Named, value: Option<OptionValue>) -> Option<Start>
    ensures { result ≡ starts_at abc.now named value }
{
    match (named, value) {
        (Named::Any, None) => Some(Start::Undefined),
        (Named::Any, Some(value)) => to_any(raw_value(abc, value)),
        (Named::Void, None) => Some(Start::Undefined),
        (Named::Void, Some(value)) => to_void(raw_value(abc, value)),
        (Named::Host(host), None) => Some(host_default(host)),
        (Named::Host(host), Some(value)) => to_host(abc, host, raw_value(abc, value)),
        (Named::Class(_), None) => Some(Start::Null),
        (Named::Class(_), Some(value)) => to_class(raw_value(abc, value)),
    }
}
