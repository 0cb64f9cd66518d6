ghost use Rattle.std.specs.Prelude.{◌≡◌, ◌<◌, ◌^◌, Some};
ghost use Rattle.abc_link_names.specs.Starts.{space_value as space_value_so};
ghost use Rattle.abc_run_state.specs.Outer.{Outer, setting_in};
ghost use Rattle.abc_run_state.specs.Stops.{part_outcome};
ghost use Rattle.abc_meaning.specs.Entering.{gives_option};
ghost use Rattle.abc_meaning.specs.Setting.{Setting, value_of_raw, value_of_option};
ghost use Rattle.abc_meaning.specs.World.{World};

use abc_base::Fault;
use abc_file_types::{OptionValue, ValueKind};
use abc_heap_values::Value;
use abc_link::Linked;
use abc_run_state::{Stop, int_value, string_at, uint_value};

/// A namespace of the pool; 0 is null.
fn space_value(index: u32) -> Value
    ensures { (p : Setting) → value_of_raw p (space_value_so index) ≡ Some result }
{
    if index == 0 {
        Value::Null
    } else {
        Value::Space(index)
    }
}

/// The value of an option; a double is none.
fn value_of(linked: &Linked, option: OptionValue) -> Option<Value>
    requires { option.value < 2 ^ 30 }
    ensures { (out : Outer) → value_of_option (setting_in linked.now out) option ≡ result }
{
    match option.kind {
        ValueKind::Undefined => Some(Value::Undefined),
        ValueKind::Utf8 => Some(Value::Text(string_at(linked, option.value))),
        ValueKind::Int => Some(int_value(linked, option.value)),
        ValueKind::UInt => Some(uint_value(linked, option.value)),
        ValueKind::Double => None,
        ValueKind::False => Some(Value::Bool(false)),
        ValueKind::True => Some(Value::Bool(true)),
        ValueKind::Null => Some(Value::Null),
        ValueKind::Private => Some(space_value(option.value)),
        ValueKind::Namespace => Some(space_value(option.value)),
        ValueKind::Package => Some(space_value(option.value)),
        ValueKind::PackageInternal => Some(space_value(option.value)),
        ValueKind::Protected => Some(space_value(option.value)),
        ValueKind::Explicit => Some(space_value(option.value)),
        ValueKind::StaticProtected => Some(space_value(option.value)),
    }
}

/// What an option gives; one that is a double is the fault.
pub fn option_given(linked: &Linked, option: OptionValue) -> Result<Value, Stop>
    requires { option.value < 2 ^ 30 }
    ensures { (out : Outer) (w : World)
        → gives_option (setting_in linked.now out) (Some option) w ≡ part_outcome result w }
{
    match value_of(linked, option) {
        Some(v) => Ok(v),
        None => Err(Stop::Faults(Fault::Double)),
    }
}
