ghost use Rattle.std.specs.Prelude.{◌≡◌, ◌≤◌, length, IfOk};
ghost use Rattle.abc_objects.specs.Stands.{StandsOver};
ghost use Rattle.abc_objects.specs.Values.{IsObject};
ghost use Rattle.abc_frames.specs.Frame.{arguments, newest};
ghost use Rattle.abc_run_state.specs.Outer.{Outer, setting_in, world};
ghost use Rattle.abc_run_state.specs.Standing.{IsSet, Stays};
ghost use Rattle.abc_run_state.specs.Stops.{part_outcome};
ghost use Rattle.abc_meaning.specs.Making.{host_arguments, most_arguments, set_message as set_message_so};
ghost use Rattle.abc_run_calls.specs.Calls.{IsMessage, message_arguments, message_texts};

use abc_base::HostClass;
use abc_heap_values::{ObjId, Span, Value};
use abc_link::Linked;
use abc_objects::FixedText;
use abc_run_state::{State, Stop, operand, put_property, spell};

/// How many arguments `new` takes at most on Object, Error and its three.
fn most_of(class: HostClass) -> u32
    ensures { result ≡ most_arguments class }
{
    match class {
        HostClass::Object => 0,
        _ => 2,
    }
}

/// The message of Object and of the errors: the text of the first of so many arguments. A second is counted alone.
pub fn message_of(
    linked: &Linked,
    s: &mut State,
    class: HostClass,
    count: u32,
) -> Result<Option<Span>, Stop>
    ghost out: { Outer }
    requires set { IsSet linked.now s.old }
    requires there { count ≤ length (newest s.old.frames).stack }
    ensures part { host_arguments (setting_in linked.now out) class (arguments count (newest s.old.frames))
        (world s.old out) ≡ part_outcome (message_arguments result) (world s.new out) }
    ensures stays { Stays linked.now s.old s.new }
    ensures there { IfOk result (IsMessage linked.now s.new.arena) }
{
    if count > most_of(class) {
        return Err(Stop::Errs(HostClass::ArgumentError));
    }
    if count == 0 {
        return Ok(None);
    }
    let first = operand(&s.frames, count - 1);
    let text = spell(linked, s, first)?;
    Ok(Some(text))
}

/// The message is set as an own property, whatever the object's class declares.
pub fn set_message(
    linked: &Linked,
    s: &mut State,
    o: ObjId,
    message: Option<Span>,
) -> Result<(), Stop>
    requires set { IsSet linked.now s.old }
    requires inside { IsObject s.old.arena o }
    requires message { IsMessage linked.now s.old.arena message }
    ensures part { (out : Outer)
        → set_message_so (setting_in linked.now out) o (message_texts message) (world s.old out)
        ≡ part_outcome result (world s.new out) }
    ensures stays { Stays linked.now s.old s.new }
{
    match message {
        Some(text) => {
            let name = s.arena.fixed_text(FixedText::Message);
            put_property(linked, s, o, name, Value::Text(text))
        }
        None => Ok(()),
    }
}
