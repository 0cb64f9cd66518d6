ghost use Rattle.std.specs.Prelude.{◌≡◌, ◌<◌, ◌≤◌, ◌*◌, ◌^◌, MatchResult, length};
ghost use Rattle.abc_meaning.specs.Newing.{set_all};
ghost use Rattle.abc_frames.specs.Ready.{HasFrameRoom};
ghost use Rattle.abc_objects.specs.Values.{IsObject};
ghost use Rattle.abc_frames.specs.Frame.{newest};
ghost use Rattle.abc_run_state.specs.Outer.{Outer, setting_in, world};
ghost use Rattle.abc_run_state.specs.Standing.{IsSet, Stays};
ghost use Rattle.abc_run_state.specs.Stops.{part_outcome, why};
ghost use Rattle.abc_meaning.specs.World.{Stopped, Went};
ghost use Rattle.abc_run_state.specs.Makers.{pushes_object};
ghost use Rattle.abc_run_state.specs.Pairs.{pairs_at, pair_texts, pair_text, with_operands};
ghost use Rattle.abc_run_state.specs.Doing.{Does};

use crate::making::{make_of_host, put_property};
use crate::operands::operand;
use crate::parts::spell;
use crate::state::{State, Stop};
use abc_base::HostClass;
use abc_frames::finish;
use abc_heap_store::What;
use abc_heap_values::{ObjId, Span, Value};
use abc_link::Linked;

/// Where a text lies; of another value the empty text.
fn text_in_value(v: Value) -> Span
    ensures { result ≡ pair_text v }
{
    match v {
        Value::Text(text) => text,
        Value::Undefined => empty(),
        Value::Null => empty(),
        Value::Num(_) => empty(),
        Value::Bool(_) => empty(),
        Value::Space(_) => empty(),
        Value::Obj(_) => empty(),
    }
}

fn empty() -> Span
    ensures { result ≡ record { part = 0; start = 0; len = 0 } }
{
    Span {
        part: 0,
        start: 0,
        len: 0,
    }
}

/// Each name among the pairs on top of the operands becomes its text, the deepest first.
fn spell_names(linked: &Linked, s: &mut State, pairs: u32) -> Result<(), Stop>
    ghost out: { Outer }
    requires set { IsSet linked.now s.old }
    requires live { 0 < length s.old.frames.living }
    requires count { pairs < 2 ^ 30 }
    requires operands { 2 * pairs ≤ length (newest s.old.frames).stack }
    ensures part { MatchResult result (λ _. pair_texts (setting_in linked.now out) pairs
        (newest s.old.frames).stack (world s.old out)
        ≡ Went (world s.new out) (newest s.new.frames).stack) (λ e. pair_texts (setting_in linked.now out)
        pairs (newest s.old.frames).stack (world s.old out) ≡ Stopped (world s.new out) (why e)) }
    ensures frames { s.new.frames ≡ with_operands (newest s.new.frames).stack s.old.frames }
    ensures long { length (newest s.new.frames).stack ≡ length (newest s.old.frames).stack }
    ensures set { IsSet linked.now s.new }
    ensures given { s.new.given ≡ s.old.given }
{
    let mut left = pairs;
    while left > 0 {
        left -= 1;
        let name = operand(&s.frames, 2 * left + 1);
        let text = spell(linked, s, name)?;
        s.frames.set_operand(2 * left + 1, Value::Text(text));
    }
    Ok(())
}

/// An object takes each value among the pairs on top of the operands under its name, the deepest first.
fn put_all(linked: &Linked, s: &mut State, o: ObjId, pairs: u32) -> Result<(), Stop>
    requires set { IsSet linked.now s.old }
    requires object { IsObject s.old.arena o }
    requires count { pairs < 2 ^ 30 }
    requires operands { 2 * pairs ≤ length (newest s.old.frames).stack }
    ensures part { (out : Outer)
        → set_all (setting_in linked.now out) o (pairs_at pairs (newest s.old.frames).stack) (world s.old out)
        ≡ part_outcome result (world s.new out) }
    ensures stays { Stays linked.now s.old s.new }
{
    let mut left = pairs;
    while left > 0 {
        left -= 1;
        let named = operand(&s.frames, 2 * left + 1);
        let name = text_in_value(named);
        let v = operand(&s.frames, 2 * left);
        put_property(linked, s, o, name, v)?;
    }
    Ok(())
}

/// `newobject`: of the pairs of a name and a value on top, so many.
pub fn new_object(linked: &Linked, s: &mut State, pairs: u32) -> Result<(), Stop>
    ghost out: { Outer }
    requires set { IsSet linked.now s.old }
    requires ready { HasFrameRoom (2 * pairs) 1 s.old.frames }
    requires count { pairs < 2 ^ 30 }
    ensures { Does linked.now out (λ p. pushes_object p pairs) s.old result s.new }
{
    spell_names(linked, s, pairs)?;
    let made = make_of_host(linked, s, HostClass::Object, What::Plain)?;
    put_all(linked, s, made, pairs)?;
    finish(&mut s.frames, 2 * pairs, Value::Obj(made));
    Ok(())
}
