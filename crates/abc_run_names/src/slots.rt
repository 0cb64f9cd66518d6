ghost use Rattle.std.specs.Prelude.{◌≡◌, ◌<◌, IsSome, Some, length};
ghost use Rattle.abc_heap_store.specs.Heap.{object_at, slots_of_object};
ghost use Rattle.abc_frames.specs.Ready.{HasFrameRoom};
ghost use Rattle.abc_objects.specs.Stands.{StandsOver};
ghost use Rattle.abc_objects.specs.Values.{Exists, IsObject};
ghost use Rattle.abc_link_names.specs.Slots.{slot_numbered};
ghost use Rattle.abc_frames.specs.Frame.{newest};
ghost use Rattle.abc_run_state.specs.Outer.{Outer, setting_in, world};
ghost use Rattle.abc_run_state.specs.Standing.{IsSet, Stays};
ghost use Rattle.abc_run_state.specs.Stops.{IsOpen, part_outcome};
ghost use Rattle.abc_meaning.specs.Members.{write_slot as slot_written};
ghost use Rattle.abc_run_names.specs.Numbered.{reads_numbered, slot_type, writes_numbered};
ghost use Rattle.abc_run_state.specs.Doing.{Does};

use crate::receivers::receiver;
use abc_frames::{drop_and_go, finish};
use abc_heap_values::{ObjId, Value};
use abc_link::Linked;
use abc_link_names::Ty;
use abc_run_state::{State, Stop, coerce, operand};

/// The type of a slot of an object.
fn type_of_slot(linked: &Linked, s: &State, o: ObjId, k: u32) -> Ty
    requires over { StandsOver linked.now s.now.arena }
    requires slot { k < length (slots_of_object s.now.arena.objects o.0) }
    ensures { result ≡ slot_type linked.now s.now.arena o k }
{
    let slots = linked.slots(s.arena.layout(o));
    slots.get(k as usize).ty
}

/// Writes a slot, by its place in the layout of the object: it takes the value coerced to its type.
pub fn write_slot(linked: &Linked, s: &mut State, o: ObjId, k: u32, v: Value) -> Result<(), Stop>
    ghost out: { Outer }
    requires over { StandsOver linked.now s.old.arena }
    requires slot { k < length (slots_of_object s.old.arena.objects o.0) }
    requires value { Exists linked.now s.old.arena v }
    ensures part { slot_written (setting_in linked.now out) o k v (world s.old out)
        ≡ part_outcome result (world s.new out) }
    ensures stays { Stays linked.now s.old s.new }
{
    let ty = type_of_slot(linked, s, o, k);
    let coerced = coerce(linked, s, ty, v)?;
    s.arena.set_slot(linked, o, k, coerced);
    Ok(())
}

/// The place of the slot that a number names, in the layout of an object that has it.
fn place_of(linked: &Linked, s: &State, o: ObjId, number: u32) -> u32
    requires over { StandsOver linked.now s.now.arena }
    requires object { IsObject s.now.arena o }
    requires slot { IsSome (slot_numbered linked.now (object_at s.now.arena.objects o.0).layout number) }
    ensures { slot_numbered linked.now (object_at s.now.arena.objects o.0).layout number ≡ Some result }
{
    match linked.slot_numbered(s.arena.layout(o), number) {
        Some(k) => k,
        None => unreachable!(),
    }
}

/// `getslot`; null throws.
pub fn get_slot(linked: &Linked, s: &mut State, number: u32) -> Result<(), Stop>
    ghost out: { Outer }
    requires set { IsSet linked.now s.old }
    requires ready { HasFrameRoom 1 1 s.old.frames }
    requires free { IsOpen
        (reads_numbered (setting_in linked.now out) number (newest s.old.frames) (world s.old out)) }
    ensures { Does linked.now out (λ p. reads_numbered p number) s.old result s.new }
{
    let v = operand(&s.frames, 0);
    let o = receiver(v)?;
    let k = place_of(linked, s, o, number);
    let held = s.arena.slot(o, k);
    finish(&mut s.frames, 1, held);
    Ok(())
}

/// `setslot`, which writes constant slots too; null throws.
pub fn set_slot(linked: &Linked, s: &mut State, number: u32) -> Result<(), Stop>
    ghost out: { Outer }
    requires set { IsSet linked.now s.old }
    requires ready { HasFrameRoom 2 0 s.old.frames }
    requires free { IsOpen
        (writes_numbered (setting_in linked.now out) number (newest s.old.frames) (world s.old out)) }
    ensures { Does linked.now out (λ p. writes_numbered p number) s.old result s.new }
{
    let v = operand(&s.frames, 1);
    let x = operand(&s.frames, 0);
    let o = receiver(v)?;
    let k = place_of(linked, s, o, number);
    write_slot(linked, s, o, k, x)?;
    drop_and_go(&mut s.frames, 2);
    Ok(())
}
