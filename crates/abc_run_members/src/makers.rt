ghost use Rattle.std.specs.Prelude.{◌+◌, ◌<◌, ◌^◌, length};
ghost use Rattle.abc_frames.specs.Ready.{HasFrameRoom};
ghost use Rattle.abc_objects.specs.Values.{IsObject};
ghost use Rattle.abc_run_calls.specs.Calls.{settled_by};
ghost use Rattle.abc_run_state.specs.Outer.{Outer};
ghost use Rattle.abc_run_state.specs.Standing.{IsSet};
ghost use Rattle.abc_run_state.specs.declared.state.How.TheVariants.{Drop};
ghost use Rattle.abc_run_members.specs.Based.{IsBase, named_of};
ghost use Rattle.abc_run_members.specs.Supers.{super_construct, base_run, tells_base};
ghost use Rattle.abc_run_calls.specs.Doing.{CanDo};
ghost use Rattle.abc_run_state.specs.Doing.{Does};

use crate::bases::{Base, base_of};
use abc_base::HostClass;
use abc_frames::Wait;
use abc_heap_values::{ObjId, Value};
use abc_link::Linked;
use abc_run_calls::{enter_owned, message_of, set_message};
use abc_run_names::receiver;
use abc_run_state::{How, State, Stop, operand, settle};

/// The maker of a class of the host takes a message.
fn tell_base(
    linked: &Linked,
    s: &mut State,
    o: ObjId,
    class: HostClass,
    count: u32,
) -> Result<(), Stop>
    ghost out: { Outer }
    requires set { IsSet linked.now s.old }
    requires ready { HasFrameRoom (count + 1) 0 s.old.frames }
    requires count { count < 2 ^ 30 }
    requires inside { IsObject s.old.arena o }
    ensures { Does linked.now out (λ p. tells_base p o class count) s.old result s.new }
{
    let message = message_of(linked, s, class, count)?;
    set_message(linked, s, o, message)?;
    settle(&mut s.frames, How::Drop(count + 1), Value::Undefined);
    Ok(())
}

/// The maker of the base is run on an object.
fn construct_base(
    linked: &Linked,
    s: &mut State,
    o: ObjId,
    base: Base,
    count: u32,
) -> Result<(), Stop>
    ghost out: { Outer }
    requires can { CanDo linked.now out
        (λ p f. settled_by (Drop (count + 1)) f (base_run p o count f (named_of base))) s.old }
    requires ready { HasFrameRoom (count + 1) 0 s.old.frames }
    requires count { count < 2 ^ 30 }
    requires inside { IsObject s.old.arena o }
    requires base { IsBase linked.now base }
    ensures { Does linked.now out
        (λ p f. settled_by (Drop (count + 1)) f (base_run p o count f (named_of base))) s.old result s.new }
{
    match base {
        Base::Class(class) => {
            let maker = linked.abc().instances.get(class as usize).iinit;
            let taken = count + 1;
            enter_owned(linked, s, maker, Value::Obj(o), count, taken, Wait::Drop)
        }
        Base::Host(class) => tell_base(linked, s, o, class, count),
        Base::Nothing => unreachable!(),
    }
}

/// `constructsuper`, in the maker of a class: the maker of its base is run on the object, which is under the arguments; a class of
/// the host has none, and takes a message.
pub fn construct_super(linked: &Linked, s: &mut State, class: u32, count: u32) -> Result<(), Stop>
    ghost out: { Outer }
    requires can { CanDo linked.now out (λ p. super_construct p class count) s.old }
    requires ready { HasFrameRoom (count + 1) 0 s.old.frames }
    requires count { count < 2 ^ 30 }
    requires class { class < length linked.now.file.instances }
    ensures { Does linked.now out (λ p. super_construct p class count) s.old result s.new }
{
    let v = operand(&s.frames, count);
    let o = receiver(v)?;
    let base = base_of(linked, class);
    construct_base(linked, s, o, base, count)
}
