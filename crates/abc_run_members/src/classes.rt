ghost use Rattle.std.specs.Prelude.{◌≡◌, ◌<◌, None, get_or, length};
ghost use Rattle.abc_frames.specs.Ready.{HasFrameRoom};
ghost use Rattle.abc_run_state.specs.Outer.{Outer};
ghost use Rattle.abc_run_members.specs.Scoped.{enters_class, makes_class_here, makes_unmade};
ghost use Rattle.abc_run_calls.specs.Doing.{CanDo};
ghost use Rattle.abc_run_state.specs.Doing.{Does};

use crate::bases::{base_of, base_prototype};
use abc_base::HostClass;
use abc_frames::Wait;
use abc_heap_values::{ObjId, Value};
use abc_link::Linked;
use abc_run_calls::enter_owned;
use abc_run_state::{State, Stop, make_class, operand};

/// The initializer of a class is run on its class object, which is pushed at the return.
fn enter_class(linked: &Linked, s: &mut State, class: u32, made: ObjId) -> Result<(), Stop>
    ghost out: { Outer }
    requires can { CanDo linked.now out (λ p. enters_class p class made) s.old }
    requires ready { HasFrameRoom 1 1 s.old.frames }
    requires class { class < length linked.now.file.instances }
    ensures { Does linked.now out (λ p. enters_class p class made) s.old result s.new }
{
    linked.linked_law();
    let cinit = linked.abc().classes.get(class as usize).cinit;
    let kept = Value::Obj(made);
    enter_owned(linked, s, cinit, kept, 0, 1, Wait::Keep(kept))
}

/// A class that is not made yet is made, and its initializer is run.
fn make_unmade(linked: &Linked, s: &mut State, class: u32) -> Result<(), Stop>
    ghost out: { Outer }
    requires can { CanDo linked.now out (λ p. makes_unmade p class) s.old }
    requires ready { HasFrameRoom 1 1 s.old.frames }
    requires class { class < length linked.now.file.instances }
    requires first { get_or s.old.arena.classes class None ≡ None }
    ensures { Does linked.now out (λ p. makes_unmade p class) s.old result s.new }
{
    let v = operand(&s.frames, 0);
    let base = base_of(linked, class);
    let prototype = base_prototype(linked, s, base, v)?;
    let made = make_class(linked, s, class, prototype)?;
    enter_class(linked, s, class, made)
}

/// `newclass`: the class is made, once, and then its initializer is run on it; what is pushed at the return is the class object.
pub fn new_class(linked: &Linked, s: &mut State, class: u32) -> Result<(), Stop>
    ghost out: { Outer }
    requires can { CanDo linked.now out (λ p. makes_class_here p class) s.old }
    requires ready { HasFrameRoom 1 1 s.old.frames }
    requires class { class < length linked.now.file.instances }
    ensures { Does linked.now out (λ p. makes_class_here p class) s.old result s.new }
{
    match s.arena.class_object(class) {
        Some(_) => Err(Stop::Errs(HostClass::TypeError)),
        None => make_unmade(linked, s, class),
    }
}
