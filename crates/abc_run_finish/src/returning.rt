ghost use Rattle.std.specs.Prelude.{◌≡◌, ◌≢◌, ◌<◌, ℕ, List, Err, length};
ghost use Rattle.std.specs.declared.option.Option.{Option};
ghost use Rattle.abc_heap_values.specs.declared.values.Value.{Value};
ghost use Rattle.abc_run_finish.specs.Ending.{IsUnstuck, IsSized, stepped_by};
ghost use Rattle.abc_run_calls.specs.Arguments.{HasArgumentRoom};
ghost use Rattle.abc_meaning.specs.Fair.{IsFairPart};
ghost use Rattle.abc_meaning.specs.Step.{gives_back, resumes};
ghost use Rattle.abc_frames.specs.Ready.{HasFrameRoom};
ghost use Rattle.abc_objects.specs.Values.{Exists};
ghost use Rattle.abc_frames.specs.Frame.{newest, under};
ghost use Rattle.abc_frames.specs.declared.records.Wait.TheVariants.{New};
ghost use Rattle.abc_run_state.specs.Outer.{Outer, setting_in, world};
ghost use Rattle.abc_run_state.specs.Standing.{IsSet};
ghost use Rattle.abc_run_state.specs.Turns.{Gives, bare_newest};
ghost use Rattle.abc_run_finish.specs.Fairly.{CanTake, IsFairTurn, IsSoundAndSized, made_of};
ghost use Rattle.abc_run_finish.specs.Steps.{StepsIn};
ghost use Rattle.abc_run_finish.specs.declared.halts.Halt.TheVariants.{Fails, Returns};

use crate::ended::Ended;
use crate::halts::{Halt, halted};
use crate::stopping::stopped;
use abc_frames::{Wait, go_on, push};
use abc_heap_values::Value;
use abc_link::Linked;
use abc_run_calls::make;
use abc_run_state::{How, State};

/// An object is made of what returned, with so many arguments. It takes their place.
#[inline(never)]
fn make_of(linked: &Linked, s: &mut State, v: Value, count: u32) -> Result<(), Ended>
    ghost out: { Outer }
    requires known { HasArgumentRoom linked.now s.old.given.limit }
    requires scripts { 0 < length linked.now.file.scripts }
    requires set { IsSet linked.now s.old }
    requires ready { HasFrameRoom count 1 s.old.frames }
    requires held { IsSoundAndSized (setting_in linked.now out) (world s.old out) s.old.frames }
    requires value { Exists linked.now s.old.arena v }
    requires this { 0 < length (newest s.old.frames).locals }
    requires fair { IsFairPart (setting_in linked.now out) (world s.old out)
        (resumes (setting_in linked.now out) (newest s.old.frames) (New count) v (world s.old out)) }
    requires free { IsUnstuck (made_of (setting_in linked.now out) (world s.old out) s.old.frames v count) }
    ensures step { made_of (setting_in linked.now out) (world s.old out) s.old.frames v count
        ≡ stepped_by result (world s.new out) s.new.frames }
    ensures sized { IsSized (setting_in linked.now out) s.new.arena.limits s.new.frames }
    ensures limit { s.new.given.limit ≡ s.old.given.limit }
{
    match make(linked, s, v, count, How::Push(count)) {
        Ok(()) => Ok(()),
        Err(stop) => stopped(linked, s, stop),
    }
}

/// The newest frame goes on with what returns, by the way in which it waited.
#[inline(always)]
fn resume(linked: &Linked, s: &mut State, v: Value) -> Result<(), Ended>
    ghost out: { Outer }
    requires known { HasArgumentRoom linked.now s.old.given.limit }
    requires scripts { 0 < length linked.now.file.scripts }
    requires live { 0 < length s.old.frames.living }
    requires held { IsSoundAndSized (setting_in linked.now out) (world s.old out) s.old.frames }
    requires value { Exists linked.now s.old.arena v }
    requires takes { CanTake (setting_in linked.now out) (world s.old out) v (newest s.old.frames) }
    requires free { IsUnstuck
        (gives_back (setting_in linked.now out) (world s.old out) v s.old.frames.living) }
    ensures step { gives_back (setting_in linked.now out) (world s.old out) v s.old.frames.living
        ≡ stepped_by result (world s.new out) s.new.frames }
    ensures sized { IsSized (setting_in linked.now out) s.new.arena.limits s.new.frames }
    ensures limit { s.new.given.limit ≡ s.old.given.limit }
{
    match s.frames.take_wait() {
        Wait::Push => {
            push(&mut s.frames, v);
            Ok(())
        }
        Wait::Keep(kept) => {
            push(&mut s.frames, kept);
            Ok(())
        }
        Wait::Drop => {
            go_on(&mut s.frames);
            Ok(())
        }
        Wait::Again => Ok(()),
        Wait::New(count) => make_of(linked, s, v, count),
        Wait::Not => unreachable!(),
    }
}

/// The newest frame is left, and the one under it goes on as it waited. Under the last the run is done, and it answers what returned.
#[inline(always)]
pub(crate) fn give_back(linked: &Linked, s: &mut State, v: Value) -> Result<(), Halt>
    ghost out: { Outer }
    requires known { HasArgumentRoom linked.now s.old.given.limit }
    requires scripts { 0 < length linked.now.file.scripts }
    requires fair { IsFairTurn (setting_in linked.now out)
        (Gives (world s.old out) (bare_newest s.old.frames) v) }
    ensures step { (before : Option (List ℕ))
        → StepsIn (gives_back (setting_in linked.now out) (world s.old out) v (under s.old.frames.living)) out
        result s.new before before }
    ensures ends { result ≢ Err Fails }
    ensures value { (x : Value) → result ≡ Err (Returns x) → x ≡ v }
    ensures sized { IsSized (setting_in linked.now out) s.new.arena.limits s.new.frames }
    ensures limit { s.new.given.limit ≡ s.old.given.limit }
{
    s.frames.leave();
    if s.frames.depth() == 0 {
        return Err(Halt::Returns(v));
    }
    halted(resume(linked, s, v))
}
