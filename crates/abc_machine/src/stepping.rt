ghost use Rattle.std.specs.Prelude.{◌≡◌, ◌≢◌, ◌<◌, ℕ, List, length, true, Err, Ok, MatchOption};
ghost use Rattle.std.specs.declared.option.Option.{Option};
ghost use Rattle.abc_meaning.specs.Calls.{value_at_end};
ghost use Rattle.abc_heap_values.specs.declared.values.Value.{Value};
ghost use Rattle.abc_run_calls.specs.Calls.{CanFinish};
ghost use Rattle.abc_run_dispatch.specs.Held.{IsHeld};
ghost use Rattle.abc_run_finish.specs.Ending.{IsSized};
ghost use Rattle.abc_run_calls.specs.Arguments.{HasArgumentRoom};
ghost use Rattle.abc_run_finish.specs.Fairly.{CanStart, IsFairTurn};
ghost use Rattle.abc_run_finish.specs.Steps.{IsReached, LeavesStep, StepsAs, StepsIn, left_here};
ghost use Rattle.abc_run_finish.specs.declared.halts.Halt.TheVariants.{Fails, Returns};
ghost use Rattle.abc_run_state.specs.Outer.{Outer, setting_in, world};
ghost use Rattle.abc_run_state.specs.Turns.{turn_of_answer};
ghost use Rattle.abc_run_state.specs.declared.state.Left.TheVariants.{Goes};

use abc_base::{Host, Sink};
use abc_heap_values::Value;
use abc_link::Linked;
use abc_run_dispatch::{Held, hold, run_held};
use abc_run_finish::{Halt, finish, start_last};
use abc_run_state::{Left, State, Stop};

/// Whether the run goes on.
fn goes_on(halted: &Result<(), Halt>) -> bool
    ensures { result ≡ true → halted.now ≡ Ok tt }
{
    match halted {
        Ok(()) => true,
        Err(_) => false,
    }
}

/// Whether a run goes on; else why not is put into `halted`.
#[inline(always)]
fn goes_with(done: Result<(), Halt>, halted: &mut Result<(), Halt>) -> bool
    requires { halted.old ≡ Ok tt }
    ensures put { halted.new ≡ done }
    ensures goes { result ≡ true → halted.new ≡ Ok tt }
{
    match done {
        Ok(()) => true,
        Err(halt) => {
            *halted = Err(halt);
            false
        }
    }
}

/// The last script is started, over no frame. It answers whether the run goes on; else `halted` says why not.
#[inline(never)]
fn start_over(linked: &Linked, s: &mut State, halted: &mut Result<(), Halt>) -> bool
    ghost out: { Outer }
    requires { CanStart linked.now out s.old }
    ensures step { (before : Option (List ℕ)) → StepsAs linked.now out s.old halted.new s.new before before }
    ensures ends { halted.new ≢ Err Fails }
    ensures none { (v : Value) → halted.new ≢ Err (Returns v) }
    ensures sized { IsSized (setting_in linked.now out) s.new.arena.limits s.new.frames }
    ensures goes { result ≡ true → halted.new ≡ Ok tt }
    ensures limit { s.new.given.limit ≡ s.old.given.limit }
{
    *halted = start_last(linked, s);
    goes_on(halted)
}

/// The number that is to be returned, if that is what is left to be done.
#[inline(always)]
fn number_left(left: &Result<Left, Stop>) -> Option<Value>
    ensures { MatchOption result (Unit {0}) (λ v. left.now ≡ Ok (Left.Returns v)) }
{
    match left {
        Ok(Left::Returns(Value::Num(n))) => Some(Value::Num(*n)),
        _ => None,
    }
}

/// The same as `finish_left`, where this is to be returned.
#[inline(always)]
fn finish_returned<K: Sink, H: Host>(
    linked: &Linked,
    s: &mut State,
    sink: &mut K,
    host: &H,
    v: Value,
    left: &mut Result<Left, Stop>,
    halted: &mut Result<(), Halt>,
) -> bool
    ghost out: { Outer }
    requires known { HasArgumentRoom linked.now s.old.given.limit }
    requires scripts { 0 < length linked.now.file.scripts }
    requires host { out.formulas ≡ H.formulas host.now }
    requires finishes { CanFinish linked.now left.old s.old }
    requires fair { IsFairTurn (setting_in linked.now out)
        (turn_of_answer (setting_in linked.now out) left.old (world s.old out) s.old.frames) }
    requires returns { left.old ≡ Ok (Left.Returns v) }
    requires going { halted.old ≡ Ok tt }
    ensures step { StepsIn (left_here linked.now out s.old left.old) out halted.new s.new (K.written sink.old)
        (K.written sink.new) }
    ensures value { (v : Value) → halted.new ≡ Err (Returns v) → left.old ≡ Ok (Left.Returns v) }
    ensures leaves { LeavesStep (setting_in linked.now out) halted.new s.old s.new (K.faults sink.old)
        (K.faults sink.new) }
    ensures none { left.new ≡ Ok Goes }
    ensures goes { result ≡ true → halted.new ≡ Ok tt }
{
    *left = Ok(Left::Goes);
    let done = finish(linked, s, sink, host, Ok(Left::Returns(v)));
    goes_with(done, halted)
}

/// The same as `finish_left`, whatever is left.
#[inline(never)]
fn finish_any<K: Sink, H: Host>(
    linked: &Linked,
    s: &mut State,
    sink: &mut K,
    host: &H,
    left: &mut Result<Left, Stop>,
    halted: &mut Result<(), Halt>,
) -> bool
    ghost out: { Outer }
    requires known { HasArgumentRoom linked.now s.old.given.limit }
    requires scripts { 0 < length linked.now.file.scripts }
    requires host { out.formulas ≡ H.formulas host.now }
    requires finishes { CanFinish linked.now left.old s.old }
    requires fair { IsFairTurn (setting_in linked.now out)
        (turn_of_answer (setting_in linked.now out) left.old (world s.old out) s.old.frames) }
    ensures step { StepsIn (left_here linked.now out s.old left.old) out halted.new s.new (K.written sink.old)
        (K.written sink.new) }
    ensures value { (v : Value) → halted.new ≡ Err (Returns v) → left.old ≡ Ok (Left.Returns v) }
    ensures leaves { LeavesStep (setting_in linked.now out) halted.new s.old s.new (K.faults sink.old)
        (K.faults sink.new) }
    ensures none { left.new ≡ Ok Goes }
    ensures goes { result ≡ true → halted.new ≡ Ok tt }
{
    let what = *left;
    *left = Ok(Left::Goes);
    *halted = finish(linked, s, sink, host, what);
    goes_on(halted)
}

/// What an instruction left to be done is done, and then nothing is left. It answers whether the run goes on; else `halted` says
/// why not. (Most often a number is returned, of which no more is copied.)
#[inline(never)]
fn finish_left<K: Sink, H: Host>(
    linked: &Linked,
    s: &mut State,
    sink: &mut K,
    host: &H,
    left: &mut Result<Left, Stop>,
    halted: &mut Result<(), Halt>,
) -> bool
    ghost out: { Outer }
    requires known { HasArgumentRoom linked.now s.old.given.limit }
    requires scripts { 0 < length linked.now.file.scripts }
    requires host { out.formulas ≡ H.formulas host.now }
    requires finishes { CanFinish linked.now left.old s.old }
    requires fair { IsFairTurn (setting_in linked.now out)
        (turn_of_answer (setting_in linked.now out) left.old (world s.old out) s.old.frames) }
    requires going { halted.old ≡ Ok tt }
    ensures step { StepsIn (left_here linked.now out s.old left.old) out halted.new s.new (K.written sink.old)
        (K.written sink.new) }
    ensures value { (v : Value) → halted.new ≡ Err (Returns v) → left.old ≡ Ok (Left.Returns v) }
    ensures leaves { LeavesStep (setting_in linked.now out) halted.new s.old s.new (K.faults sink.old)
        (K.faults sink.new) }
    ensures none { left.new ≡ Ok Goes }
    ensures goes { result ≡ true → halted.new ≡ Ok tt }
{
    match number_left(left) {
        Some(v) => finish_returned(linked, s, sink, host, v, left, halted),
        None => finish_any(linked, s, sink, host, left, halted),
    }
}

/// One step: where no frame lives the last script is started, else the instruction of the newest frame is run. A line goes to the
/// sink, and a formula is the host's. It answers whether the run goes on. Else `halted` is `Returns` where the last frame returned,
/// and what, `Ends` where the run ends otherwise, and why, and `Fails` where the sink failed, after a front of the line; then of
/// the state its heap alone is told. Before the step, as after it, nothing is left to be done. (Most steps go on, and most instructions leave
/// nothing: so that they copy no answer it is written where it is kept.)
#[inline(always)]
pub fn step_on<'a, K: Sink, H: Host>(
    linked: &'a Linked,
    s: &mut State,
    sink: &mut K,
    host: &H,
    held: &mut Held<'a>,
    left: &mut Result<Left, Stop>,
    halted: &mut Result<(), Halt>,
) -> bool
    ghost out: { Outer }
    requires reached { IsReached linked.now out s.old }
    requires host { out.formulas ≡ H.formulas host.now }
    requires held { IsHeld linked.now held.old }
    requires none { left.old ≡ Ok Goes }
    requires going { halted.old ≡ Ok tt }
    ensures step { StepsAs linked.now out s.old halted.new s.new (K.written sink.old) (K.written sink.new) }
    ensures value { (v : Value) → halted.new ≡ Err (Returns v)
        → value_at_end (setting_in linked.now out) (world s.old out) s.old.frames.living ≡ v }
    ensures leaves { LeavesStep (setting_in linked.now out) halted.new s.old s.new (K.faults sink.old)
        (K.faults sink.new) }
    ensures held { IsHeld linked.now held.new }
    ensures none { left.new ≡ Ok Goes }
    ensures goes { result ≡ true → halted.new ≡ Ok tt }
{
    if s.frames.depth() == 0 {
        return start_over(linked, s, halted);
    }
    if run_held(linked, s, held, left) {
        return true;
    }
    finish_left(linked, s, sink, host, left, halted)
}

/// One step, as `step_on` takes it. It answers `Returns` where the last frame returned, and what, `Ends` where the run ends
/// otherwise, and why, and `Fails` where the sink failed, after a front of the line; then of the state its heap alone is told.
pub fn step<K: Sink, H: Host>(
    linked: &Linked,
    s: &mut State,
    sink: &mut K,
    host: &H,
) -> Result<(), Halt>
    ghost out: { Outer }
    requires reached { IsReached linked.now out s.old }
    requires host { out.formulas ≡ H.formulas host.now }
    ensures step { StepsAs linked.now out s.old result s.new (K.written sink.old) (K.written sink.new) }
    ensures value { (v : Value) → result ≡ Err (Returns v)
        → value_at_end (setting_in linked.now out) (world s.old out) s.old.frames.living ≡ v }
    ensures leaves { LeavesStep (setting_in linked.now out) result s.old s.new (K.faults sink.old)
        (K.faults sink.new) }
{
    let mut held = hold(linked, 0);
    let mut left = Ok(Left::Goes);
    let mut halted = Ok(());
    let _goes = step_on(linked, s, sink, host, &mut held, &mut left, &mut halted);
    halted
}
