ghost use Rattle.std.specs.Prelude.{◌≡◌, ◌≢◌, ◌+◌, ◌<◌, ◌≤◌, true, Ok};
ghost use Rattle.abc_meaning.specs.Calls.{replies_for};
ghost use Rattle.abc_run_dispatch.specs.Held.{IsHeld};
ghost use Rattle.abc_meaning.specs.Logs.{steps_for};
ghost use Rattle.abc_machine.specs.Ended.{HasRun, RunsAs};
ghost use Rattle.abc_machine.specs.Replied.{HasReplied, RepliesAs, plain_value};
ghost use Rattle.abc_machine.specs.Runs.{Begun, IsRunAt, LeavesWorld};
ghost use Rattle.abc_machine.specs.Texts.{TextsGrow};
ghost use Rattle.abc_machine.specs.Spent.{SpendsAs, as_reply, end_for as end_of, reply_for as reply_of};
ghost use Rattle.abc_machine.specs.declared.ends.End.TheVariants.{WriteFault as FailedRun};
ghost use Rattle.abc_machine.specs.declared.replies.Reply.TheVariants.{WriteFault};
ghost use Rattle.abc_meaning.specs.Meaning.{ran, runs_for};
ghost use Rattle.abc_meaning.specs.Openings.{setting};
ghost use Rattle.abc_run_finish.specs.Steps.{IsReached, LeavesStep};
ghost use Rattle.abc_run_state.specs.Outer.{Outer};
ghost use Rattle.abc_run_state.specs.declared.state.Left.TheVariants.{Goes};

use crate::ends::End;
use crate::replies::{PlainValue, Reply};
use crate::stepping::step_on;
use abc_base::{Host, Sink};
use abc_heap_values::Value;
use abc_link::Linked;
use abc_run_dispatch::{Held, hold};
use abc_run_finish::{Ended, Halt};
use abc_run_state::{Left, State, Stop};

/// A value as the caller sees it.
fn plain(value: Value) -> PlainValue
    ensures { result ≡ plain_value value }
{
    match value {
        Value::Undefined => PlainValue::Undefined,
        Value::Null => PlainValue::Null,
        Value::Num(n) => PlainValue::Num(n),
        Value::Bool(b) => PlainValue::Bool(b),
        Value::Text(s) => PlainValue::Text(s),
        Value::Space(_) | Value::Obj(_) => PlainValue::Other,
    }
}

/// What comes of a call where a step ends.
pub(crate) fn reply_for(halt: Halt) -> Reply
    ensures { result ≡ reply_of halt }
{
    match halt {
        Halt::Fails => Reply::WriteFault,
        Halt::Returns(v) => Reply::Value(plain(v)),
        Halt::Ends(Ended::Uncaught(thrown)) => Reply::Uncaught(thrown),
        Halt::Ends(
            Ended::Profile {
                method,
                index,
                fault,
            },
        ) => Reply::Profile {
            method,
            index,
            fault,
        },
        Halt::Ends(Ended::Full(limit)) => Reply::Full(limit),
    }
}

/// How a run ends: as a call would, whose value is not told.
pub(crate) fn end_for(reply: Reply) -> End
    ensures { result ≡ end_of reply }
{
    match reply {
        Reply::Value(_) => End::Done,
        Reply::Uncaught(thrown) => End::Uncaught(thrown),
        Reply::Profile {
            method,
            index,
            fault,
        } => End::Profile {
            method,
            index,
            fault,
        },
        Reply::FuelSpent => End::FuelSpent,
        Reply::Full(limit) => End::Full(limit),
        Reply::WriteFault => End::WriteFault,
    }
}

/// One step more, for which there is fuel. It answers whether the run goes on; else `halted` says why not. Before the step, as after
/// it, nothing is left to be done.
#[inline(always)]
fn spend<'a, K: Sink, H: Host>(
    linked: &'a Linked,
    s: &mut State,
    fuel: &mut u32,
    sink: &mut K,
    host: &H,
    held: &mut Held<'a>,
    left: &mut Result<Left, Stop>,
    halted: &mut Result<(), Halt>,
) -> bool
    ghost out: { Outer }
    requires reached { IsReached linked.now out s.old }
    requires host { out.formulas ≡ H.formulas host.now }
    requires fuel { 0 < fuel.old }
    requires held { IsHeld linked.now held.old }
    requires none { left.old ≡ Ok Goes }
    requires going { halted.old ≡ Ok tt }
    ensures spends { SpendsAs linked.now out s.old fuel.old (as_reply halted.new) s.new fuel.new
        (K.written sink.old) (K.written sink.new) }
    ensures leaves { LeavesStep (setting linked.now out.formulas) halted.new s.old s.new (K.faults sink.old)
        (K.faults sink.new) }
    ensures taken { fuel.new + 1 ≡ fuel.old }
    ensures held { IsHeld linked.now held.new }
    ensures none { left.new ≡ Ok Goes }
    ensures goes { result ≡ true → halted.new ≡ Ok tt }
{
    *fuel -= 1;
    step_on(linked, s, sink, host, held, left, halted)
}

/// Steps, at most `fuel`, which are taken off it, until one ends.
pub(crate) fn take_steps<K: Sink, H: Host>(
    linked: &Linked,
    s: &mut State,
    fuel: &mut u32,
    sink: &mut K,
    host: &H,
) -> Reply
    ghost begun: { Begun }
    requires at { IsRunAt linked.now begun fuel.old s.old (K.written sink.old) (K.written sink.old) }
    requires host { begun.formulas ≡ H.formulas host.now }
    requires whole { begun.fuel ≡ fuel.old }
    ensures replies { RepliesAs (replies_for (setting linked.now begun.formulas) fuel.old begun.first)
        (K.written sink.old) (K.written sink.new) result }
    ensures cause { HasReplied (K.faults sink.old) (K.faults sink.new) result }
    ensures leaves { result ≢ WriteFault
        → LeavesWorld (setting linked.now begun.formulas)
        (replies_for (setting linked.now begun.formulas) fuel.old begun.first).world s.new }
    ensures steps { result ≢ WriteFault
        → steps_for (setting linked.now begun.formulas) fuel.old begun.first + fuel.new ≡ fuel.old }
    ensures few { fuel.new ≤ fuel.old }
    ensures limit { s.new.given.limit ≡ s.old.given.limit }
    ensures texts { TextsGrow begun.first.world.heap s.new.arena }
{
    let mut held = hold(linked, 0);
    let mut left = Ok(Left::Goes);
    let mut halted = Ok(());
    let mut rest = *fuel;
    while rest > 0 {
        if spend(
            linked,
            s,
            &mut rest,
            sink,
            host,
            &mut held,
            &mut left,
            &mut halted,
        ) {
            continue;
        }
        if let Err(halt) = halted {
            *fuel = rest;
            return reply_for(halt);
        }
    }
    *fuel = rest;
    Reply::FuelSpent
}

/// Runs from a state on, at most `fuel` steps, which are taken off it.
pub(crate) fn run_for<K: Sink, H: Host>(
    linked: &Linked,
    s: &mut State,
    fuel: &mut u32,
    sink: &mut K,
    host: &H,
) -> End
    ghost begun: { Begun }
    requires at { IsRunAt linked.now begun fuel.old s.old (K.written sink.old) (K.written sink.old) }
    requires host { begun.formulas ≡ H.formulas host.now }
    requires whole { begun.fuel ≡ fuel.old }
    ensures runs { RunsAs (ran (runs_for (setting linked.now begun.formulas) fuel.old begun.first))
        (K.written sink.old) (K.written sink.new) result }
    ensures cause { HasRun (K.faults sink.old) (K.faults sink.new) result }
    ensures leaves { result ≢ FailedRun
        → LeavesWorld (setting linked.now begun.formulas)
        (runs_for (setting linked.now begun.formulas) fuel.old begun.first).world s.new }
    ensures steps { result ≢ FailedRun
        → steps_for (setting linked.now begun.formulas) fuel.old begun.first + fuel.new ≡ fuel.old }
    ensures few { fuel.new ≤ fuel.old }
    ensures limit { s.new.given.limit ≡ s.old.given.limit }
{
    end_for(take_steps(linked, s, fuel, sink, host))
}
