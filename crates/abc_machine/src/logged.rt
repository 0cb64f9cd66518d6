ghost use Rattle.std.specs.Prelude.{◌≡◌, ◌≢◌, ◌+◌, ◌≤◌, IsSome, None, Ok};
ghost use Rattle.std.specs.Io.KnownBytes.{append_known};
ghost use Rattle.abc_base.specs.Faults.{HasCause, Rose};
ghost use Rattle.abc_base.specs.Sinks.{GrowsByFront, WritesAll};
ghost use Rattle.abc_meaning.specs.Calls.{replies_for};
ghost use Rattle.abc_meaning.specs.Lines.{end_line};
ghost use Rattle.abc_meaning.specs.Logs.{logs_for, steps_for};
ghost use Rattle.abc_machine.specs.Ended.{HasRun, IsEndOf};
ghost use Rattle.abc_machine.specs.Logged.{HasAllBut, LogsRun, lines_for};
ghost use Rattle.abc_machine.specs.Replied.{HasReplied, IsReplyOf};
ghost use Rattle.abc_machine.specs.Runs.{Begun, IsRunAt, LeavesWorld};
ghost use Rattle.abc_machine.specs.Spent.{SpendsAs};
ghost use Rattle.abc_machine.specs.declared.ends.End.TheVariants.{WriteFault as FailedRun};
ghost use Rattle.abc_machine.specs.declared.replies.Reply.TheVariants.{WriteFault};
ghost use Rattle.abc_meaning.specs.Meaning.{ran, runs_for};
ghost use Rattle.abc_meaning.specs.Throwing.{End as Ending};
ghost use Rattle.abc_meaning.specs.Openings.{setting};
ghost use Rattle.abc_run_finish.specs.Steps.{IsReached};
ghost use Rattle.abc_run_state.specs.Outer.{Outer};

use crate::ending::write_uncaught;
use crate::ends::End;
use crate::logging::step_logged;
use crate::replies::Reply;
use crate::running::{end_for, reply_for};
use abc_base::{Failed, Host, Sink};
use abc_link::Linked;
use abc_log::{Seen, write_limit_end, write_profile_end, write_word_end};
use abc_run_state::State;

/// One step more with its lines, where there is fuel for it.
fn spend_logged<K: Sink, H: Host>(
    linked: &Linked,
    s: &mut State,
    seen: &mut Seen,
    fuel: &mut u32,
    log: &mut K,
    host: &H,
) -> Result<(), Reply>
    ghost out: { Outer }
    requires reached { IsReached linked.now out s.old }
    requires host { out.formulas ≡ H.formulas host.now }
    requires seen { seen.old ≡ s.old.started }
    ensures spends { result ≢ Err WriteFault
        → SpendsAs linked.now out s.old fuel.old result s.new fuel.new None None }
    ensures whole { result ≢ Err WriteFault → IsSome (K.written log.old)
        → K.written log.new ≡ append_known (K.written log.old) (lines_for linked.now out s.old fuel.old) }
    ensures front { result ≡ Err WriteFault → IsSome (K.written log.old)
        → GrowsByFront (K.written log.old) (K.written log.new) (lines_for linked.now out s.old fuel.old) }
    ensures seen { result ≢ Err WriteFault → seen.new ≡ s.new.started }
    ensures later { K.faults log.old ≤ K.faults log.new }
    ensures cause { result ≡ Err WriteFault → Rose (K.faults log.old) (K.faults log.new) }
    ensures few { fuel.new ≤ fuel.old }
    ensures limit { s.new.given.limit ≡ s.old.given.limit }
{
    if *fuel == 0 {
        return Err(Reply::FuelSpent);
    }
    *fuel -= 1;
    match step_logged(linked, s, seen, log, host) {
        Ok(()) => Ok(()),
        Err(halt) => Err(reply_for(halt)),
    }
}

/// Steps with their lines, at most `fuel`, which are taken off it, until one ends.
fn log_steps<K: Sink, H: Host>(
    linked: &Linked,
    s: &mut State,
    seen: &mut Seen,
    fuel: &mut u32,
    log: &mut K,
    host: &H,
) -> Reply
    ghost begun: { Begun }
    requires at { IsRunAt linked.now begun fuel.old s.old None None }
    requires host { begun.formulas ≡ H.formulas host.now }
    requires whole { begun.fuel ≡ fuel.old }
    requires seen { seen.old ≡ s.old.started }
    ensures reply { result ≢ WriteFault
        → IsReplyOf (replies_for (setting linked.now begun.formulas) fuel.old begun.first).reply result }
    ensures whole { result ≢ WriteFault
        → HasAllBut
        (end_line linked.now.file (runs_for (setting linked.now begun.formulas) fuel.old begun.first).end)
        (logs_for (setting linked.now begun.formulas) fuel.old begun.first) (K.written log.old)
        (K.written log.new) }
    ensures front { result ≡ WriteFault → IsSome (K.written log.old)
        → GrowsByFront (K.written log.old) (K.written log.new)
        (logs_for (setting linked.now begun.formulas) fuel.old begun.first) }
    ensures cause { HasReplied (K.faults log.old) (K.faults log.new) result }
    ensures leaves { result ≢ WriteFault
        → LeavesWorld (setting linked.now begun.formulas)
        (replies_for (setting linked.now begun.formulas) fuel.old begun.first).world s.new }
    ensures steps { result ≢ WriteFault
        → steps_for (setting linked.now begun.formulas) fuel.old begun.first + fuel.new ≡ fuel.old }
    ensures few { fuel.new ≤ fuel.old }
    ensures limit { s.new.given.limit ≡ s.old.given.limit }
{
    loop {
        if let Err(reply) = spend_logged(linked, s, seen, fuel, log, host) {
            return reply;
        }
    }
}

/// Writes the line of how a run ends. Where writing failed there is none.
fn write_end<K: Sink>(linked: &Linked, log: &mut K, end: &End) -> Result<(), Failed>
    ensures bytes { (e : Ending) → IsEndOf e end.now
        → WritesAll (K.written log.old) (K.written log.new) result (end_line linked.now.file e) }
    ensures none { end.now ≡ FailedRun → (result ≡ Ok tt) × (log.new ≡ log.old) }
    ensures cause { HasCause (K.faults log.old) (K.faults log.new) result }
{
    match end {
        End::Done => write_word_end(log, b"Done"),
        End::Uncaught(thrown) => write_uncaught(linked, log, thrown),
        End::Profile { fault, .. } => write_profile_end(log, fault.name()),
        End::FuelSpent => write_word_end(log, b"FuelSpent"),
        End::Full(limit) => write_limit_end(log, *limit),
        End::WriteFault => Ok(()),
    }
}

/// Runs from a state on with a log, at most `fuel` steps, which are taken off it.
pub(crate) fn log_for<K: Sink, H: Host>(
    linked: &Linked,
    s: &mut State,
    seen: &mut Seen,
    fuel: &mut u32,
    log: &mut K,
    host: &H,
) -> End
    ghost begun: { Begun }
    requires at { IsRunAt linked.now begun fuel.old s.old None None }
    requires host { begun.formulas ≡ H.formulas host.now }
    requires whole { begun.fuel ≡ fuel.old }
    requires seen { seen.old ≡ s.old.started }
    ensures logs { LogsRun (logs_for (setting linked.now begun.formulas) fuel.old begun.first)
        (ran (runs_for (setting linked.now begun.formulas) fuel.old begun.first)) (K.written log.old)
        (K.written log.new) result }
    ensures cause { HasRun (K.faults log.old) (K.faults log.new) result }
    ensures leaves { result ≢ FailedRun
        → LeavesWorld (setting linked.now begun.formulas)
        (runs_for (setting linked.now begun.formulas) fuel.old begun.first).world s.new }
    ensures steps { result ≢ FailedRun
        → steps_for (setting linked.now begun.formulas) fuel.old begun.first + fuel.new ≡ fuel.old }
    ensures few { fuel.new ≤ fuel.old }
    ensures limit { s.new.given.limit ≡ s.old.given.limit }
{
    let end = end_for(log_steps(linked, s, seen, fuel, log, host));
    match write_end(linked, log, &end) {
        Ok(()) => end,
        Err(Failed) => End::WriteFault,
    }
}
