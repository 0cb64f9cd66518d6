ghost use Rattle.std.specs.Prelude.{◌≡◌, None, MatchResult};
ghost use Rattle.abc_meaning.specs.Exports.{IsScriptMethod};
ghost use Rattle.abc_heap_values.specs.declared.values.Span.{Span};
ghost use Rattle.abc_machine.specs.Ended.{HasRun, RunsAs};
ghost use Rattle.abc_machine.specs.Invoked.{AnswersCall, call_of};
ghost use Rattle.abc_machine.specs.Logged.{LogsRun};
ghost use Rattle.abc_machine.specs.Machines.{IsFirstState, IsOpened, IsReadyToCall};
ghost use Rattle.abc_machine.specs.OneRun.{AnswersAgain, HasEnded, LeavesRun, log_of, meaning_of};
ghost use Rattle.abc_machine.specs.Replied.{HasReplied};
ghost use Rattle.abc_machine.specs.Texts.{CanTell, KeepsTexts, told_text};
ghost use Rattle.abc_machine.specs.declared.replies.PlainValue.TheVariants.{Text};
ghost use Rattle.abc_objects.specs.Opening.{formula_names};
ghost use Rattle.abc_meaning.specs.Openings.{IsOpeningRefused, setting};

use crate::calling::{call_for, is_write_fault};
use crate::ends::End;
use crate::logged::log_for;
use crate::replies::Reply;
use crate::running::run_for;
use abc_base::{Host, Plain, Sink, release};
use abc_heap_store::Limits;
use abc_heap_values::Span;
use abc_link::Linked;
use abc_log::Seen;
use abc_objects::OpenError;
use abc_run_finish::{drop_frames, open_state};
use abc_run_state::State;
use abc_verify::Verified;
use std::alloc::Global;
use std::marker::Model;

/// A verified file with all the memory that it may fill, which scripts are started, as a log tells it, how its run ended, how many steps
/// it took, and whether a call failed to write.
#[derive(Drop)]
pub struct Machine {
    verified: Verified,
    state: State,
    seen: Seen,
    ended: Option<End>,
    steps: u32,
    closed: bool,
}

impl Model for Machine {
    ghost use Rattle.abc_machine.specs.Machines.{MachineKeeps, Opened, kept_world};

    ghost Value = { Opened };

    ghost view = { λ m. record {
      linked = m.verified;
      names = m.state.arena.formulas;
      limits = m.state.arena.limits;
      ended = m.ended;
      closed = m.closed;
      world = kept_world m.state;
      steps = m.steps;
    } };

    ghost invariant = { λ m. MachineKeeps m.verified m.state m.seen m.ended m.closed };
}

/// What a machine begins with: the state of its run, and which scripts a log counts as started.
#[derive(Drop)]
struct First {
    state: State,
    seen: Seen,
}

/// The state that a run of a file begins with, and no script started.
fn open_first<H: Host>(
    alloc: Global,
    linked: &Linked,
    limits: &Limits,
    host: &H,
) -> Result<First, OpenError>
    ensures { MatchResult result
        (λ first. IsFirstState linked.now (H.formulas host.now) limits.now first.state first.seen)
        (IsOpeningRefused (setting linked.now (H.formulas host.now)) limits.now) }
{
    let seen = Seen::new(alloc, linked.abc().scripts.len())?;
    let state = open_state(alloc, linked, limits, host)?;
    Ok(First { state, seen })
}

impl Machine {
    /// A machine for a verified file, within these limits, with the formulas of a host. It answers `TooSmall` exactly where the
    /// objects or, tried next, the cells that every run begins with pass their limit, and `NoMemory` where memory runs out.
    pub fn open<H: Host>(
        alloc: Global,
        verified: Verified,
        limits: &Limits,
        host: &H,
    ) -> Result<Machine, OpenError>
        ensures { MatchResult result (IsOpened verified (H.formulas host.now) limits.now)
            (IsOpeningRefused (setting verified (H.formulas host.now)) limits.now) }
    {
        let _cells = limits.cells;
        match open_first(alloc, verified.linked(), limits, host) {
            Ok(first) => Ok(Machine {
                verified,
                state: first.state,
                seen: first.seen,
                ended: None,
                steps: 0,
                closed: false,
            }),
            Err(e) => {
                release(verified);
                Err(e)
            }
        }
    }

    /// Runs the file: the init of its last script, at most `fuel` steps. It writes the output of the meaning, with the formulas of
    /// the host given here, and answers how that ends, or `WriteFault` after a front of that output, only where the sink's count
    /// of faults rose. It takes no memory. A second run writes nothing, and answers how the first one ended.
    pub fn run<K: Sink, H: Host>(&mut self, fuel: u32, out: &mut K, host: &H) -> End
        requires { self.old.ended ≡ None → formula_names (H.formulas host.now) ≡ self.old.names }
        ensures ends { self.old.ended ≡ None →
            RunsAs (meaning_of self.old (H.formulas host.now) fuel) (K.written out.old) (K.written out.new) result }
        ensures cause { self.old.ended ≡ None → HasRun (K.faults out.old) (K.faults out.new) result }
        ensures leaves { self.old.ended ≡ None
            → LeavesRun self.old self.new (H.formulas host.now) fuel result }
        ensures again { AnswersAgain self.old self.new out.old out.new result }
        ensures keeps { HasEnded self.old self.new result }
    {
        match self.ended {
            Some(end) => end,
            None => {
                let linked = self.verified.linked();
                linked.linked_law();
                self.verified.verified_law();
                let mut left = fuel;
                let end = run_for(linked, &mut self.state, &mut left, out, host);
                drop_frames(&mut self.state);
                self.ended = Some(end);
                self.steps = fuel - left;
                end
            }
        }
    }

    /// Runs the file as `run` does, and writes the log of that in place of its output: a line for each step, with the bytes that it
    /// wrote, and a line that says how the run ends. It answers the meaning's end, or `WriteFault` after a front of the log, only where
    /// the sink's count of faults rose. It takes no memory. A machine that was run writes nothing, and answers how that ended.
    pub fn run_logged<K: Sink, H: Host>(&mut self, fuel: u32, log: &mut K, host: &H) -> End
        requires { self.old.ended ≡ None → formula_names (H.formulas host.now) ≡ self.old.names }
        ensures logs { let formulas = H.formulas host.now in
            self.old.ended ≡ None →
            LogsRun (log_of self.old formulas fuel) (meaning_of self.old formulas fuel) (K.written log.old) (K.written log.new) result }
        ensures cause { self.old.ended ≡ None → HasRun (K.faults log.old) (K.faults log.new) result }
        ensures leaves { self.old.ended ≡ None
            → LeavesRun self.old self.new (H.formulas host.now) fuel result }
        ensures again { AnswersAgain self.old self.new log.old log.new result }
        ensures keeps { HasEnded self.old self.new result }
    {
        match self.ended {
            Some(end) => end,
            None => {
                let linked = self.verified.linked();
                linked.linked_law();
                self.verified.verified_law();
                let mut unspent = fuel;
                let end = log_for(
                    linked,
                    &mut self.state,
                    &mut self.seen,
                    &mut unspent,
                    log,
                    host,
                );
                drop_frames(&mut self.state);
                self.ended = Some(end);
                self.steps = fuel - unspent;
                end
            }
        }
    }

    /// Calls a method trait of the last script with numbers, on the heap that the run and the calls before left, at most `fuel`
    /// steps. It writes the output of the call's meaning, with the formulas of the host given here, and answers what comes of it,
    /// or `WriteFault` after a front of that output, only where the sink's count of faults rose; then no other call may follow. It
    /// takes no memory.
    pub fn invoke<K: Sink, H: Host>(
        &mut self,
        method: u32,
        args: &Plain,
        fuel: u32,
        out: &mut K,
        host: &H,
    ) -> Reply
        requires ready { IsReadyToCall self.old }
        requires names { formula_names (H.formulas host.now) ≡ self.old.names }
        requires method { IsScriptMethod (setting self.old.linked (H.formulas host.now)) method }
        ensures answers { AnswersCall self.old self.new (call_of method args.now fuel (H.formulas host.now))
            (K.written out.old) (K.written out.new) result }
        ensures cause { HasReplied (K.faults out.old) (K.faults out.new) result }
        ensures text { (s : Span) → result ≡ Reply.Value (Text s) → CanTell self.new s }
        ensures texts { KeepsTexts self.old self.new }
    {
        let linked = self.verified.linked();
        linked.linked_law();
        self.verified.verified_law();
        let reply = call_for(linked, &mut self.state, method, args, fuel, out, host);
        drop_frames(&mut self.state);
        self.closed = is_write_fault(&reply);
        reply
    }

    /// How its run ended, if it was run.
    pub fn ended(&self) -> Option<End>
        ensures { result ≡ self.now.ended }
    {
        self.ended
    }

    /// How many steps its run took: none before it was run. Where writing failed nothing is said of it, and a call doesn't change it.
    pub fn steps(&self) -> u32
        ensures { result ≡ self.now.steps }
    {
        self.steps
    }

    /// Whether a call failed to write. Then no other may follow.
    pub fn is_closed(&self) -> bool
        ensures { result ≡ self.now.closed }
    {
        self.closed
    }

    /// The bytes of a text that a call gave. They can be told after every later call, also one that failed to write.
    pub fn text(&self, s: Span) -> &[u8]
        requires { CanTell self.now s }
        ensures { result.now ≡ told_text self.now s }
    {
        self.state.arena.text_bytes(self.verified.linked(), s)
    }

    /// The linked file that it runs.
    pub fn linked(&self) -> &Linked
        ensures { result.now ≡ self.now.linked }
    {
        self.verified.linked()
    }
}
