ghost use Rattle.std.specs.Prelude.{◌≡◌, ◌↔◌, List, MatchResult, IfSome, IsTrue, None, Some};
ghost use Rattle.abc_base.specs.declared.formula.Formula.{Formula};
ghost use Rattle.abc_meaning.specs.Exports.{IsScriptMethod, export as export_of};
ghost use Rattle.abc_heap_values.specs.declared.values.Span.{Span};
ghost use Rattle.abc_machine.specs.Ended.{HasRun, RunsAs};
ghost use Rattle.abc_machine.specs.Invoked.{call_of};
ghost use Rattle.abc_machine.specs.OneRun.{AnswersAgain, HasEnded, LeavesRun, meaning_of};
ghost use Rattle.abc_machine.specs.Machines.{IsOpened, IsReadyToCall};
ghost use Rattle.abc_machine.specs.declared.ends.End.{End};
ghost use Rattle.abc_machine.specs.declared.ends.End.TheVariants.{WriteFault};
ghost use Rattle.abc_machine.specs.declared.replies.PlainValue.TheVariants.{Text};
ghost use Rattle.abc_machine.specs.declared.replies.Reply.TheVariants.{Value};
ghost use Rattle.abc_meaning.specs.Meaning.{meaning};
ghost use Rattle.abc_objects.specs.Opening.{formula_names};
ghost use Rattle.abc_meaning.specs.Openings.{IsOpeningRefused, setting};
ghost use Rattle.abc_machine.specs.Texts.{CanTell, KeepsTexts, told_text};
ghost use Rattle.abc_session.specs.Sessions.{AnswersIn, HasCalled, LeavesSink};

use crate::exports::export;
use crate::replies::SessionReply;
use abc_base::{Host, Plain, Sink};
use abc_heap_store::Limits;
use abc_heap_values::Span;
use abc_link::Linked;
use abc_machine::{End, Machine};
use abc_objects::OpenError;
use abc_verify::Verified;
use std::alloc::Global;
use std::marker::Model;

/// A verified file that was opened, to be run and then called.
#[derive(Drop)]
pub struct Session {
    machine: Machine,
}

impl Model for Session {
    ghost use Rattle.abc_machine.specs.Machines.{Opened};

    ghost Value = { Opened };

    ghost view = { λ s. s.machine };
}

/// Whether a machine's run was done.
fn is_done(machine: &Machine) -> bool
    ensures { IsTrue result ↔ ((machine.now).ended ≡ Some End.Done) }
{
    match machine.ended() {
        Some(End::Done) => true,
        _ => false,
    }
}

impl Session {
    /// A session of a verified file, within these limits, with the formulas of a host. It answers `TooSmall` exactly where the
    /// objects or, tried next, the cells that every run begins with pass their limit, and `NoMemory` where memory runs out.
    pub fn open<H: Host>(
        alloc: Global,
        verified: Verified,
        limits: &Limits,
        host: &H,
    ) -> Result<Session, OpenError>
        ensures { MatchResult result (IsOpened verified (H.formulas host.now) limits.now)
            (IsOpeningRefused (setting verified (H.formulas host.now)) limits.now) }
    {
        let machine = Machine::open(alloc, verified, limits, host)?;
        Ok(Session { machine })
    }

    /// Runs the file: the init of its last script, at most `fuel` steps. It writes the output of the meaning, with the formulas of
    /// the host given here, and answers how that ends, or `WriteFault` after a front of that output, only where the sink's count
    /// of faults rose. A second start writes nothing, and answers how the first one ended.
    pub fn start<K: Sink, H: Host>(&mut self, fuel: u32, out: &mut K, host: &H) -> End
        requires { self.old.ended ≡ None → formula_names (H.formulas host.now) ≡ self.old.names }
        ensures ends { self.old.ended ≡ None →
            RunsAs (meaning_of self.old (H.formulas host.now) fuel) (K.written out.old) (K.written out.new) result }
        ensures cause { self.old.ended ≡ None → HasRun (K.faults out.old) (K.faults out.new) result }
        ensures leaves { self.old.ended ≡ None
            → LeavesRun self.old self.new (H.formulas host.now) fuel result }
        ensures again { AnswersAgain self.old self.new out.old out.new result }
        ensures keeps { HasEnded self.old self.new result }
    {
        self.machine.run(fuel, out, host)
    }

    /// The method that the file exports under a name: that of the first method trait of its last script with this text and the
    /// public namespace, and `None` exactly where there is none.
    pub fn export(&self, name: &[u8]) -> Option<u32>
        ensures export { (formulas : List Formula)
            → result ≡ export_of (setting self.now.linked formulas) name.now }
        ensures method { (formulas : List Formula)
            → IfSome result (IsScriptMethod (setting self.now.linked formulas)) }
    {
        export(self.machine.linked(), name)
    }

    /// Calls an exported method with numbers, on the heap that the start and the calls before left, at most `fuel` steps. It
    /// writes the output of the call's meaning, with the formulas of the host given here, and answers what comes of it, or
    /// `WriteFault` after a front of that output, only where the sink's count of faults rose. It answers `NotReady` exactly where
    /// no start answered `Done`, and `Closed` exactly where a call before answered `WriteFault`; then it does nothing, and the sink is as it was.
    pub fn call<K: Sink, H: Host>(
        &mut self,
        method: u32,
        args: &Plain,
        fuel: u32,
        out: &mut K,
        host: &H,
    ) -> SessionReply
        requires names { IsReadyToCall self.old → formula_names (H.formulas host.now) ≡ self.old.names }
        requires method { IsReadyToCall self.old
            → IsScriptMethod (setting self.old.linked (H.formulas host.now)) method }
        ensures answers { AnswersIn self.old self.new (call_of method args.now fuel (H.formulas host.now))
            (K.written out.old) (K.written out.new) result }
        ensures cause { HasCalled (K.faults out.old) (K.faults out.new) result }
        ensures sink { LeavesSink out.old out.new result }
        ensures text { (s : Span) → result ≡ SessionReply.Reply (Value (Text s)) → CanTell self.new s }
        ensures texts { KeepsTexts self.old self.new }
    {
        if !is_done(&self.machine) {
            return SessionReply::NotReady;
        }
        if self.machine.is_closed() {
            return SessionReply::Closed;
        }
        SessionReply::Reply(self.machine.invoke(method, args, fuel, out, host))
    }

    /// The bytes of a text that a call gave. They can be told after every later call, also one that failed to write.
    pub fn text(&self, s: Span) -> &[u8]
        requires { CanTell self.now s }
        ensures { result.now ≡ told_text self.now s }
    {
        self.machine.text(s)
    }

    /// The linked file.
    pub fn linked(&self) -> &Linked
        ensures { result.now ≡ self.now.linked }
    {
        self.machine.linked()
    }
}
