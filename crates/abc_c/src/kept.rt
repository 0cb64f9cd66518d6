ghost use Rattle.std.specs.Prelude.{◌≡◌, MatchResult, None};
ghost use Rattle.abc_base.specs.Hosts.{builtin_formulas};
ghost use Rattle.abc_heap_values.specs.declared.values.Span.{Span};
ghost use Rattle.abc_machine.specs.Machines.{IsOpened};
ghost use Rattle.abc_machine.specs.Texts.{CanTell};
ghost use Rattle.abc_meaning.specs.Exports.{IsScriptMethod};
ghost use Rattle.abc_meaning.specs.Openings.{setting};
ghost use Rattle.abc_session.specs.Beside.{IsBeside};
ghost use Rattle.abc_session.specs.Told.{HasToldText};
ghost use Rattle.abc_c.specs.Answered.{IsAnswered, IsDone, Tells, PutsText, PutsValue, end_status};
ghost use Rattle.abc_c.specs.Crossing.{CanBeMade, limits_of_bounds};
ghost use Rattle.abc_c.specs.Opening.{IsUnopened};
ghost use Rattle.abc_c.specs.Outcome.{IsStarted};

use crate::crossing::{Answer, Bounds, Call, Kind};
use crate::opening::Unopened;
use abc_base::{BuiltinHost, MemSink, Status, write_all};
use abc_machine::{End, PlainValue, Reply};
use abc_objects::OpenError;
use abc_session::{Session, SessionReply, sessions_stay_beside};
use abc_verify::Verified;
use std::alloc::Global;

/// A session that is used beside the built-in host alone.
#[derive(Drop)]
pub struct Kept {
    session: Session,
    ghost beside: { IsBeside session builtin_formulas },
}

/// The status of an end.
pub fn status_of_end(end: End) -> Status
    ensures { result ≡ end_status end }
{
    match end {
        End::Done => Status::Done,
        End::Uncaught(_) => Status::Uncaught,
        End::Profile { .. } => Status::Profile,
        End::FuelSpent => Status::Fuel,
        End::Full(_) => Status::Limit,
        End::WriteFault => Status::WriteFault,
    }
}

/// Writes a text to the output, and tells where it stands there.
fn tell_text(bytes: &[u8], out: &mut MemSink) -> Answer
    ensures { PutsText bytes.now out.old.taken out.new.taken result }
{
    let start = out.written().len();
    match write_all(out, bytes) {
        Ok(()) => Answer::text(start, bytes.len()),
        Err(_) => Answer::without(Status::WriteFault),
    }
}

/// The answer that gives a value.
fn tell_value(session: &Session, value: PlainValue, out: &mut MemSink) -> Answer
    requires { HasToldText session.now value }
    ensures { PutsValue session.now value out.old.taken out.new.taken result }
{
    match value {
        PlainValue::Undefined => Answer::of(Kind::Undefined, 0),
        PlainValue::Null => Answer::of(Kind::Null, 0),
        PlainValue::Bool(false) => Answer::of(Kind::Bool, 0),
        PlainValue::Bool(true) => Answer::of(Kind::Bool, 1),
        PlainValue::Num(n) => Answer::of(Kind::Num, n),
        PlainValue::Text(span) => tell_text(session.text(span), out),
        PlainValue::Other => Answer::of(Kind::Other, 0),
    }
}

/// The answer of a reply.
fn tell(session: &Session, reply: SessionReply, out: &mut MemSink) -> Answer
    requires { (s : Span) → reply ≡ SessionReply.Reply (Reply.Value (PlainValue.Text s))
        → CanTell session.now s }
    ensures { Tells session.now reply out.old.taken out.new.taken result }
{
    match reply {
        SessionReply::Reply(Reply::Value(value)) => tell_value(session, value, out),
        SessionReply::Reply(Reply::Uncaught(_)) => Answer::without(Status::Uncaught),
        SessionReply::Reply(Reply::Profile { .. }) => Answer::without(Status::Profile),
        SessionReply::Reply(Reply::FuelSpent) => Answer::without(Status::Fuel),
        SessionReply::Reply(Reply::Full(_)) => Answer::without(Status::Limit),
        SessionReply::Reply(Reply::WriteFault) => Answer::without(Status::WriteFault),
        SessionReply::Closed => Answer::without(Status::WriteFault),
        SessionReply::NotReady => Answer::without(Status::Usage),
    }
}

impl Kept {
    /// Opens a verified file within bounds.
    pub fn open(alloc: Global, verified: Verified, bounds: &Bounds) -> Result<Kept, Unopened>
        ensures { MatchResult result
            (λ kept. IsOpened verified builtin_formulas (limits_of_bounds bounds.now) kept.session)
            (IsUnopened verified bounds.now) }
    {
        sessions_stay_beside();
        match Session::open(alloc, verified, &bounds.limits(), &BuiltinHost) {
            Ok(session) => Ok(Kept { session }),
            Err(OpenError::TooSmall(_)) => Err(Unopened::TooSmall),
            Err(OpenError::NoMemory) => Err(Unopened::NoMemory),
        }
    }

    /// Runs the last script, and gives its end.
    pub fn start(&mut self, fuel: u32, out: &mut MemSink) -> End
        requires { (self.old.session).ended ≡ None }
        ensures { IsStarted self.old.session self.new.session fuel result out.old.taken out.new.taken }
    {
        sessions_stay_beside();
        self.session.start(fuel, out, &BuiltinHost)
    }

    /// Makes a call of a method that the file exports.
    fn call(&mut self, method: u32, names: &[u8], call: &Call, out: &mut MemSink) -> Answer
        requires made { CanBeMade names.now call.now }
        requires method { IsScriptMethod (setting (self.old.session).linked builtin_formulas) method }
        ensures { IsDone self.old.session self.new.session method call.now out.old.taken out.new.taken
            result }
    {
        sessions_stay_beside();
        let numbers = call.numbers(names);
        let reply = self
            .session
            .call(method, &numbers, call.fuel, out, &BuiltinHost);
        tell(&self.session, reply, out)
    }

    /// Makes a call, where its name and its numbers are as they may be, and the file exports that name.
    pub fn answer(&mut self, names: &[u8], call: &Call, out: &mut MemSink) -> Answer
        ensures { IsAnswered names.now self.old.session self.new.session call.now out.old.taken out.new.taken
            result }
    {
        if !call.can_be_made(names) {
            return Answer::without(Status::Usage);
        }
        match self.session.export(call.name(names)) {
            Some(method) => self.call(method, names, call, out),
            None => Answer::without(Status::Refused),
        }
    }
}
