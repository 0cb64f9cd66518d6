ghost use Rattle.std.specs.Prelude.{◌≡◌, ◌++◌, ◌∷◌, [], IfErr, pos};
ghost use Rattle.std.specs.Fmt.{signed_decimal};
ghost use Rattle.abc_base.specs.Faults.{HasCause};
ghost use Rattle.abc_base.specs.Hosts.{plain_arguments};
ghost use Rattle.abc_base.specs.Sinks.{WritesAll};
ghost use Rattle.abc_meaning.specs.Calls.{answers_call};
ghost use Rattle.abc_meaning.specs.Exports.{IsScriptMethod};
ghost use Rattle.abc_objects.specs.Opening.{formula_names};
ghost use Rattle.abc_machine.specs.Ended.{HasRun, RunsAs};
ghost use Rattle.abc_machine.specs.Machines.{IsOpened, IsReadyToCall};
ghost use Rattle.abc_meaning.specs.Openings.{setting};
ghost use Rattle.abc_session.specs.Ticks.{calls_meaning, tick, ticks_run, value_line};
ghost use Rattle.abc_session.specs.Told.{GoesOnToCall, HasToldText, TellsAs, Tried, value_or_end as value_of_reply};

use crate::replies::SessionReply;
use crate::session::Session;
use abc_base::{Failed, Host, Plain, Sink, write_all};
use abc_machine::{End, PlainValue, Reply};
use itoa::Buffer;

/// One number, as an exported function takes it.
fn one_number(number: u32) -> Plain
    ensures { plain_arguments result ≡ pos number ∷ [] }
{
    Plain {
        count: 1,
        a: i64::from(number),
        b: 0,
        c: 0,
        d: 0,
    }
}

/// The value that a call gave, or how all ends.
fn value_or_end(reply: SessionReply) -> Result<PlainValue, End>
    ensures { result ≡ value_of_reply reply }
{
    match reply {
        SessionReply::Reply(Reply::Value(value)) => Ok(value),
        SessionReply::Reply(Reply::Uncaught(thrown)) => Err(End::Uncaught(thrown)),
        SessionReply::Reply(
            Reply::Profile {
                method,
                index,
                fault,
            },
        ) => Err(End::Profile {
            method,
            index,
            fault,
        }),
        SessionReply::Reply(Reply::FuelSpent) => Err(End::FuelSpent),
        SessionReply::Reply(Reply::Full(limit)) => Err(End::Full(limit)),
        SessionReply::Reply(Reply::WriteFault) => Err(End::WriteFault),
        SessionReply::NotReady => Err(End::WriteFault),
        SessionReply::Closed => Err(End::WriteFault),
    }
}

/// Writes a text and a line feed.
#[tactic(auto, using(abc_base::proofs::Writing::writing))]
fn write_text<K: Sink>(out: &mut K, text: &[u8]) -> Result<(), Failed>
    ensures bytes { WritesAll (K.written out.old) (K.written out.new) result (text.now ++ 10 ∷ []) }
    ensures cause { HasCause (K.faults out.old) (K.faults out.new) result }
{
    write_all(out, text)?;
    write_all(out, b"\n")
}

/// Writes a number and a line feed.
fn write_number<K: Sink>(out: &mut K, number: i64) -> Result<(), Failed>
    ensures bytes { WritesAll (K.written out.old) (K.written out.new) result
        (signed_decimal number ++ 10 ∷ []) }
    ensures cause { HasCause (K.faults out.old) (K.faults out.new) result }
{
    let mut buffer = Buffer::new();
    write_text(out, buffer.format(number).as_bytes())
}

/// Writes the line of a value.
#[tactic(auto, unfolding(crate::specs::Ticks::value_line))]
fn write_value<K: Sink>(session: &Session, value: PlainValue, out: &mut K) -> Result<(), Failed>
    requires { HasToldText session.now value }
    ensures bytes { WritesAll (K.written out.old) (K.written out.new) result
        (value_line (session.now).linked.file (session.now).world.heap value) }
    ensures cause { HasCause (K.faults out.old) (K.faults out.new) result }
{
    match value {
        PlainValue::Undefined => write_text(out, b"undefined"),
        PlainValue::Null => write_text(out, b"null"),
        PlainValue::Bool(true) => write_text(out, b"true"),
        PlainValue::Bool(false) => write_text(out, b"false"),
        PlainValue::Num(number) => write_number(out, number),
        PlainValue::Text(span) => write_text(out, session.text(span)),
        PlainValue::Other => write_text(out, b"other"),
    }
}

/// Writes the line of a value; where that fails, all ends so.
fn tell<K: Sink>(session: &Session, value: PlainValue, out: &mut K) -> Result<(), End>
    requires { HasToldText session.now value }
    ensures bytes { WritesAll (K.written out.old) (K.written out.new) result
        (value_line (session.now).linked.file (session.now).world.heap value) }
    ensures cause { HasCause (K.faults out.old) (K.faults out.new) result }
    ensures fault { IfErr result (λ end. end ≡ End.WriteFault) }
{
    match write_value(session, value, out) {
        Ok(()) => Ok(()),
        Err(_) => Err(End::WriteFault),
    }
}

/// Calls a method with a number, and writes the line of the value that it gives.
fn call_once<K: Sink, H: Host>(
    session: &mut Session,
    method: u32,
    number: u32,
    fuel: u32,
    out: &mut K,
    host: &H,
) -> Result<(), End>
    requires ready { IsReadyToCall session.old }
    requires names { formula_names (H.formulas host.now) ≡ session.old.names }
    requires method { IsScriptMethod (setting session.old.linked (H.formulas host.now)) method }
    ensures tells { TellsAs session.old.linked.file
        (answers_call session.old.linked session.old.world (tick method fuel (H.formulas host.now) number))
        (K.written out.old) (K.written out.new) result }
    ensures goes_on { GoesOnToCall session.old session.new
        (answers_call session.old.linked session.old.world (tick method fuel (H.formulas host.now) number))
        result }
    ensures linked { session.new.linked ≡ session.old.linked }
    ensures cause { Tried (K.faults out.old) (K.faults out.new) result }
{
    let args = one_number(number);
    match value_or_end(session.call(method, &args, fuel, out, host)) {
        Ok(value) => tell(session, value, out),
        Err(end) => Err(end),
    }
}

/// Calls a method with 0, 1 and so on, so many times, each on what the one before left and with the whole fuel, until one gives no
/// value.
fn call_each<K: Sink, H: Host>(
    session: &mut Session,
    method: u32,
    fuel: u32,
    times: u32,
    out: &mut K,
    host: &H,
) -> End
    requires ready { IsReadyToCall session.old }
    requires names { formula_names (H.formulas host.now) ≡ session.old.names }
    requires method { IsScriptMethod (setting session.old.linked (H.formulas host.now)) method }
    ensures runs { RunsAs
        (ticks_run (setting session.old.linked (H.formulas host.now)) method fuel times session.old.world)
        (K.written out.old) (K.written out.new) result }
    ensures cause { HasRun (K.faults out.old) (K.faults out.new) result }
    ensures linked { session.new.linked ≡ session.old.linked }
{
    for number in 0..times {
        if let Err(end) = call_once(session, method, number, fuel, out, host) {
            return end;
        }
    }
    End::Done
}

/// Runs an opened session, at most `fuel` steps, and where the run is done calls a method with 0, 1 and so on, `times` times, each at
/// most `fuel` steps and on what the one before left. It writes what they mean as one run, each value with its line, and answers how
/// that ends, or `WriteFault` after a front of that output, only where the sink's count of faults rose.
pub fn run_and_call<K: Sink, H: Host>(
    session: &mut Session,
    method: u32,
    fuel: u32,
    times: u32,
    out: &mut K,
    host: &H,
) -> End
    requires opened { IsOpened session.old.linked (H.formulas host.now) session.old.limits session.old }
    requires method { IsScriptMethod (setting session.old.linked (H.formulas host.now)) method }
    ensures runs { RunsAs (calls_meaning (setting session.old.linked (H.formulas host.now)) session.old.limits
        fuel times method) (K.written out.old) (K.written out.new) result }
    ensures cause { HasRun (K.faults out.old) (K.faults out.new) result }
    ensures linked { session.new.linked ≡ session.old.linked }
{
    match session.start(fuel, out, host) {
        End::Done => call_each(session, method, fuel, times, out, host),
        end => end,
    }
}
