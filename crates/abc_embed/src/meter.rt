ghost use Rattle.std.specs.Prelude.{◌≡◌, IfOk, OnOk};
ghost use Rattle.abc_base.specs.Ranges.{IsNumber};
ghost use Rattle.abc_heap_values.specs.declared.values.Span.{Span};
ghost use Rattle.abc_machine.specs.Texts.{CanTell};
ghost use Rattle.abc_session.specs.Beside.{IsBeside};

use crate::fault::Fault;
use abc_base::{Host, Plain, Sink, write_all};
use abc_machine::{End, PlainValue, Reply};
use abc_session::{Session, SessionReply, sessions_stay_beside};
use itoa::Buffer;

/// How many steps the run and each call may take.
const FUEL: u32 = 10000;

/// Runs the file's last script, which makes the session ready for calls.
fn start<K: Sink, H: Host>(session: &mut Session, out: &mut K, host: &H) -> Result<(), Fault>
    requires { IsBeside session.old (H.formulas host.now) }
    ensures { OnOk result (IsBeside session.new (H.formulas host.now)) }
{
    sessions_stay_beside();
    match session.start(FUEL, out, host) {
        End::Done => Ok(()),
        _ => Err(Fault::Ended),
    }
}

/// Writes a text on a line.
fn write_line<K: Sink>(text: &[u8], out: &mut K) -> Result<(), Fault> {
    write_all(out, text)?;
    write_all(out, b"\n")?;
    Ok(())
}

/// Writes a number on a line.
fn write_number<K: Sink>(number: i64, out: &mut K) -> Result<(), Fault> {
    let mut buffer = Buffer::new();
    write_line(buffer.format(number).as_bytes(), out)
}

/// Writes a value that a call gave, on a line.
fn write_value<K: Sink>(session: &Session, value: PlainValue, out: &mut K) -> Result<(), Fault>
    requires { (s : Span) → value ≡ PlainValue.Text s → CanTell session.now s }
{
    match value {
        PlainValue::Text(span) => write_line(session.text(span), out),
        PlainValue::Num(number) => write_number(number, out),
        PlainValue::Bool(true) => write_line(b"true", out),
        PlainValue::Bool(false) => write_line(b"false", out),
        PlainValue::Undefined => write_line(b"undefined", out),
        PlainValue::Null => write_line(b"null", out),
        PlainValue::Other => write_line(b"other", out),
    }
}

/// The value of a reply that gives one.
fn value_of(reply: SessionReply) -> Result<PlainValue, Fault>
    ensures { IfOk result (λ value. reply ≡ SessionReply.Reply (Reply.Value value)) }
{
    match reply {
        SessionReply::Reply(Reply::Value(value)) => Ok(value),
        _ => Err(Fault::Ended),
    }
}

/// Calls the function that the file exports under a name.
fn ask<K: Sink, H: Host>(
    session: &mut Session,
    name: &[u8],
    args: &Plain,
    out: &mut K,
    host: &H,
) -> Result<PlainValue, Fault>
    requires { IsBeside session.old (H.formulas host.now) }
    ensures kept { OnOk result (IsBeside session.new (H.formulas host.now)) }
    ensures text { IfOk result (λ value. (s : Span) → value ≡ PlainValue.Text s → CanTell session.new s) }
{
    sessions_stay_beside();
    match session.export(name) {
        Some(method) => value_of(session.call(method, args, FUEL, out, host)),
        None => Err(Fault::NoExport),
    }
}

/// A call without numbers.
fn nothing() -> Plain {
    Plain {
        count: 0,
        a: 0,
        b: 0,
        c: 0,
        d: 0,
    }
}

/// A call with one number.
fn one(number: i64) -> Plain
    requires { IsNumber number }
    ensures { (result.count ≡ 1) × (result.a ≡ number) }
{
    Plain {
        count: 1,
        a: number,
        b: 0,
        c: 0,
        d: 0,
    }
}

/// One ride of so many stops, whose fare the meter adds to its total.
fn ride<K: Sink, H: Host>(
    session: &mut Session,
    stops: i64,
    out: &mut K,
    host: &H,
) -> Result<(), Fault>
    requires stops { IsNumber stops }
    requires host { IsBeside session.old (H.formulas host.now) }
    ensures { OnOk result (IsBeside session.new (H.formulas host.now)) }
{
    let total = ask(session, b"ride", &one(stops), out, host)?;
    write_value(session, total, out)
}

/// A day of the meter: it is started, does three rides, and gives a receipt.
pub fn drive<K: Sink, H: Host>(session: &mut Session, out: &mut K, host: &H) -> Result<(), Fault>
    requires { IsBeside session.old (H.formulas host.now) }
{
    start(session, out, host)?;
    ride(session, 4, out, host)?;
    ride(session, 0, out, host)?;
    ride(session, 10, out, host)?;
    let receipt = ask(session, b"receipt", &nothing(), out, host)?;
    write_value(session, receipt, out)
}
