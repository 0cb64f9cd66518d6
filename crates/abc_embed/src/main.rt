//! A whole embedding, which docs/EMBEDDING.md goes through: the file on standard input is opened beside a host of one formula,
//! its last script is run, and its exported functions are called again and again on the heap that the calls before left.
#![tactic(auto)]

mod fault;
mod file;
mod meter;

ghost use Rattle.std.specs.Prelude.{◌≡◌, IfOk};
ghost use Rattle.abc_base.specs.Hosts.{answer_of, number_or_none};
ghost use Rattle.abc_embed.specs.Fare.{fare as the_fare};

use crate::fault::Fault;
use crate::file::verified_file;
use crate::meter::drive;
use abc_base::{
    Bytes, Formula, Host, NoMemory, Plain, Sink, Source, StdSink, StdSource, Table, release,
};
use abc_heap_store::Limits;
use abc_host::{Entry, HostTable};
use abc_session::{Session, sessions_stay_beside};
use std::alloc::Global;

/// How much the code may hold: objects, cells, bytes of text, frames, and values on the stacks.
const LIMITS: Limits = Limits {
    objects: 1000,
    cells: 10000,
    text: 10000,
    frames: 100,
    stack: 1000,
};

/// `fare`: 300, and 25 for each stop.
fn fare_formula(alloc: Global) -> Result<Formula, NoMemory>
    ensures { IfOk result (λ formula. formula ≡ the_fare) }
{
    let name = Bytes::from_slice(alloc, b"fare")?;
    let mut factors = Table::new(alloc);
    factors.push(25)?;
    Ok(Formula {
        name,
        constant: 300,
        factors,
    })
}

/// A number from -2147483648 to 4294967295, or `None`.
fn in_range(z: i64) -> Option<i64>
    ensures { result ≡ number_or_none z }
{
    if -2147483648 <= z && z <= 4294967295 {
        Some(z)
    } else {
        None
    }
}

/// The value of `fare`, by which the host answers.
fn fare(args: &Plain) -> Option<i64>
    requires { args.now.count ≡ 1 }
    ensures { result ≡ answer_of the_fare args.now }
{
    in_range(300 + 25 * args.a)
}

/// Opens the file of a source beside a host, and drives.
fn open_and_drive<S: Source, K: Sink, H: Host>(
    alloc: Global,
    source: &mut S,
    out: &mut K,
    host: &H,
) -> Result<(), Fault> {
    let verified = verified_file(alloc, source)?;
    sessions_stay_beside();
    let mut session = Session::open(alloc, verified, &LIMITS, host)?;
    let driven = drive(&mut session, out, host);
    release(session);
    driven
}

/// Makes the host, whose one formula is a closure, and drives over the standard streams.
fn main(rt: HostRuntime) -> Result<(), Fault> {
    let alloc = rt.alloc();
    let mut host = HostTable::new(alloc);
    let closure = |args: Plain| -> Option<i64>
        requires { args.count ≡ 1 }
        ensures { result ≡ answer_of the_fare args }
    { fare(&args) };
    let entry = Entry::new(fare_formula(alloc)?, Box::new(alloc, closure)?);
    if host.add(entry).is_err() {
        return Err(Fault::NoMemory);
    }
    let mut source = StdSource::new(rt.stdin());
    let mut out = StdSink::new(rt.stdout());
    open_and_drive(alloc, &mut source, &mut out, &host)
}
