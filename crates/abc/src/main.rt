//! The program: its words, its standard streams, its host, and the status of the top call.
#![tactic(auto)]

ghost use Rattle.std.specs.Prelude.{◌≡◌, IfOk};
ghost use Rattle.abc_base.specs.Hosts.{answer_of, number_or_none, plus, twice};

use abc_base::{
    BuiltinHost, Bytes, Formula, NoMemory, Plain, Status, StdSink, StdSource, Table, Words,
};
use abc_cli::abc_main;
use abc_host::{Entry, HostTable, means_builtin_host};
use std::alloc::Global;
use std::env;
use std::io::ErrorKind;
use std::process::ExitCode;
use std::rt::Env;

/// The words after the program's name. Where an argument is no text, so that the words can't be had, they are one empty
/// word, which is outside the grammar.
fn words_of<R: Env + AllocGlobal>(rt: &R) -> Result<Words, NoMemory> {
    let mut words = Words::new(rt.alloc());
    match env::args(rt) {
        Ok(args) => {
            for arg in args.skip(1) {
                words.push(arg.as_str().as_bytes())?;
            }
        }
        Err(e) if e.kind() == ErrorKind::OutOfMemory => return Err(NoMemory),
        Err(_) => words.push(b"")?,
    }
    Ok(words)
}

/// `twice`, which doubles a number.
fn twice_formula(alloc: Global) -> Result<Formula, NoMemory>
    ensures { IfOk result (λ formula. formula ≡ twice) }
{
    let name = Bytes::from_slice(alloc, b"twice")?;
    let mut factors = Table::new(alloc);
    factors.push(2)?;
    Ok(Formula {
        name,
        constant: 0,
        factors,
    })
}

/// `plus`, which adds two numbers.
fn plus_formula(alloc: Global) -> Result<Formula, NoMemory>
    ensures { IfOk result (λ formula. formula ≡ plus) }
{
    let name = Bytes::from_slice(alloc, b"plus")?;
    let mut factors = Table::new(alloc);
    factors.push(1)?;
    factors.push(1)?;
    Ok(Formula {
        name,
        constant: 0,
        factors,
    })
}

/// A number from -2147483648 to 4294967295, or `None`.
fn in_range(z: i64) -> Option<i64>
    ensures { result ≡ number_or_none z }
{
    if -2147483648 <= z && z <= 4294967295 {
        Some(z)
    } else {
        None
    }
}

/// The value of `twice`.
fn double(args: &Plain) -> Option<i64>
    requires { args.now.count ≡ 1 }
    ensures { result ≡ answer_of twice args.now }
{
    in_range(2 * args.a)
}

/// The value of `plus`.
fn sum(args: &Plain) -> Option<i64>
    requires { args.now.count ≡ 2 }
    ensures { result ≡ answer_of plus args.now }
{
    in_range(args.a + args.b)
}

/// Makes the words and the host, and runs the top call. The two formulas differ and are within their bounds, so memory is
/// all that an entry can be wanting.
fn run(rt: HostRuntime) -> Result<Status, NoMemory> {
    let words = words_of(&rt)?;
    let alloc = rt.alloc();
    let mut host = HostTable::new(alloc);
    let closure = |args: Plain| -> Option<i64>
        requires { args.count ≡ 1 }
        ensures { result ≡ answer_of twice args }
    { double(&args) };
    let entry = Entry::new(twice_formula(alloc)?, Box::new(alloc, closure)?);
    if host.add(entry).is_err() {
        return Err(NoMemory);
    }
    let closure = |args: Plain| -> Option<i64>
        requires { args.count ≡ 2 }
        ensures { result ≡ answer_of plus args }
    { sum(&args) };
    let entry = Entry::new(plus_formula(alloc)?, Box::new(alloc, closure)?);
    if host.add(entry).is_err() {
        return Err(NoMemory);
    }
    // A law, which says that the host has the two formulas, in this order.
    means_builtin_host(&host, &BuiltinHost);
    let mut source = StdSource::new(rt.stdin());
    let mut out = StdSink::new(rt.stdout());
    let mut err = StdSink::new(rt.stderr());
    Ok(abc_main(alloc, &words, &mut source, &mut out, &mut err, &host))
}

fn main(rt: HostRuntime) -> ExitCode {
    match run(rt) {
        Ok(status) => ExitCode::from(status.code()),
        Err(NoMemory) => {
            let _ = eprintln!(rt; "abc: no memory");
            ExitCode::from(9)
        }
    }
}
