//! Tables of stored closures: what is refused and handed back, and that a closure is what answers.
ghost use Rattle.std.specs.Prelude.{◌≡◌, [], pos, IfOk, Some, length};

use abc_base::{Bytes, Formula, Host, NoMemory, Plain, Table, release};
use abc_host::{AddError, Entry, HostTable};
use std::alloc::Global;
use std::cell::Cell;
use std::rc::Rc;
use std::test::*;

/// A formula whose value is 5.
fn constant(alloc: Global, name: &[u8]) -> Result<Formula, NoMemory>
    ensures constant { IfOk result (λ formula. formula.constant ≡ pos 5) }
    ensures factors { IfOk result (λ formula. formula.factors ≡ []) }
{
    Ok(Formula {
        name: Bytes::from_slice(alloc, name)?,
        constant: 5,
        factors: Table::new(alloc),
    })
}

/// Five factors.
fn five(alloc: Global) -> Result<Table<i64>, NoMemory>
    ensures { IfOk result (λ factors. length factors ≡ 5) }
{
    let mut factors = Table::new(alloc);
    factors.push(0)?;
    factors.push(0)?;
    factors.push(0)?;
    factors.push(0)?;
    factors.push(0)?;
    Ok(factors)
}

/// The name of an answer, and that of the entry which it hands back.
fn told(answer: &Result<(), AddError>) -> (&str, &[u8]) {
    match answer {
        Ok(()) => ("added", b"".as_slice()),
        Err(AddError::BadFormula(entry)) => ("bad formula", entry.formula().name.as_slice()),
        Err(AddError::Full(entry)) => ("full", entry.formula().name.as_slice()),
        Err(AddError::NameTaken(entry)) => ("name taken", entry.formula().name.as_slice()),
        Err(AddError::NoMemory(entry)) => ("no memory", entry.formula().name.as_slice()),
    }
}

/// Adds a formula of a name, and tells whether the answer is the one that is wanted and hands back the name where it is refused.
#[tactic(auto, using(crate::proofs::Constants::five))]
fn adds(alloc: Global, table: &mut HostTable, name: &[u8], want: &str) -> Result<bool, NoMemory> {
    let five = |_args: Plain| -> Option<i64>
        ensures { result ≡ Some (pos 5) }
    { Some(5) };
    let run = Box::new(alloc, five)?;
    let answer = table.add(Entry::new(constant(alloc, name)?, run));
    let back = if answer.is_ok() { b"".as_slice() } else { name };
    let is_wanted = told(&answer) == (want, back);
    release(answer);
    Ok(is_wanted)
}

/// Whether names that are taken, too long or new are answered so.
fn names_are_told(alloc: Global, table: &mut HostTable) -> Result<bool, NoMemory> {
    let long = [b'n'; 65];
    for (name, want) in [
        (b"trace".as_slice(), "name taken"),
        (b"Array".as_slice(), "name taken"),
        (long.as_slice(), "bad formula"),
        (b"five".as_slice(), "added"),
        (b"five".as_slice(), "name taken"),
        (b"Five".as_slice(), "added"),
    ] {
        if !adds(alloc, table, name, want)? {
            return Ok(false);
        }
    }
    Ok(table.count() == 2)
}

#[test]
fn refused_names(rt: HostRuntime) -> Result<(), Fail> {
    let mut table = HostTable::new(rt.alloc());
    let are_told = names_are_told(rt.alloc(), &mut table);
    release(table);
    assert!(rt; are_told?);
    Ok(())
}

#[test]
fn refused_factors(rt: HostRuntime) -> Result<(), Fail> {
    let alloc = rt.alloc();
    let mut table = HostTable::new(alloc);
    let formula = Formula {
        name: Bytes::from_slice(alloc, b"wide")?,
        constant: 0,
        factors: five(alloc)?,
    };
    let answer = table.add(Entry::new(formula, Box::new(alloc, |_: Plain| None)?));
    let is_bad = told(&answer) == ("bad formula", b"wide".as_slice());
    release(answer);
    release(table);
    assert!(rt; is_bad);
    Ok(())
}

/// Whether a table has room for 64 formulas.
fn is_full_at_64(alloc: Global, table: &mut HostTable) -> Result<bool, NoMemory> {
    for n in 0..65u8 {
        let want = if n < 64 { "added" } else { "full" };
        if !adds(alloc, table, &[n], want)? {
            return Ok(false);
        }
    }
    Ok(table.count() == 64)
}

#[test]
fn full(rt: HostRuntime) -> Result<(), Fail> {
    let mut table = HostTable::new(rt.alloc());
    let is_full = is_full_at_64(rt.alloc(), &mut table);
    release(table);
    assert!(rt; is_full?);
    Ok(())
}

/// Adds a closure that counts its calls.
#[tactic(auto, using(crate::proofs::Constants::five))]
fn add_counting(
    alloc: Global,
    table: &mut HostTable,
    counter: &Rc<Cell<u8>>,
) -> Result<(), NoMemory> {
    let counted = counter.clone()?;
    let five = move |_args: Plain| -> Option<i64>
        ensures { result ≡ Some (pos 5) }
    {
        counted.set(counted.get().wrapping_add(1));
        Some(5)
    };
    let run = Box::new(alloc, five)?;
    let answer = table.add(Entry::new(constant(alloc, b"counted")?, run));
    release(answer);
    Ok(())
}

/// Whether each formula of a table answers 5 without arguments.
fn all_answer_five(table: &HostTable) -> bool {
    let args = Plain {
        count: 0,
        a: 0,
        b: 0,
        c: 0,
        d: 0,
    };
    for id in 0..table.count() {
        if table.params(id) != 0 || table.call(id, &args) != Some(5) {
            return false;
        }
    }
    true
}

/// Whether closures are added, and answer as they say.
fn closures_answer(
    alloc: Global,
    table: &mut HostTable,
    counter: &Rc<Cell<u8>>,
) -> Result<bool, NoMemory> {
    add_counting(alloc, table, counter)?;
    let is_added = adds(alloc, table, b"plain", "added")?;
    let is_named = table.count() == 2 && table.name(0) == b"counted".as_slice();
    Ok(is_added && is_named && all_answer_five(table))
}

/// A closure is what answers: it counts its calls.
#[test]
fn calls(rt: HostRuntime) -> Result<(), Fail> {
    let alloc = rt.alloc();
    let counter = Rc::new(alloc, Cell::new(0u8))?;
    let mut table = HostTable::new(alloc);
    let answer = closures_answer(alloc, &mut table, &counter);
    release(table);
    assert!(rt; answer?);
    assert_eq!(rt; counter.get(), 1);
    Ok(())
}
