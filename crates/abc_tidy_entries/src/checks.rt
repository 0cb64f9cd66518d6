ghost use Rattle.std.specs.Prelude.{◌≡◌, ◌↔◌, ◌≤◌, All, IfOk, IsTrue, MatchResult};
ghost use Rattle.abc_tidy_refs.specs.Refs.{file_refs};
ghost use Rattle.abc_tidy_entries.specs.declared.error.TidyRule.TheVariants as rules;
ghost use Rattle.abc_tidy_entries.specs.Rules.{BodyHolds, HoldsTidyRule, InstrHolds, IsTidyError, IsEntryThere, MethodHolds, names_pool as is_named, pool_size as size_of_pool};

use crate::error::{TidyError, TidyRule};
use abc_base::NoMemory;
use abc_file_types::{Abc, Body, Instr, Method, Pool};
use abc_tidy_refs::{Ref, instr_ref};

/// How many entries a pool has.
fn pool_size(abc: &Abc, pool: Pool) -> usize
    ensures { result ≡ size_of_pool abc.now pool }
{
    match pool {
        Pool::NoPool => 0,
        Pool::Int => abc.ints.len(),
        Pool::UInt => abc.uints.len(),
        Pool::Double => abc.doubles.len(),
        Pool::Text => abc.strings.len(),
        Pool::Space => abc.namespaces.len(),
        Pool::Name => abc.names.len(),
    }
}

/// Whether a number is an index of a pool at all.
pub(crate) fn names_pool(pool: Pool) -> bool
    ensures { result ≡ is_named pool }
{
    match pool {
        Pool::NoPool => false,
        _ => true,
    }
}

/// Whether an index names an entry, or nothing.
fn is_there(abc: &Abc, index: Ref) -> bool
    ensures { IsTrue result ↔ IsEntryThere abc.now index }
{
    !names_pool(index.pool) || index.index as usize <= pool_size(abc, index.pool)
}

/// Whether the operand of an instruction names an entry, or nothing.
fn instr_holds(abc: &Abc, instr: &Instr) -> bool
    ensures { IsTrue result ↔ InstrHolds abc.now instr.now }
{
    match instr_ref(instr) {
        Some(index) => is_there(abc, index),
        None => true,
    }
}

fn all_hold(abc: &Abc, code: &[Instr]) -> bool
    ensures { IsTrue result ↔ All (InstrHolds abc.now) code.now }
{
    code.iter().all(|instr| instr_holds(abc, instr))
}

/// Whether each operand of a body's instructions names an entry, or nothing.
fn body_holds(abc: &Abc, body: &Body) -> bool
    ensures { IsTrue result ↔ BodyHolds abc.now body.now }
{
    all_hold(abc, body.code.as_slice())
}

fn are_at_most(numbers: &[u32], count: usize) -> bool
    ensures { IsTrue result ↔ All (λ n. n ≤ count) numbers.now }
{
    numbers.iter().all(|n| *n as usize <= count)
}

/// Whether no name of a parameter is above the strings.
fn method_holds(abc: &Abc, method: &Method) -> bool
    ensures { IsTrue result ↔ MethodHolds abc.now method.now }
{
    are_at_most(method.param_names.as_slice(), abc.strings.len())
}

/// A number of items, unless there are 2^32 or more.
pub(crate) fn count_of(len: usize) -> Result<u32, NoMemory>
    ensures { IfOk result (λ n. n ≡ len) }
{
    if len > u32::MAX as usize {
        return Err(NoMemory);
    }
    Ok(len as u32)
}

/// Tries that each operand names an entry, or nothing. The first body where one does not is refused.
#[tactic(auto, using(crate::proofs::Firsts::holds_next, crate::proofs::Firsts::refused_body, crate::proofs::Firsts::none_found))]
fn check_bodies(abc: &Abc) -> Result<(), TidyError>
    ensures { MatchResult result (λ _. HoldsTidyRule abc.now rules.Operand) (IsTidyError abc.now) }
{
    let count = count_of(abc.bodies.len())?;
    for i in 0..count {
        if !body_holds(abc, abc.bodies.get(i as usize)) {
            return Err(TidyError::Refused {
                rule: TidyRule::Operand,
                index: i,
            });
        }
    }
    Ok(())
}

/// Tries that no name of a parameter is above the strings. The first method where one is is refused.
#[tactic(auto, using(crate::proofs::Firsts::holds_next, crate::proofs::Firsts::refused_method, crate::proofs::Firsts::none_found))]
fn check_methods(abc: &Abc) -> Result<(), TidyError>
    requires { HoldsTidyRule abc.now rules.Operand }
    ensures { MatchResult result (λ _. HoldsTidyRule abc.now rules.ParamName) (IsTidyError abc.now) }
{
    let count = count_of(abc.methods.len())?;
    for i in 0..count {
        if !method_holds(abc, abc.methods.get(i as usize)) {
            return Err(TidyError::Refused {
                rule: TidyRule::ParamName,
                index: i,
            });
        }
    }
    Ok(())
}

/// Tries the operands and the names of parameters: [`TidyError::Refused`] tells the first body with an operand, or else the first method
/// with a parameter's name, that names no entry. Where each index of the file is there, as it is in a file that was read, the bodies
/// and methods are not gone over.
pub fn check_indices(abc: &Abc, are_there: bool) -> Result<(), TidyError>
    requires { IsTrue are_there → All (IsEntryThere abc.now) (file_refs abc.now) }
    ensures { MatchResult result
        (λ _. HoldsTidyRule abc.now rules.Operand × HoldsTidyRule abc.now rules.ParamName)
        (IsTidyError abc.now) }
{
    if are_there {
        return Ok(());
    }
    check_bodies(abc)?;
    check_methods(abc)?;
    Ok(())
}
