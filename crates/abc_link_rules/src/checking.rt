ghost use Rattle.std.specs.Prelude.{◌≡◌, ◌<◌, ◌^◌, length, IsTrue, MatchResult};
ghost use Rattle.abc_link_names.specs.Meanings.{AreMeanings};
ghost use Rattle.abc_link_names.specs.Numbers.{AreNames};
ghost use Rattle.abc_link_names.specs.Rules.{AllHold, AllHoldBefore};
ghost use Rattle.abc_link_names.specs.Firsts.{IsFew, IsLinkRefusal};

use crate::bases::{BaseIsInterface, FinalBase, UnknownBase, UnknownInterface};
use crate::cycles::check_cycles;
use crate::graphs::{base_graph, interface_graph};
use crate::methods::{methods_named, methods_run, methods_with_bodies};
use crate::name_kind::NameKind;
use crate::owners::{NoBody, OwnedTwice};
use crate::same_name::SameName;
use crate::same_slot::SameSlot;
use crate::simple::{NoScript, TooLarge, TraitNotRun, UnknownType};
use crate::times::times_of;
use abc_base::Table;
use abc_file_types::Abc;
use abc_link_names::{LinkError, Meanings, NameTables, Named, Names, check};
use std::alloc::Global;

/// Whether the tables of a file can be counted by 32 bits.
pub fn are_few(abc: &Abc) -> bool
    ensures { IsTrue result → IsFew abc.now }
{
    abc.methods.len() <= u32::MAX as usize
        && abc.instances.len() <= u32::MAX as usize
        && abc.scripts.len() <= u32::MAX as usize
        && abc.bodies.len() <= u32::MAX as usize
}

/// Tries the rules from NoScript to UnknownBase.
#[tactic(auto, using(abc_link_names::proofs::FirstBroken::none_before))]
fn check_names(alloc: Global, meanings: &Meanings<'_>) -> Result<(), LinkError>
    requires { IsFew meanings.now.abc.now }
    ensures { MatchResult result (λ _. AllHoldBefore meanings.now.abc.now 4)
        (IsLinkRefusal meanings.now.abc.now) }
{
    let abc = meanings.abc;
    check(alloc, &NoScript { abc })?;
    check(alloc, &NameKind { abc })?;
    check(
        alloc,
        &UnknownBase {
            meanings: *meanings,
        },
    )
}

/// Tries BaseCycle.
#[tactic(auto, using(abc_link_names::proofs::Within::bases_are_graph, abc_link_names::proofs::Within::interfaces_are_graph, abc_link_names::proofs::Within::as_many_bases, abc_link_names::proofs::Within::as_many_interfaces))]
fn check_base_cycle(alloc: Global, meanings: &Meanings<'_>) -> Result<(), LinkError>
    requires few { IsFew meanings.now.abc.now }
    requires before { AllHoldBefore meanings.now.abc.now 4 }
    ensures { MatchResult result (λ _. AllHoldBefore meanings.now.abc.now 5)
        (IsLinkRefusal meanings.now.abc.now) }
{
    let bases = base_graph(alloc, meanings)?;
    let interfaces = interface_graph(alloc, meanings)?;
    check_cycles(alloc, meanings.abc, &bases, &interfaces)
}

/// Tries the rules from BaseCycle to UnknownType.
fn check_bases(alloc: Global, meanings: &Meanings<'_>) -> Result<(), LinkError>
    requires few { IsFew meanings.now.abc.now }
    requires before { AllHoldBefore meanings.now.abc.now 4 }
    ensures { MatchResult result (λ _. AllHoldBefore meanings.now.abc.now 9)
        (IsLinkRefusal meanings.now.abc.now) }
{
    let meanings = *meanings;
    check_base_cycle(alloc, &meanings)?;
    check(alloc, &FinalBase { meanings })?;
    check(alloc, &BaseIsInterface { meanings })?;
    check(alloc, &UnknownInterface { meanings })?;
    check(alloc, &UnknownType { meanings })
}

/// Tries OwnedTwice.
fn check_owners(alloc: Global, abc: &Abc) -> Result<(), LinkError>
    requires few { IsFew abc.now }
    requires before { AllHoldBefore abc.now 9 }
    ensures { MatchResult result (λ _. AllHoldBefore abc.now 10) (IsLinkRefusal abc.now) }
{
    let methods = methods_named(alloc, abc)?;
    let times = times_of(alloc, methods.as_slice(), abc.methods.len())?;
    let named = times.as_slice();
    check(alloc, &OwnedTwice { abc, named })
}

/// Tries NoBody.
fn check_method_bodies(alloc: Global, abc: &Abc) -> Result<(), LinkError>
    requires few { IsFew abc.now }
    requires before { AllHoldBefore abc.now 10 }
    ensures { MatchResult result (λ _. AllHoldBefore abc.now 11) (IsLinkRefusal abc.now) }
{
    let run = methods_run(alloc, abc)?;
    let run_times = times_of(alloc, run.as_slice(), abc.methods.len())?;
    let with_bodies = methods_with_bodies(alloc, abc)?;
    let body_times = times_of(alloc, with_bodies.as_slice(), abc.methods.len())?;
    let run = run_times.as_slice();
    let bodies = body_times.as_slice();
    check(alloc, &NoBody { abc, run, bodies })
}

/// Tries the rules from SameName to TooLarge.
fn check_traits(
    alloc: Global,
    abc: &Abc,
    tables: &NameTables,
    table: &Table<Option<Named>>,
) -> Result<(), LinkError>
    requires names { AreNames abc.now tables.now }
    requires meanings { AreMeanings abc.now table.now }
    requires few { IsFew abc.now }
    requires before { AllHoldBefore abc.now 11 }
    ensures { MatchResult result (λ _. AllHold abc.now) (IsLinkRefusal abc.now) }
{
    let names = Names { abc, tables };
    let meanings = Meanings { abc, table };
    check(alloc, &SameName { names })?;
    check(alloc, &SameSlot { abc })?;
    check(alloc, &TraitNotRun { meanings })?;
    check(alloc, &TooLarge { abc })
}

/// Tries the rules of linking in order, each over its items in file order. The first broken rule is refused, by the first
/// item that breaks it. A file with 2^32 entries of a table finds no memory.
pub fn check_rules(
    alloc: Global,
    abc: &Abc,
    tables: &NameTables,
    table: &Table<Option<Named>>,
) -> Result<(), LinkError>
    requires names { AreNames abc.now tables.now }
    requires meanings { AreMeanings abc.now table.now }
    ensures { MatchResult result (λ _. AllHold abc.now) (IsLinkRefusal abc.now) }
{
    if !are_few(abc) {
        return Err(LinkError::NoMemory);
    }
    let meanings = Meanings { abc, table };
    check_names(alloc, &meanings)?;
    check_bases(alloc, &meanings)?;
    check_owners(alloc, abc)?;
    check_method_bodies(alloc, abc)?;
    check_traits(alloc, abc, tables, table)
}
