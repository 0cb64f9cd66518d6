ghost use Rattle.std.specs.Prelude.{◌≡◌, None, Some, replicate, true, IfOk, OnOk};
ghost use Rattle.abc_link_names.specs.Meaning.{meaning_of_name, resolve};
ghost use Rattle.abc_link_names.specs.Meanings.{AreKnown};

use crate::costly::{Way, may_cost_much, one_more, ways_of};
use crate::finder::Finder;
use crate::spots::Spots;
use abc_base::{NoMemory, Table};
use abc_base_graphs::Slate;
use abc_file_types::Abc;
use abc_link_names::{Known, Named, Names, PlainName, Spaces, known_at, plain_name_at};
use std::alloc::Global;

/// Notes what a name stands for, if there is a place for it.
pub(crate) fn note(abc: &Abc, known: &mut Table<Option<Known>>, name: u32, named: Option<Named>)
    requires known { AreKnown abc.now known.old }
    requires named { named ≡ resolve abc.now name }
    ensures { AreKnown abc.now known.new }
{
    let _abc = abc;
    if name as usize >= known.len() {
        return;
    }
    known.set(name as usize, Some(Known { named }));
}

/// Of so many names none is known.
fn none_known(alloc: Global, count: u32) -> Result<Table<Option<Known>>, NoMemory>
    ensures { IfOk result (λ t. t ≡ replicate count None) }
{
    let mut known = Table::new(alloc);
    known.resize(count as usize, None)?;
    Ok(known)
}

fn are_same(a: Spaces, b: Spaces) -> bool
    ensures { result ≡ true → a ≡ b }
{
    a == b
}

/// Whether two names have equal texts and the same namespaces.
fn are_alike(names: &Names<'_>, a: PlainName, b: PlainName) -> bool
    ensures { result ≡ true
        → meaning_of_name names.now.abc.now (Some a) ≡ meaning_of_name names.now.abc.now (Some b) }
{
    names.number(a.string) == names.number(b.string) && are_same(a.spaces, b.spaces)
}

/// Notes that a name stands for what another does, if they are alike.
fn tell_like(names: &Names<'_>, name: u32, other: u32, known: &mut Table<Option<Known>>)
    requires { AreKnown names.now.abc.now known.old }
    ensures { AreKnown names.now.abc.now known.new }
{
    let Some(a) = plain_name_at(names.abc, name) else {
        return;
    };
    let Some(b) = plain_name_at(names.abc, other) else {
        return;
    };
    let Some(found) = known_at(known, other) else {
        return;
    };
    if !are_alike(names, a, b) {
        return;
    }
    note(names.abc, known, name, found.named);
}

/// Notes what a name stands for, if it is like another.
fn tell_by_way(names: &Names<'_>, name: u32, way: Way, known: &mut Table<Option<Known>>)
    requires { AreKnown names.now.abc.now known.old }
    ensures { AreKnown names.now.abc.now known.new }
{
    if let Way::Like(other) = way {
        tell_like(names, name, other, known);
    }
}

/// Notes what names stand for that are like others.
fn tell_likes(names: &Names<'_>, ways: &Table<Way>, count: u32, known: &mut Table<Option<Known>>)
    requires { AreKnown names.now.abc.now known.old }
    ensures { AreKnown names.now.abc.now known.new }
{
    for name in 0..count {
        let way = ways.fetch(name as usize).unwrap_or(Way::Alone);
        tell_by_way(names, name, way, known);
    }
}

/// Notes what those names of a file stand for that cost much.
fn tell_costly(
    alloc: Global,
    names: &Names<'_>,
    ways: &Table<Way>,
    known: &mut Table<Option<Known>>,
) -> Result<(), NoMemory>
    requires { AreKnown names.now.abc.now known.old }
    ensures { OnOk result (AreKnown names.now.abc.now known.new) }
{
    let spots = Spots::new(alloc, names)?;
    let finder = Finder {
        names: *names,
        spots: &spots,
    };
    let mut slate = Slate::new(alloc, names.abc.instances.len())?;
    finder.tell_by_sets(alloc, &mut slate, ways, known)?;
    finder.tell_by_texts(alloc, &mut slate, ways, known)
}

/// What those names of a file stand for that cost much, and those that are like them.
fn known_among(alloc: Global, names: &Names<'_>) -> Result<Table<Option<Known>>, NoMemory>
    ensures { IfOk result (λ t. AreKnown names.now.abc.now t) }
{
    let count = one_more(names.abc.names.len())?;
    let ways = ways_of(alloc, names, count)?;
    let mut known = none_known(alloc, count)?;
    tell_costly(alloc, names, &ways, &mut known)?;
    tell_likes(names, &ways, count, &mut known);
    Ok(known)
}

/// What those names of a pool stand for that would cost much to look up one by one. Of 2^32 names, sets or strings or more there is
/// never room for all.
pub fn known_of(alloc: Global, names: &Names<'_>) -> Result<Table<Option<Known>>, NoMemory>
    ensures { IfOk result (λ t. AreKnown names.now.abc.now t) }
{
    if !may_cost_much(names) {
        return Ok(Table::new(alloc));
    }
    known_among(alloc, names)
}
