ghost use Rattle.std.specs.Prelude.{◌≡◌, ◌+◌, ◌<◌, ◌^◌, None, get_or, length, IfOk};
ghost use Rattle.abc_link_names.specs.Meaning.{resolve, type_named};
ghost use Rattle.abc_link_names.specs.Meanings.{AreKnown, AreMeanings, MeansBelow};

use crate::named::Named;
use crate::names::Names;
use abc_base::{NoMemory, Table};
use abc_file_types::Abc;
use std::alloc::Global;

/// What a name was found to stand for.
#[derive(Clone, Copy, Debug)]
pub struct Known {
    pub named: Option<Named>,
}

/// What is known of a name.
#[tactic(auto, using(abc_base::proofs::Past::past_end))]
pub fn known_at(known: &Table<Option<Known>>, name: u32) -> Option<Known>
    ensures { result ≡ get_or known.now name None }
{
    match known.fetch(name as usize) {
        Some(found) => found,
        None => None,
    }
}

/// What a name of the pool stands for, where that of some is known.
#[tactic(auto, using(crate::proofs::Meant::known_means))]
fn meaning_at(names: &Names<'_>, known: &Table<Option<Known>>, name: u32) -> Option<Named>
    requires { AreKnown names.now.abc.now known.now }
    ensures { result ≡ resolve names.now.abc.now name }
{
    match known_at(known, name) {
        Some(found) => found.named,
        None => names.resolve(name),
    }
}

/// What the names of a pool stand for, from index 0 on, each looked up once, where that of some is known.
#[tactic(auto, using(crate::proofs::Meant::means_none, crate::proofs::Meant::means_next, crate::proofs::Meant::means_all))]
pub fn meanings_of(
    alloc: Global,
    names: Names<'_>,
    known: &Table<Option<Known>>,
) -> Result<Table<Option<Named>>, NoMemory>
    requires { AreKnown names.abc.now known.now }
    ensures { IfOk result (λ t. AreMeanings names.entry.abc.now t) }
{
    if names.abc.names.len() >= u32::MAX as usize {
        return Err(NoMemory);
    }
    let mut meanings = Table::new(alloc);
    for name in 0..names.abc.names.len() as u32 + 1 {
        meanings.push(meaning_at(&names, known, name))?;
    }
    Ok(meanings)
}

/// A file with what its names stand for.
#[derive(Clone, Copy)]
pub struct Meanings<'a> {
    pub abc: &'a Abc,
    pub table: &'a Table<Option<Named>>,
    ghost sound: { AreMeanings abc.now table.now },
}

impl<'a> Meanings<'a> {
    /// A file with what its names stand for.
    pub fn new(abc: &'a Abc, table: &'a Table<Option<Named>>) -> Meanings<'a>
        requires { AreMeanings abc.now table.now }
        ensures { result.abc.now ≡ abc.now }
    {
        Meanings { abc, table }
    }

    /// What a name stands for: the first class of the file that it names, else what the host has under its text.
    #[tactic(auto, using(crate::proofs::Meant::nothing_meant))]
    pub fn resolve(&self, name: u32) -> Option<Named>
        ensures { result ≡ resolve self.now.abc.now name }
    {
        match self.table.fetch(name as usize) {
            Some(named) => named,
            None => None,
        }
    }

    /// What a type stands for, where index 0 is the type any.
    pub fn type_named(&self, name: u32) -> Option<Named>
        ensures { result ≡ type_named self.now.abc.now name }
    {
        if name == 0 {
            return Some(Named::Any);
        }
        self.resolve(name)
    }
}
