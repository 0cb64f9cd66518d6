ghost use Rattle.std.specs.Prelude.{◌≡◌, ◌<◌, ◌↔◌, IsTrue, MatchBool, [], ◌∷◌, ◌++◌, length, map, OnOk, OnErr};
ghost use Rattle.abc_base.specs.Hosts.{AreFormulas};

use crate::bounds::is_within_bounds;
use crate::entry::Entry;
use crate::names::{is_name_among, is_name_of_host};
use abc_base::Bytes;
use std::alloc::{AllocFailed, Global};

/// Why an entry isn't added. Each hands the entry back.
#[derive(Drop)]
pub enum AddError {
    /// The name has more than 64 bytes, there are more than four factors, or a number is outside -2^31 to 2^31.
    BadFormula(Entry),
    /// There are 64 entries already.
    Full(Entry),
    /// The name is `trace`, that of a class of the host, or that of an entry.
    NameTaken(Entry),
    /// Memory ran out.
    NoMemory(Entry),
}

/// A host of at most 64 entries, each a closure with the formula that it computes.
#[derive(Drop)]
pub struct HostTable {
    pub(crate) entries: Vec<Entry>,
    pub ghost formed: { AreFormulas (map (λ e. e.formula) entries.items) },
}

impl HostTable {
    ghost use Rattle.abc_host.specs.Tables.{AddAnswer, IsAddable, IsNameTaken, formula_of, formulas_of};

    /// A host without entries. It takes no memory.
    pub fn new(alloc: Global) -> HostTable
        ensures { formulas_of result ≡ [] }
    {
        HostTable {
            entries: Vec::new(alloc),
        }
    }

    /// Adds an entry at the end, so that its number is the count before. A refusal leaves the table as it was.
    pub fn add(&mut self, entry: Entry) -> Result<(), AddError>
        ensures answer { AddAnswer (formulas_of self.old) entry result }
        ensures ok { OnOk result (formulas_of self.new ≡ formulas_of self.old ++ formula_of entry ∷ []) }
        ensures err { OnErr result (formulas_of self.new ≡ formulas_of self.old) }
    {
        if !is_within_bounds(&entry.formula) {
            return Err(AddError::BadFormula(entry));
        }
        if self.is_full() {
            return Err(AddError::Full(entry));
        }
        if self.is_taken(&entry.formula.name) {
            return Err(AddError::NameTaken(entry));
        }
        self.put(entry)
    }

    /// Whether there are 64 entries.
    fn is_full(&self) -> bool
        ensures { MatchBool result (length (formulas_of self.now) ≡ 64) (length (formulas_of self.now) < 64) }
    {
        self.entries.len() == 64
    }

    /// Adds an entry that may stand behind the others.
    fn put(&mut self, entry: Entry) -> Result<(), AddError>
        requires { IsAddable (formulas_of self.old) (formula_of entry) }
        ensures answer { AddAnswer (formulas_of self.old) entry result }
        ensures ok { OnOk result (formulas_of self.new ≡ formulas_of self.old ++ formula_of entry ∷ []) }
        ensures err { OnErr result (formulas_of self.new ≡ formulas_of self.old) }
    {
        match self.entries.push(entry) {
            Ok(()) => Ok(()),
            Err(AllocFailed { value, .. }) => Err(AddError::NoMemory(value)),
        }
    }

    /// Whether a name is taken.
    fn is_taken(&self, name: &Bytes) -> bool
        ensures { IsTrue result ↔ IsNameTaken (formulas_of self.now) name.now }
    {
        let bytes = name.as_slice();
        let entries = self.entries.as_slice();
        is_name_of_host(bytes) || is_name_among(bytes, entries)
    }
}
