ghost use Rattle.std.specs.Prelude.{◌≡◌, ◌++◌, ◌∷◌, [], fold, OnOk};
ghost use Rattle.abc_tidy_refs.specs.Refs.{refs_of, ref};

use crate::refs::Ref;
use abc_base::{NoMemory, Table};
use abc_file_types::Pool;

/// What indices are noted in, one after the other.
pub trait Noting {
    ghost use Rattle.abc_tidy_refs.specs.declared.refs.Ref.{Ref as RefOf};

    /// What there is after one more index.
    ghost with_ref: { Self → RefOf → Self };

    /// Notes one more index.
    fn note(&mut self, index: Ref) -> Result<(), NoMemory>
        ensures { OnOk result (self.new ≡ with_ref self.old index) };
}

impl Noting for Table<Ref> {
    ghost with_ref = { λ refs r. refs ++ r ∷ [] };

    fn note(&mut self, index: Ref) -> Result<(), NoMemory> {
        self.push(index)
    }
}

/// Notes one index.
pub(crate) fn note<N: Noting>(pool: Pool, index: u32, found: &mut N) -> Result<(), NoMemory>
    ensures { OnOk result (found.new ≡ fold N.with_ref found.old (ref pool index ∷ [])) }
{
    found.note(Ref { pool, index })
}

/// Notes indices of one pool.
pub(crate) fn note_each<N: Noting>(
    pool: Pool,
    indices: &Table<u32>,
    found: &mut N,
) -> Result<(), NoMemory>
    ensures { OnOk result (found.new ≡ fold N.with_ref found.old (refs_of pool indices.now)) }
{
    for index in indices.as_slice() {
        note(pool, *index, found)?;
    }
    Ok(())
}
