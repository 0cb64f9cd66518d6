ghost use Rattle.std.specs.Prelude.{◌≡◌, fold, map, IfOk, IsFalse, OnOk};
ghost use Rattle.std.specs.List.{flat_map};
ghost use Rattle.abc_tidy_refs.specs.Nodes.{new_index};

use crate::nodes::Numbers;
use crate::noting::Noting;
use abc_base::{NoMemory, Table};
use abc_file_types::Pool;
use std::alloc::Global;

/// Values that have indices of pools.
pub trait Indexed: Drop {
    ghost use Rattle.std.specs.Prelude.{List};
    ghost use Rattle.abc_tidy_refs.specs.declared.refs.Ref.{Ref as RefOf};
    ghost use Rattle.abc_tidy_refs.specs.Renumbered.{Renumbering};

    /// The indices, in file order.
    ghost refs: { Self → List RefOf };

    /// The value with new numbers in their place.
    ghost renumbered: { Renumbering → Self → Self };

    /// Notes the indices of the value.
    fn note_refs<N: Noting>(&self, found: &mut N) -> Result<(), NoMemory>
        ensures { OnOk result (found.new ≡ fold N.with_ref found.old (refs self.now)) };

    /// Whether new numbers may change the value.
    fn may_change(&self, _numbers: &Numbers) -> bool
        ensures { IsFalse result → renumbered (new_index _numbers.now) self.now ≡ self.now }
    {
        true
    }

    /// A value that stands in the place of one that is being renumbered. It takes no memory.
    fn blank(alloc: Global) -> Self;

    /// Puts new numbers in the place of the indices.
    fn renumber(&mut self, alloc: Global, numbers: &Numbers)
        ensures { self.new ≡ renumbered (new_index numbers.now) self.old };
}

impl<T: Indexed> Indexed for Table<T> {
    ghost refs = { λ s. flat_map T.refs s };

    ghost renumbered = { λ f s. map (T.renumbered f) s };

    fn note_refs<N: Noting>(&self, found: &mut N) -> Result<(), NoMemory> {
        for item in self.as_slice() {
            item.note_refs(found)?;
        }
        Ok(())
    }

    fn may_change(&self, numbers: &Numbers) -> bool {
        for item in self.as_slice() {
            if item.may_change(numbers) {
                return true;
            }
        }
        false
    }

    fn blank(alloc: Global) -> Table<T> {
        Table::new(alloc)
    }

    fn renumber(&mut self, alloc: Global, numbers: &Numbers) {
        for i in 0..self.len() {
            if self.get(i).may_change(numbers) {
                let mut item = self.replace(i, T::blank(alloc));
                item.renumber(alloc, numbers);
                self.set(i, item);
            }
        }
    }
}

/// Whether an index of a pool gets another number.
pub(crate) fn gets_other(pool: Pool, index: u32, numbers: &Numbers) -> bool
    ensures { IsFalse result → new_index numbers.now pool index ≡ index }
{
    numbers.number(pool, index) != index
}

/// Puts new numbers in the place of indices of one pool.
pub(crate) fn renumber_each(pool: Pool, indices: &mut Table<u32>, numbers: &Numbers)
    ensures { indices.new ≡ map (new_index numbers.now pool) indices.old }
{
    for i in 0..indices.len() {
        let index = *indices.get(i);
        indices.set(i, numbers.number(pool, index));
    }
}

/// The new numbers for indices of one pool.
pub fn renumber_all(
    alloc: Global,
    pool: Pool,
    indices: &Table<u32>,
    numbers: &Numbers,
) -> Result<Table<u32>, NoMemory>
    ensures { IfOk result (λ t. t ≡ map (new_index numbers.now pool) indices.now) }
{
    let mut new = Table::new(alloc);
    for index in indices.as_slice() {
        new.push(numbers.number(pool, *index))?;
    }
    Ok(new)
}
