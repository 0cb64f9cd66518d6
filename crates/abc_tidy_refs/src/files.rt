ghost use Rattle.std.specs.Prelude.{◌≡◌, fold, IfOk, OnOk};
ghost use Rattle.abc_tidy_refs.specs.Nodes.{new_index};
ghost use Rattle.abc_tidy_refs.specs.Refs.{file_refs};
ghost use Rattle.abc_tidy_refs.specs.Renumbered.{new_file};

use crate::indexed::Indexed;
use crate::nodes::Numbers;
use crate::noting::Noting;
use crate::refs::Ref;
use abc_base::{NoMemory, Table};
use abc_file_types::Abc;
use std::alloc::Global;

/// Notes the indices of a file's definitions and bodies, in file order.
pub fn note_file<N: Noting>(abc: &Abc, found: &mut N) -> Result<(), NoMemory>
    ensures { OnOk result (found.new ≡ fold N.with_ref found.old (file_refs abc.now)) }
{
    abc.methods.note_refs(found)?;
    abc.metadata.note_refs(found)?;
    abc.instances.note_refs(found)?;
    abc.classes.note_refs(found)?;
    abc.scripts.note_refs(found)?;
    abc.bodies.note_refs(found)
}

/// The indices of a file's definitions and bodies, in file order.
#[tactic(auto, using(crate::proofs::Reading::all_noted))]
pub fn refs_of(alloc: Global, abc: &Abc) -> Result<Table<Ref>, NoMemory>
    ensures { IfOk result (λ refs. refs ≡ file_refs abc.now) }
{
    let mut found = Table::new(alloc);
    note_file(abc, &mut found)?;
    Ok(found)
}

/// Puts new numbers in the place of the indices of a file's definitions and bodies. Its pools stay. It takes no memory.
pub fn renumber(alloc: Global, abc: &mut Abc, numbers: &Numbers)
    ensures { abc.new ≡ new_file (new_index numbers.now) abc.old }
{
    abc.methods.renumber(alloc, numbers);
    abc.metadata.renumber(alloc, numbers);
    abc.instances.renumber(alloc, numbers);
    abc.classes.renumber(alloc, numbers);
    abc.scripts.renumber(alloc, numbers);
    abc.bodies.renumber(alloc, numbers);
}
