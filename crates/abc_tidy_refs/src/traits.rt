ghost use Rattle.std.specs.Prelude.{◌≡◌, fold, IfOk, OnOk, option_map};
ghost use Rattle.abc_tidy_refs.specs.Nodes.{new_index};
ghost use Rattle.abc_tidy_refs.specs.Refs.{class_refs, instance_refs, protected_refs, script_refs, trait_body_refs, trait_refs, value_refs};
ghost use Rattle.abc_tidy_refs.specs.Renumbered.{renumbered_class, renumbered_instance, new_option, new_script, new_trait, new_trait_body};
ghost use Rattle.abc_file_types.specs.declared.opcodes.Pool.TheVariants as pools;

use crate::indexed::{Indexed, renumber_each};
use crate::nodes::Numbers;
use crate::noting::{Noting, note, note_each};
use crate::refs::value_pool;
use abc_base::{NoMemory, Table};
use abc_file_types::{ClassInfo, Instance, OptionValue, Pool, Script, TraitBody, TraitInfo};
use std::alloc::Global;

fn note_value<N: Noting>(value: Option<OptionValue>, found: &mut N) -> Result<(), NoMemory>
    ensures { OnOk result (found.new ≡ fold N.with_ref found.old (value_refs value)) }
{
    match value {
        Some(option) => note(value_pool(option.kind), option.value, found),
        None => Ok(()),
    }
}

fn new_value(value: Option<OptionValue>, numbers: &Numbers) -> Option<OptionValue>
    ensures { result ≡ option_map (new_option (new_index numbers.now)) value }
{
    match value {
        Some(option) => Some(OptionValue {
            kind: option.kind,
            value: numbers.number(value_pool(option.kind), option.value),
        }),
        None => None,
    }
}

fn note_body<N: Noting>(body: TraitBody, found: &mut N) -> Result<(), NoMemory>
    ensures { OnOk result (found.new ≡ fold N.with_ref found.old (trait_body_refs body)) }
{
    match body {
        TraitBody::Slot { ty, value, .. } => {
            note(Pool::Name, ty, found)?;
            note_value(value, found)
        }
        _ => Ok(()),
    }
}

fn new_body(body: TraitBody, numbers: &Numbers) -> TraitBody
    ensures { result ≡ new_trait_body (new_index numbers.now) body }
{
    match body {
        TraitBody::Slot {
            id,
            ty,
            value,
            constant,
        } => TraitBody::Slot {
            id,
            ty: numbers.number(Pool::Name, ty),
            value: new_value(value, numbers),
            constant,
        },
        other => other,
    }
}

impl Indexed for TraitInfo {
    ghost refs = { trait_refs };

    ghost renumbered = { new_trait };

    fn note_refs<N: Noting>(&self, found: &mut N) -> Result<(), NoMemory> {
        note(Pool::Name, self.name, found)?;
        note_body(self.body, found)
    }

    fn blank(alloc: Global) -> TraitInfo {
        TraitInfo {
            name: 0,
            attrs: 0,
            body: TraitBody::Method { disp: 0, method: 0 },
            metadata: Table::new(alloc),
        }
    }

    fn renumber(&mut self, _alloc: Global, numbers: &Numbers) {
        self.name = numbers.number(Pool::Name, self.name);
        self.body = new_body(self.body, numbers);
    }
}

fn note_protected<N: Noting>(space: Option<u32>, found: &mut N) -> Result<(), NoMemory>
    ensures { OnOk result (found.new ≡ fold N.with_ref found.old (protected_refs space)) }
{
    match space {
        Some(index) => note(Pool::Space, index, found),
        None => Ok(()),
    }
}

fn new_protected(space: Option<u32>, numbers: &Numbers) -> Option<u32>
    ensures { result ≡ option_map (new_index numbers.now pools.Space) space }
{
    match space {
        Some(index) => Some(numbers.number(Pool::Space, index)),
        None => None,
    }
}

impl Indexed for Instance {
    ghost refs = { instance_refs };

    ghost renumbered = { renumbered_instance };

    fn note_refs<N: Noting>(&self, found: &mut N) -> Result<(), NoMemory> {
        note(Pool::Name, self.name, found)?;
        note(Pool::Name, self.super_name, found)?;
        note_protected(self.protected_ns, found)?;
        note_each(Pool::Name, &self.interfaces, found)?;
        self.traits.note_refs(found)
    }

    fn blank(alloc: Global) -> Instance {
        Instance {
            name: 0,
            super_name: 0,
            flags: 0,
            protected_ns: None,
            interfaces: Table::new(alloc),
            iinit: 0,
            traits: Table::new(alloc),
        }
    }

    fn renumber(&mut self, alloc: Global, numbers: &Numbers) {
        self.name = numbers.number(Pool::Name, self.name);
        self.super_name = numbers.number(Pool::Name, self.super_name);
        self.protected_ns = new_protected(self.protected_ns, numbers);
        renumber_each(Pool::Name, &mut self.interfaces, numbers);
        self.traits.renumber(alloc, numbers);
    }
}

impl Indexed for ClassInfo {
    ghost refs = { class_refs };

    ghost renumbered = { renumbered_class };

    fn note_refs<N: Noting>(&self, found: &mut N) -> Result<(), NoMemory> {
        self.traits.note_refs(found)
    }

    fn blank(alloc: Global) -> ClassInfo {
        ClassInfo {
            cinit: 0,
            traits: Table::new(alloc),
        }
    }

    fn renumber(&mut self, alloc: Global, numbers: &Numbers) {
        self.traits.renumber(alloc, numbers);
    }
}

impl Indexed for Script {
    ghost refs = { script_refs };

    ghost renumbered = { new_script };

    fn note_refs<N: Noting>(&self, found: &mut N) -> Result<(), NoMemory> {
        self.traits.note_refs(found)
    }

    fn blank(alloc: Global) -> Script {
        Script {
            init: 0,
            traits: Table::new(alloc),
        }
    }

    fn renumber(&mut self, alloc: Global, numbers: &Numbers) {
        self.traits.renumber(alloc, numbers);
    }
}
