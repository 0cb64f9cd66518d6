ghost use Rattle.abc_tidy_refs.specs.Refs.{metadata_refs, method_refs, option_refs};
ghost use Rattle.abc_tidy_refs.specs.Renumbered.{new_metadata, new_method, new_option};

use crate::indexed::{Indexed, gets_other, renumber_each};
use crate::nodes::Numbers;
use crate::noting::{Noting, note, note_each};
use crate::refs::value_pool;
use abc_base::{NoMemory, Table};
use abc_file_types::{Metadata, Method, OptionValue, Pool, ValueKind};
use std::alloc::Global;

impl Indexed for OptionValue {
    ghost refs = { option_refs };

    ghost renumbered = { new_option };

    fn note_refs<N: Noting>(&self, found: &mut N) -> Result<(), NoMemory> {
        note(value_pool(self.kind), self.value, found)
    }

    fn blank(_alloc: Global) -> OptionValue {
        OptionValue {
            kind: ValueKind::Undefined,
            value: 0,
        }
    }

    fn renumber(&mut self, _alloc: Global, numbers: &Numbers) {
        self.value = numbers.number(value_pool(self.kind), self.value);
    }
}

impl Indexed for Method {
    ghost refs = { method_refs };

    ghost renumbered = { new_method };

    fn note_refs<N: Noting>(&self, found: &mut N) -> Result<(), NoMemory> {
        note(Pool::Name, self.ret, found)?;
        note_each(Pool::Name, &self.params, found)?;
        note(Pool::Text, self.name, found)?;
        self.options.note_refs(found)?;
        note_each(Pool::Text, &self.param_names, found)
    }

    #[tactic(auto, using(crate::proofs::Unchanged::method_stays))]
    fn may_change(&self, numbers: &Numbers) -> bool {
        self.params.len() != 0
            || self.options.len() != 0
            || self.param_names.len() != 0
            || gets_other(Pool::Name, self.ret, numbers)
            || gets_other(Pool::Text, self.name, numbers)
    }

    fn blank(alloc: Global) -> Method {
        Method {
            ret: 0,
            params: Table::new(alloc),
            name: 0,
            flags: 0,
            options: Table::new(alloc),
            param_names: Table::new(alloc),
        }
    }

    fn renumber(&mut self, alloc: Global, numbers: &Numbers) {
        self.ret = numbers.number(Pool::Name, self.ret);
        renumber_each(Pool::Name, &mut self.params, numbers);
        self.name = numbers.number(Pool::Text, self.name);
        self.options.renumber(alloc, numbers);
        renumber_each(Pool::Text, &mut self.param_names, numbers);
    }
}

impl Indexed for Metadata {
    ghost refs = { metadata_refs };

    ghost renumbered = { new_metadata };

    fn note_refs<N: Noting>(&self, found: &mut N) -> Result<(), NoMemory> {
        note(Pool::Text, self.name, found)?;
        note_each(Pool::Text, &self.items, found)
    }

    fn blank(alloc: Global) -> Metadata {
        Metadata {
            name: 0,
            items: Table::new(alloc),
        }
    }

    fn renumber(&mut self, _alloc: Global, numbers: &Numbers) {
        self.name = numbers.number(Pool::Text, self.name);
        renumber_each(Pool::Text, &mut self.items, numbers);
    }
}
