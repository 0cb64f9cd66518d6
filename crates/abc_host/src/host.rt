ghost use Rattle.std.specs.Prelude.{◌≡◌, ◌<◌, length, map};
ghost use Rattle.abc_base.specs.Hosts.{formula_at};
ghost use Rattle.abc_host.specs.Tables.{formula_of, formulas_of};

use crate::entry::Entry;
use crate::table::HostTable;
use abc_base::{Host, Plain};

impl HostTable {
    /// The entry of a position, which counts from 0.
    #[tactic(auto, using(crate::proofs::Taken::formula_there))]
    fn entry(&self, id: u32) -> &Entry
        requires { id < length (formulas_of self.now) }
        ensures { formula_of result.now ≡ formula_at (formulas_of self.now) id }
    {
        &self.entries[id as usize]
    }
}

impl Host for HostTable {
    ghost formulas = { λ table. map (λ entry. entry.formula) table.entries.items };

    ghost formed = { λ table. table.formed };

    fn count(&self) -> u32 {
        self.entries.len() as u32
    }

    fn name(&self, id: u32) -> &[u8] {
        self.entry(id).formula.name.as_slice()
    }

    fn params(&self, id: u32) -> u32 {
        self.entry(id).formula.factors.len() as u32
    }

    fn call(&self, id: u32, args: &Plain) -> Option<i64> {
        self.entry(id).call(args)
    }
}
