ghost use Rattle.std.specs.Prelude.{◌≡◌};
ghost use Rattle.std.specs.Option.{option_to_list};
ghost use Rattle.abc_tidy_refs.specs.Refs.{body_refs, handler_refs, instr_refs};
ghost use Rattle.abc_tidy_refs.specs.Renumbered.{new_body, new_handler, new_instr};

use crate::indexed::Indexed;
use crate::nodes::Numbers;
use crate::noting::{Noting, note};
use crate::refs::{DEBUG, Ref, operand_pool};
use abc_base::{NoMemory, Table};
use abc_file_types::{Body, Handler, Instr, Pool};
use std::alloc::Global;

/// The index of an instruction that names an entry of a pool, or a number in its place; `None` where it has none.
pub fn instr_ref(instr: &Instr) -> Option<Ref>
    ensures { option_to_list result ≡ instr_refs instr.now }
{
    let (op, index) = match instr {
        Instr::One(op, n) => (*op, *n),
        Instr::Two(op, n, _) => (*op, *n),
        Instr::Debug { name, .. } => (DEBUG, *name),
        _ => return None,
    };
    Some(Ref {
        pool: operand_pool(op),
        index,
    })
}

impl Indexed for Instr {
    ghost refs = { instr_refs };

    ghost renumbered = { new_instr };

    fn note_refs<N: Noting>(&self, found: &mut N) -> Result<(), NoMemory> {
        match instr_ref(self) {
            Some(index) => found.note(index),
            None => Ok(()),
        }
    }

    fn may_change(&self, _numbers: &Numbers) -> bool {
        match instr_ref(self) {
            Some(index) => index.pool != Pool::NoPool,
            None => false,
        }
    }

    fn blank(_alloc: Global) -> Instr {
        Instr::Plain(0)
    }

    fn renumber(&mut self, _alloc: Global, numbers: &Numbers) {
        let new = match self {
            Instr::One(op, n) => Instr::One(*op, numbers.number(operand_pool(*op), *n)),
            Instr::Two(op, n, m) => Instr::Two(*op, numbers.number(operand_pool(*op), *n), *m),
            Instr::Debug {
                kind,
                name,
                reg,
                extra,
            } => Instr::Debug {
                kind: *kind,
                name: numbers.number(operand_pool(DEBUG), *name),
                reg: *reg,
                extra: *extra,
            },
            _ => return,
        };
        *self = new;
    }
}

impl Indexed for Handler {
    ghost refs = { handler_refs };

    ghost renumbered = { new_handler };

    fn note_refs<N: Noting>(&self, found: &mut N) -> Result<(), NoMemory> {
        note(Pool::Name, self.exc_type, found)?;
        note(Pool::Name, self.var_name, found)
    }

    fn blank(_alloc: Global) -> Handler {
        Handler {
            from: 0,
            to: 0,
            target: 0,
            exc_type: 0,
            var_name: 0,
        }
    }

    fn renumber(&mut self, _alloc: Global, numbers: &Numbers) {
        self.exc_type = numbers.number(Pool::Name, self.exc_type);
        self.var_name = numbers.number(Pool::Name, self.var_name);
    }
}

impl Indexed for Body {
    ghost refs = { body_refs };

    ghost renumbered = { new_body };

    fn note_refs<N: Noting>(&self, found: &mut N) -> Result<(), NoMemory> {
        self.code.note_refs(found)?;
        self.handlers.note_refs(found)?;
        self.traits.note_refs(found)
    }

    #[tactic(auto, using(crate::proofs::Unchanged::body_stays))]
    fn may_change(&self, numbers: &Numbers) -> bool {
        self.code.may_change(numbers)
            || self.handlers.may_change(numbers)
            || self.traits.may_change(numbers)
    }

    fn blank(alloc: Global) -> Body {
        Body {
            method: 0,
            max_stack: 0,
            local_count: 0,
            init_scope: 0,
            max_scope: 0,
            code: Table::new(alloc),
            handlers: Table::new(alloc),
            traits: Table::new(alloc),
        }
    }

    fn renumber(&mut self, alloc: Global, numbers: &Numbers) {
        self.code.renumber(alloc, numbers);
        self.handlers.renumber(alloc, numbers);
        self.traits.renumber(alloc, numbers);
    }
}
