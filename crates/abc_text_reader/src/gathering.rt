ghost use Rattle.std.specs.Prelude.{◌≡◌, ◌++◌, ◌∷◌, [], IfOk, OnOk};
ghost use Rattle.abc_text_reader.specs.Coded.{IsSummed};

use abc_base::{NoMemory, Table};
use abc_file_types::{Instr, instr_len};
use std::alloc::Global;

/// The instructions of a body while they are read, in a list whose memory serves one body after the other.
#[derive(Drop)]
pub struct Gathering {
    instrs: Table<Instr>,
    /// How many bytes the instructions have in the canonical code, without the number of bytes that stands before them. It
    /// is 2^64 - 1 where that is greater.
    pub len: u64,
}

impl Gathering {
    /// No instructions. They take no memory.
    pub fn new(alloc: Global) -> Gathering
        ensures none { result.instrs ≡ [] }
        ensures summed { IsSummed result }
    {
        Gathering {
            instrs: Table::new(alloc),
            len: 0,
        }
    }

    /// Leaves no instructions.
    pub fn clear(&mut self)
        ensures none { self.new.instrs ≡ [] }
        ensures summed { IsSummed self.new }
    {
        self.instrs.truncate(0);
        self.len = 0;
    }

    /// Adds an instruction. Its length is taken here, where its form was just met.
    #[inline(always)]
    pub fn push(&mut self, instr: Instr) -> Result<(), NoMemory>
        requires { IsSummed self.old }
        ensures instrs { OnOk result (self.new.instrs ≡ self.old.instrs ++ instr ∷ []) }
        ensures summed { OnOk result (IsSummed self.new) }
    {
        let len = self.len.saturating_add(instr_len(&instr));
        self.instrs.push(instr)?;
        self.len = len;
        Ok(())
    }

    /// Moves the instructions to a list of their own. Their length stays.
    pub fn move_out(&mut self, alloc: Global) -> Result<Table<Instr>, NoMemory>
        ensures code { IfOk result (λ code. code ≡ self.old.instrs) }
        ensures len { self.new.len ≡ self.old.len }
    {
        self.instrs.move_out(alloc)
    }
}
