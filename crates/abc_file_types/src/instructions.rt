ghost use Rattle.std.specs.Prelude.{◌≡◌, ◌≤◌, ◌+◌, ◌-◌, ◌*◌, ◌^◌, min};
ghost use Rattle.abc_file_types.specs.CodeBytes.{code_len as total, instr_len as len_of, number_len};

use crate::code::Instr;
use abc_base::{Table, len_u30, len_u32};

/// Code as it was read.
#[derive(Debug, Drop)]
pub struct Code {
    pub instrs: Table<Instr>,
    /// Where each instruction began in the bytes, and then how many bytes there were.
    pub offsets: Table<u32>,
}

/// How many bytes spell a count in its canonical spelling, 1 to 5.
pub fn count_len(n: usize) -> u64
    ensures is { result ≡ number_len n }
    ensures bound { result ≤ 5 }
{
    if n > u32::MAX as usize {
        return 5;
    }
    len_u30(n as u32) as u64
}

/// How many bytes a switch of so many cases has in the canonical code. It is 2^64 - 1 where that is greater.
fn switch_len(count: usize) -> u64
    ensures { result ≡ min (1 + 3 + number_len (count - 1) + 3 * count) (2 ^ 64 - 1) }
{
    let rest = 4 + count_len(count.saturating_sub(1));
    rest.saturating_add((count as u64).saturating_mul(3))
}

/// How many bytes the instruction has in the canonical code: one for its opcode, and the fewest for each operand, where
/// a number of 2^30 or more counts five. It is 2^64 - 1 where that is greater.
#[inline(always)]
pub fn instr_len(instr: &Instr) -> u64
    ensures { result ≡ min (len_of instr.now) (2 ^ 64 - 1) }
{
    match instr {
        Instr::Plain(_) => 1,
        Instr::One(_, n) => 1 + len_u30(*n) as u64,
        Instr::Two(_, n, m) => 1 + len_u30(*n) as u64 + len_u30(*m) as u64,
        Instr::Branch(_, _) => 4,
        Instr::Switch { cases, .. } => switch_len(cases.len()),
        Instr::Byte(_) => 2,
        Instr::Short(x) => 1 + len_u32(x.cast_unsigned() as u32) as u64,
        Instr::ScopeObject(_) => 2,
        Instr::Debug { name, extra, .. } => 3 + len_u30(*name) as u64 + len_u30(*extra) as u64,
    }
}

/// How many bytes the instructions have in the canonical code, without the number of bytes that stands before them: the
/// sum of `instr_len`. It is 2^64 - 1 where that is greater.
pub fn code_len(code: &Table<Instr>) -> u64
    ensures { result ≡ min (total code.now) (2 ^ 64 - 1) }
{
    let mut len: u64 = 0;
    for instr in code.as_slice() {
        len = len.saturating_add(instr_len(instr));
    }
    len
}
