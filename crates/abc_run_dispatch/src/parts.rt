ghost use Rattle.std.specs.Prelude.{◌≡◌, ℕ, Some};
ghost use Rattle.abc_run_dispatch.specs.Numbers.{first_small_number};
ghost use Rattle.abc_verify_typing.specs.Instructions.{opcode, second_local};

use abc_file_types::Instr;

// (Each has its field at one place in all forms that have it: the code tests the form at most, and takes no jump by a table.)

/// The opcode that stands before numbers below 2^30, a target, or nothing; None in the other forms, of which each has one opcode.
#[inline(always)]
pub(crate) fn opcode_of(instr: &Instr) -> Option<u8>
    ensures { (op : ℕ) → result ≡ Some op → op ≡ opcode instr.now }
{
    match instr {
        Instr::Plain(op) => Some(*op),
        Instr::One(op, _) => Some(*op),
        Instr::Two(op, _, _) => Some(*op),
        Instr::Branch(op, _) => Some(*op),
        _ => None,
    }
}

/// The first number below 2^30 that follows the opcode, or the target of a branch; 0 where there is none.
#[inline(always)]
pub(crate) fn number_of(instr: &Instr) -> u32
    ensures { result ≡ first_small_number instr.now }
{
    match instr {
        Instr::One(_, n) => *n,
        Instr::Two(_, n, _) => *n,
        Instr::Branch(_, target) => *target,
        _ => 0,
    }
}

/// The second number below 2^30 that follows the opcode; 0 where there is none.
#[inline(always)]
pub(crate) fn second_of(instr: &Instr) -> u32
    ensures { result ≡ second_local instr.now }
{
    match instr {
        Instr::Two(_, _, count) => *count,
        _ => 0,
    }
}
