ghost use Rattle.std.specs.Prelude.{◌≡◌};
ghost use Rattle.abc_verify_typing.specs.Instructions.{argument_count, local, opcode, operand, second_local};

use abc_file_types::{Instr, op};

/// The opcode of an instruction.
pub fn opcode_of(instr: &Instr) -> u8
    ensures { result ≡ opcode instr.now }
{
    match instr {
        Instr::Plain(op) => *op,
        Instr::One(op, _) => *op,
        Instr::Two(op, _, _) => *op,
        Instr::Branch(op, _) => *op,
        Instr::Switch { .. } => op::LOOKUPSWITCH,
        Instr::Byte(_) => op::PUSHBYTE,
        Instr::Short(_) => op::PUSHSHORT,
        Instr::ScopeObject(_) => op::GETSCOPEOBJECT,
        Instr::Debug { .. } => op::DEBUG,
    }
}

/// The number of an instruction that names something in a table; 0 where it has none.
pub fn operand_of(instr: &Instr) -> u32
    ensures { result ≡ operand instr.now }
{
    match instr {
        Instr::One(_, n) => *n,
        Instr::Two(_, n, _) => *n,
        Instr::ScopeObject(n) => *n as u32,
        Instr::Debug { name, .. } => *name,
        Instr::Plain(_)
        | Instr::Branch(_, _)
        | Instr::Switch { .. }
        | Instr::Byte(_)
        | Instr::Short(_) => 0,
    }
}

/// How many arguments an instruction says that it has.
pub fn arguments_of(instr: &Instr) -> u32
    ensures { result ≡ argument_count instr.now }
{
    match instr {
        Instr::One(_, argc) => *argc,
        Instr::Two(_, _, argc) => *argc,
        Instr::Plain(_)
        | Instr::Branch(_, _)
        | Instr::Switch { .. }
        | Instr::Byte(_)
        | Instr::Short(_)
        | Instr::ScopeObject(_)
        | Instr::Debug { .. } => 0,
    }
}

/// The local that an instruction names. The opcodes of `getlocal_0` and `setlocal_0` are multiples of four.
pub fn local_of(instr: &Instr) -> u32
    ensures { result ≡ local instr.now }
{
    match instr {
        Instr::Plain(op) => *op as u32 % 4,
        _ => operand_of(instr),
    }
}

/// The local of `hasnext2` that is an index.
pub fn second_of(instr: &Instr) -> u32
    ensures { result ≡ second_local instr.now }
{
    match instr {
        Instr::Two(_, _, q) => *q,
        _ => 0,
    }
}
