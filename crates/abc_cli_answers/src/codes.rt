ghost use Rattle.std.specs.Prelude.{◌≡◌, ◌<◌, ◌++◌, [], ◌%◌, ◌+◌, ◌^◌, pos, IfOk, OnOk};
ghost use Rattle.abc_cli_answers.specs.Codes.{call_code, drawn_code, first_code as code_of_first, drawn_operation, loop_code as code_of};
ghost use Rattle.abc_cli_answers.specs.Draws.{draws_after};

use crate::draws::Draws;
use abc_base::{NoMemory, Table};
use abc_file_types::{Instr, op};
use std::alloc::Global;

/// Adds the call of a function, which takes what the one before gave.
fn push_call(code: &mut Table<Instr>, function: u32) -> Result<(), NoMemory>
    requires { function < 2 ^ 30 }
    ensures { OnOk result (code.new ≡ code.old ++ call_code function) }
{
    code.push(Instr::Plain(op::GETLOCAL_0))?;
    code.push(Instr::Plain(op::GETLOCAL_1))?;
    code.push(Instr::Two(op::CALLPROPERTY, function + 2, 1))?;
    code.push(Instr::Plain(op::CONVERT_I))?;
    code.push(Instr::Plain(op::SETLOCAL_1))?;
    Ok(())
}

/// The code of the script: it calls so many functions and traces what the last gave.
pub(crate) fn first_code(alloc: Global, functions: u32) -> Result<Table<Instr>, NoMemory>
    requires { functions < 2 ^ 30 }
    ensures { IfOk result (λ code. code ≡ code_of_first functions) }
{
    let mut code = Table::new(alloc);
    code.push(Instr::Plain(op::GETLOCAL_0))?;
    code.push(Instr::Plain(op::PUSHSCOPE))?;
    code.push(Instr::Byte(1))?;
    code.push(Instr::Plain(op::SETLOCAL_1))?;
    for function in 0..functions {
        push_call(&mut code, function + 1)?;
    }
    code.push(Instr::One(op::FINDPROPSTRICT, 1))?;
    code.push(Instr::Plain(op::GETLOCAL_1))?;
    code.push(Instr::Two(op::CALLPROPVOID, 1, 1))?;
    code.push(Instr::Plain(op::RETURNVOID))?;
    Ok(code)
}

/// The opcode of an operation.
fn operation(number: u32) -> u8
    ensures { result ≡ drawn_operation number }
{
    match number {
        0 => op::ADD_I,
        1 => op::SUBTRACT_I,
        2 => op::MULTIPLY_I,
        _ => op::BITXOR,
    }
}

/// Puts the code of a function that does an operation with its argument and an operand, so many times.
fn put_repeated(code: &mut Table<Instr>, rounds: i8, operand: i16, op: u8) -> Result<(), NoMemory>
    requires { code.old ≡ [] }
    ensures { OnOk result (code.new ≡ code_of rounds operand op) }
{
    code.push(Instr::Plain(op::GETLOCAL_1))?;
    code.push(Instr::Plain(op::CONVERT_I))?;
    code.push(Instr::Plain(op::SETLOCAL_2))?;
    code.push(Instr::Byte(rounds))?;
    code.push(Instr::Plain(op::SETLOCAL_1))?;
    code.push(Instr::Plain(op::LABEL))?;
    code.push(Instr::Plain(op::GETLOCAL_2))?;
    code.push(Instr::Short(operand))?;
    code.push(Instr::Plain(op))?;
    code.push(Instr::Plain(op::SETLOCAL_2))?;
    code.push(Instr::One(op::DECLOCAL_I, 1))?;
    code.push(Instr::Plain(op::GETLOCAL_1))?;
    code.push(Instr::Byte(0))?;
    code.push(Instr::Branch(op::IFGT, 5))?;
    code.push(Instr::Plain(op::GETLOCAL_2))?;
    code.push(Instr::Plain(op::RETURNVALUE))?;
    Ok(())
}

/// How often an operation is done, by a draw: 1 to 8 times.
fn rounds(draw: u32) -> i8
    ensures { result ≡ pos (draw % 8 + 1) }
{
    (draw % 8 + 1) as i8
}

/// The operand of an operation, by a draw: below 32,768.
fn operand(draw: u32) -> i16
    ensures { result ≡ pos (draw % 32768) }
{
    (draw % 32_768) as i16
}

/// The code of a function, by three draws. It is gathered in a list that serves one function after the other, and has nothing before
/// and after.
pub(crate) fn drawn_code_of(
    alloc: Global,
    draws: &mut Draws,
    gathering: &mut Table<Instr>,
) -> Result<Table<Instr>, NoMemory>
    requires none { gathering.old ≡ [] }
    ensures code { IfOk result (λ code. (code ≡ drawn_code draws.old.number) × (gathering.new ≡ [])) }
    ensures draws { draws.new.number ≡ draws_after draws.old.number 3 }
{
    let rounds = rounds(draws.draw());
    let operand = operand(draws.draw());
    let op = operation(draws.draw() % 4);
    put_repeated(gathering, rounds, operand, op)?;
    let code = gathering.move_out(alloc)?;
    Ok(code)
}
