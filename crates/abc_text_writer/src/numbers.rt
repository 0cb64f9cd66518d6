//! Lines of numbers.
ghost use Rattle.std.specs.Prelude.{◌∷◌, ◌++◌, [], decimal};
ghost use Rattle.abc_text_writer.specs.Numbers.{number_line_bytes, number_lines, numbers_bytes};
ghost use Rattle.abc_varint.specs.Puts.{Puts};

use crate::tokens::{push_byte, put, put_number};
use abc_base::{NoMemory, Table};

/// Each number behind a space.
#[tactic(auto, using(abc_varint::proofs::Putting::stays))]
pub fn put_numbers(items: &Table<u32>, out: &mut Vec<u8>) -> Result<(), NoMemory>
    ensures { Puts out.old.items out.new.items result (numbers_bytes items.now) }
{
    for n in items.as_slice() {
        put_number(*n, out)?;
    }
    Ok(())
}

/// Two numbers, each behind a space.
#[inline(always)]
#[tactic(auto, using(abc_varint::proofs::Putting::stays, std::proofs::Common::append_assoc))]
pub fn put_two(first: u32, second: u32, out: &mut Vec<u8>) -> Result<(), NoMemory>
    ensures { Puts out.old.items out.new.items result
        (0x20 ∷ (decimal first ++ (0x20 ∷ (decimal second ++ [])))) }
{
    put_number(first, out)?;
    put_number(second, out)?;
    Ok(())
}

/// A line of a word and a number.
#[inline(always)]
#[tactic(auto, using(abc_varint::proofs::Putting::stays, std::proofs::Common::append_assoc))]
pub fn put_number_line(word: &[u8], n: u32, out: &mut Vec<u8>) -> Result<(), NoMemory>
    ensures { Puts out.old.items out.new.items result (number_line_bytes word.now n) }
{
    put(word, out)?;
    put_number(n, out)?;
    push_byte(b'\n', out)?;
    Ok(())
}

/// Such a line for each number.
#[inline(always)]
#[tactic(auto, using(abc_varint::proofs::Putting::stays))]
pub fn put_number_lines(word: &[u8], items: &Table<u32>, out: &mut Vec<u8>) -> Result<(), NoMemory>
    ensures { Puts out.old.items out.new.items result (number_lines word.now items.now) }
{
    for n in items.as_slice() {
        put_number_line(word, *n, out)?;
    }
    Ok(())
}
