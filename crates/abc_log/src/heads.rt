ghost use Rattle.std.specs.Prelude.{◌∷◌, ◌++◌, []};
ghost use Rattle.std.specs.List.{flat_map};
ghost use Rattle.abc_base.specs.Faults.{HasCause};
ghost use Rattle.abc_base.specs.Sinks.{WritesAll};
ghost use Rattle.abc_log.specs.Lines.{head_line, hex_digits, limits_line, next_number};

use crate::line_bytes::{write_digit, write_next};
use abc_base::{Failed, Sink, write_all};
use abc_heap_store::Limits;

/// Writes the last digits of a number, so many, to the base of sixteen.
#[tactic(auto, using(crate::proofs::Digits::digits, abc_base::proofs::Writing::writing))]
fn write_digits<K: Sink>(log: &mut K, count: u32, number: u32) -> Result<(), Failed>
    ensures bytes { WritesAll (K.written log.old) (K.written log.new) result (hex_digits count number) }
    ensures cause { HasCause (K.faults log.old) (K.faults log.new) result }
{
    if count == 0 {
        return Ok(());
    }
    write_digits(log, count - 1, number / 16)?;
    write_digit(log, (number % 16) as u8)
}

/// Writes the line before the file: the length of that. After `Failed` the front of the line was written, and it comes only where
/// the count of faults rose or stood at its last value.
#[tactic(auto, unfolding(crate::specs::Lines::head_line), using(abc_base::proofs::Writing::writing))]
pub fn write_head_line<K: Sink>(log: &mut K, length: u32) -> Result<(), Failed>
    ensures bytes { WritesAll (K.written log.old) (K.written log.new) result (head_line length) }
    ensures cause { HasCause (K.faults log.old) (K.faults log.new) result }
{
    write_digits(log, 8, length)?;
    write_all(log, b"\n")
}

/// Writes numbers, each behind a space.
#[tactic(auto, using(abc_base::proofs::Writing::writing))]
fn write_numbers<K: Sink>(log: &mut K, numbers: &[u32]) -> Result<(), Failed>
    ensures bytes { WritesAll (K.written log.old) (K.written log.new) result
        (flat_map next_number numbers.now) }
    ensures cause { HasCause (K.faults log.old) (K.faults log.new) result }
{
    for number in numbers {
        write_next(log, *number)?;
    }
    Ok(())
}

/// Writes a line of a word and numbers.
#[tactic(auto, using(abc_base::proofs::Writing::writing))]
fn write_counts<K: Sink>(log: &mut K, word: &[u8], numbers: &[u32]) -> Result<(), Failed>
    ensures bytes { WritesAll (K.written log.old) (K.written log.new) result
        (word.now ++ flat_map next_number numbers.now ++ 10 ∷ []) }
    ensures cause { HasCause (K.faults log.old) (K.faults log.new) result }
{
    write_all(log, word)?;
    write_numbers(log, numbers)?;
    write_all(log, b"\n")
}

/// Writes the line behind the file: the fuel and the limits of the run. After `Failed` the front of that was written, and it comes
/// only where the count of faults rose or stood at its last value.
#[tactic(auto, unfolding(crate::specs::Lines::limits_text))]
pub fn write_limits_line<K: Sink>(log: &mut K, fuel: u32, limits: &Limits) -> Result<(), Failed>
    ensures bytes { WritesAll (K.written log.old) (K.written log.new) result (limits_line fuel limits.now) }
    ensures cause { HasCause (K.faults log.old) (K.faults log.new) result }
{
    let numbers = [
        fuel,
        limits.objects,
        limits.cells,
        limits.text,
        limits.frames,
        limits.stack,
    ];
    write_counts(log, b"limits", &numbers)
}
