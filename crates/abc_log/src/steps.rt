ghost use Rattle.std.specs.Prelude.{◌≡◌, ◌∷◌, ◌++◌, ◌≤◌, [], drop};
ghost use Rattle.abc_base.specs.Faults.{HasCause};
ghost use Rattle.abc_base.specs.Sinks.{WritesAll};
ghost use Rattle.abc_log.specs.Lines.{next_number, start_line, step_line};

use crate::line_bytes::write_next;
use abc_base::{Failed, Sink, write_all};
use itoa::write_digits;

/// Writes a line of a word and a number.
#[tactic(auto, using(abc_base::proofs::Writing::writing))]
fn write_word<K: Sink>(log: &mut K, word: &[u8], number: u32) -> Result<(), Failed>
    ensures bytes { WritesAll (K.written log.old) (K.written log.new) result
        (word.now ++ next_number number ++ 10 ∷ []) }
    ensures cause { HasCause (K.faults log.old) (K.faults log.new) result }
{
    write_all(log, word)?;
    write_next(log, number)?;
    write_all(log, b"\n")
}

/// Writes the line of the start of a script. After `Failed` the front of that was written, and it comes only where the count of
/// faults rose or stood at its last value.
#[tactic(auto, unfolding(crate::specs::Lines::start_line))]
pub fn write_start_line<K: Sink>(log: &mut K, script: u32) -> Result<(), Failed>
    ensures bytes { WritesAll (K.written log.old) (K.written log.new) result (start_line script) }
    ensures cause { HasCause (K.faults log.old) (K.faults log.new) result }
{
    write_word(log, b"start", script)
}

/// The most bytes of the line of an instruction: two numbers of ten digits, a space, and a line feed.
const STEP_LINE: usize = 22;

/// Puts the line of an instruction at the end of an array, from its last byte to its first, and gives where it begins.
#[tactic(auto, unfolding(crate::specs::Lines::step_line))]
fn put_step_line(line: &mut [u8; STEP_LINE], method: u32, index: u32) -> usize
    ensures within { result ≤ STEP_LINE }
    ensures bytes { drop result line.new ≡ step_line method index }
{
    let feed = STEP_LINE - 1;
    line[feed] = b'\n';
    let space = write_digits(u64::from(index), line, feed) - 1;
    line[space] = b' ';
    write_digits(u64::from(method), line, space)
}

/// Writes the line of an instruction, by its method and its number in the body. After `Failed` the front of that was written, and
/// it comes only where the count of faults rose or stood at its last value.
pub fn write_step_line<K: Sink>(log: &mut K, method: u32, index: u32) -> Result<(), Failed>
    ensures bytes { WritesAll (K.written log.old) (K.written log.new) result (step_line method index) }
    ensures cause { HasCause (K.faults log.old) (K.faults log.new) result }
{
    let mut line = [0; STEP_LINE];
    let start = put_step_line(&mut line, method, index);
    write_all(log, &line[start..])
}
