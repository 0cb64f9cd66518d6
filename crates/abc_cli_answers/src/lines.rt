ghost use Rattle.std.specs.Prelude.{◌≡◌, ◌++◌, ◌∷◌, []};
ghost use Rattle.abc_base.specs.Escapes.{with_escapes};
ghost use Rattle.abc_base.specs.Faults.{HasCause};
ghost use Rattle.abc_base.specs.Sinks.{WritesAll};
ghost use Rattle.abc_cli_answers.specs.Lines.{code_text, limit_text, told_line, place_text, uncaught_text, usage_text};

use abc_base::{Failed, Sink, write_all, write_escaped};
use abc_heap_store::Limit;
use abc_log::limit_name;
use itoa::Buffer;

/// Writes three pieces in a row.
#[tactic(auto, using(abc_base::proofs::Writing::writing))]
fn write_three<E: Sink>(err: &mut E, a: &[u8], b: &[u8], c: &[u8]) -> Result<(), Failed>
    ensures bytes { WritesAll (E.written err.old) (E.written err.new) result (a.now ++ b.now ++ c.now) }
    ensures cause { HasCause (E.faults err.old) (E.faults err.new) result }
{
    write_all(err, a)?;
    write_all(err, b)?;
    write_all(err, c)
}

/// Writes a piece with escapes between two others.
#[tactic(auto, using(abc_base::proofs::Writing::writing))]
fn write_with_escapes<E: Sink>(err: &mut E, a: &[u8], word: &[u8], c: &[u8]) -> Result<(), Failed>
    ensures bytes { WritesAll (E.written err.old) (E.written err.new) result
        (a.now ++ with_escapes word.now ++ c.now) }
    ensures cause { HasCause (E.faults err.old) (E.faults err.new) result }
{
    write_all(err, a)?;
    write_escaped(err, word)?;
    write_all(err, c)
}

/// Writes six pieces in a row.
#[tactic(auto, using(abc_base::proofs::Writing::writing))]
fn write_six<E: Sink>(
    err: &mut E,
    a: &[u8],
    b: &[u8],
    c: &[u8],
    d: &[u8],
    e: &[u8],
    f: &[u8],
) -> Result<(), Failed>
    ensures bytes { WritesAll (E.written err.old) (E.written err.new) result
        ((a.now ++ b.now ++ c.now) ++ (d.now ++ e.now ++ f.now)) }
    ensures cause { HasCause (E.faults err.old) (E.faults err.new) result }
{
    write_three(err, a, b, c)?;
    write_three(err, d, e, f)
}

/// Writes six pieces in a row, and a line feed.
#[tactic(auto, using(abc_base::proofs::Writing::writing))]
fn write_six_and_end<E: Sink>(
    err: &mut E,
    a: &[u8],
    b: &[u8],
    c: &[u8],
    d: &[u8],
    e: &[u8],
    f: &[u8],
) -> Result<(), Failed>
    ensures bytes { WritesAll (E.written err.old) (E.written err.new) result
        (((a.now ++ b.now ++ c.now) ++ (d.now ++ e.now ++ f.now)) ++ 10 ∷ []) }
    ensures cause { HasCause (E.faults err.old) (E.faults err.new) result }
{
    write_six(err, a, b, c, d, e, f)?;
    write_all(err, b"\n")
}

/// Writes a line: `abc: `, a text, and a line feed.
#[tactic(auto, unfolding(crate::specs::Lines::told_line))]
pub fn write_line<E: Sink>(err: &mut E, text: &[u8]) -> Result<(), Failed>
    ensures bytes { WritesAll (E.written err.old) (E.written err.new) result (told_line text.now) }
    ensures cause { HasCause (E.faults err.old) (E.faults err.new) result }
{
    write_three(err, b"abc: ", text, b"\n")
}

/// Writes the line of words that go wrong at this one.
#[tactic(auto, unfolding(crate::specs::Lines::told_line, crate::specs::Lines::usage_text))]
pub fn write_usage<E: Sink>(err: &mut E, word: &[u8]) -> Result<(), Failed>
    ensures bytes { WritesAll (E.written err.old) (E.written err.new) result
        (told_line (usage_text word.now)) }
    ensures cause { HasCause (E.faults err.old) (E.faults err.new) result }
{
    write_with_escapes(err, b"abc: usage: ", word, b"\n")
}

/// Writes the line of what nothing caught, by a name.
#[tactic(auto, unfolding(crate::specs::Lines::told_line, crate::specs::Lines::uncaught_text))]
pub fn write_uncaught<E: Sink>(err: &mut E, name: &[u8]) -> Result<(), Failed>
    ensures bytes { WritesAll (E.written err.old) (E.written err.new) result
        (told_line (uncaught_text name.now)) }
    ensures cause { HasCause (E.faults err.old) (E.faults err.new) result }
{
    write_with_escapes(err, b"abc: uncaught ", name, b"\n")
}

/// Writes the line of a limit that is reached, or below what every run begins with.
#[tactic(auto, unfolding(crate::specs::Lines::told_line, crate::specs::Lines::limit_text))]
pub fn write_limit<E: Sink>(err: &mut E, limit: Limit) -> Result<(), Failed>
    ensures bytes { WritesAll (E.written err.old) (E.written err.new) result (told_line (limit_text limit)) }
    ensures cause { HasCause (E.faults err.old) (E.faults err.new) result }
{
    write_three(err, b"abc: limit ", limit_name(limit), b"\n")
}

/// Writes the line of a place by its kind, its number, and what is wrong there.
pub fn write_place<E: Sink>(
    err: &mut E,
    kind: &[u8],
    number: u64,
    name: &[u8],
) -> Result<(), Failed>
    ensures bytes { WritesAll (E.written err.old) (E.written err.new) result
        (told_line (place_text kind.now number name.now)) }
    ensures cause { HasCause (E.faults err.old) (E.faults err.new) result }
{
    let mut buffer = Buffer::new();
    let digits = buffer.format(number).as_bytes();
    write_six_and_end(err, b"abc: ", kind, b" ", digits, b": ", name)
}

/// Writes the line of an instruction by its method and its offset, and what is wrong there.
pub fn write_code<E: Sink>(err: &mut E, method: u32, offset: u32, name: &[u8]) -> Result<(), Failed>
    ensures bytes { WritesAll (E.written err.old) (E.written err.new) result
        (told_line (code_text method offset name.now)) }
    ensures cause { HasCause (E.faults err.old) (E.faults err.new) result }
{
    let mut method_buffer = Buffer::new();
    let method_digits = method_buffer.format(method).as_bytes();
    let mut offset_buffer = Buffer::new();
    let offset_digits = offset_buffer.format(offset).as_bytes();
    write_six_and_end(
        err,
        b"abc: method ",
        method_digits,
        b" offset ",
        offset_digits,
        b": ",
        name,
    )
}
