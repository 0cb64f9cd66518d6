ghost use Rattle.std.specs.Prelude.{◌≡◌, ◌<◌, ◌∷◌, ◌++◌, [], decimal};
ghost use Rattle.abc_base.specs.Faults.{HasCause};
ghost use Rattle.abc_base.specs.Sinks.{WritesAll};
ghost use Rattle.abc_base.specs.Escapes.{hex_digit as hex_digit_of};
ghost use Rattle.abc_log.specs.Lines.{log_hex, next_number};

use abc_base::{Failed, Sink, write_all};
use itoa::Buffer;

/// A digit below sixteen.
fn hex_digit(n: u8) -> u8
    requires { n < 16 }
    ensures { result ≡ hex_digit_of n }
{
    if n < 10 { b'0' + n } else { b'a' - 10 + n }
}

/// Writes a digit below sixteen.
pub(crate) fn write_digit<K: Sink>(log: &mut K, n: u8) -> Result<(), Failed>
    requires { n < 16 }
    ensures bytes { WritesAll (K.written log.old) (K.written log.new) result (hex_digit_of n ∷ []) }
    ensures cause { HasCause (K.faults log.old) (K.faults log.new) result }
{
    write_all(log, &[hex_digit(n)])
}

/// The two digits of a byte.
pub fn hex(byte: u8) -> [u8; 2]
    ensures { result ≡ log_hex byte }
{
    [hex_digit(byte / 16), hex_digit(byte % 16)]
}

/// Writes a number.
pub(crate) fn write_number<K: Sink>(log: &mut K, number: u32) -> Result<(), Failed>
    ensures bytes { WritesAll (K.written log.old) (K.written log.new) result (decimal number) }
    ensures cause { HasCause (K.faults log.old) (K.faults log.new) result }
{
    let mut buffer = Buffer::new();
    let digits = buffer.format(number).as_bytes();
    write_all(log, digits)
}

/// Writes a number behind something.
#[tactic(auto, using(abc_base::proofs::Writing::writing))]
fn write_behind<K: Sink>(log: &mut K, front: &[u8], number: u32) -> Result<(), Failed>
    ensures bytes { WritesAll (K.written log.old) (K.written log.new) result (front.now ++ decimal number) }
    ensures cause { HasCause (K.faults log.old) (K.faults log.new) result }
{
    write_all(log, front)?;
    write_number(log, number)
}

/// Writes a space, and a number.
pub(crate) fn write_next<K: Sink>(log: &mut K, number: u32) -> Result<(), Failed>
    ensures bytes { WritesAll (K.written log.old) (K.written log.new) result (next_number number) }
    ensures cause { HasCause (K.faults log.old) (K.faults log.new) result }
{
    write_behind(log, b" ", number)
}

/// Writes three pieces in a row.
#[tactic(auto, using(abc_base::proofs::Writing::writing))]
pub(crate) fn write_three<K: Sink>(log: &mut K, a: &[u8], b: &[u8], c: &[u8]) -> Result<(), Failed>
    ensures bytes { WritesAll (K.written log.old) (K.written log.new) result (a.now ++ b.now ++ c.now) }
    ensures cause { HasCause (K.faults log.old) (K.faults log.new) result }
{
    write_all(log, a)?;
    write_all(log, b)?;
    write_all(log, c)
}
