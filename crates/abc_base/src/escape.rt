//! How bytes are shown in the lines and texts that the program writes: printable ASCII as it is but for `"` and `\`, and
//! every other byte as `\` and two hexadecimal digits in lower case.

ghost use Rattle.std.specs.Prelude.{◌≡◌, ◌<◌};
ghost use Rattle.abc_base.specs.Faults.{HasCause};
ghost use Rattle.abc_base.specs.Sinks.{WritesAll};
ghost use Rattle.abc_base.specs.Escapes.{escape_of, with_escapes, hex_digit as hex_digit_of, is_plain_byte};

use crate::sink::{Sink, write_all};
use crate::source::Failed;

fn is_plain(byte: u8) -> bool
    ensures { result ≡ is_plain_byte byte }
{
    matches!(byte, 0x20..=0x7e) && byte != b'"' && byte != b'\\'
}

fn hex_digit(n: u8) -> u8
    requires { n < 16 }
    ensures { result ≡ hex_digit_of n }
{
    if n < 10 { b'0' + n } else { b'a' - 10 + n }
}

fn write_escape<K: Sink>(out: &mut K, byte: u8) -> Result<(), Failed>
    ensures bytes { WritesAll (K.written out.old) (K.written out.new) result (escape_of byte) }
    ensures cause { HasCause (K.faults out.old) (K.faults out.new) result }
{
    if is_plain(byte) {
        write_all(out, &[byte])
    } else {
        write_all(out, &[b'\\', hex_digit(byte / 16), hex_digit(byte % 16)])
    }
}

/// Writes bytes as they are shown. After `Failed` the front of that was written, and it comes only where the count of
/// faults rose or stood at its last value. It takes no memory.
#[tactic(auto, unfolding(crate::specs::Escapes::with_escapes), using(crate::proofs::Writing::writing))]
pub fn write_escaped<K: Sink>(out: &mut K, bytes: &[u8]) -> Result<(), Failed>
    ensures bytes { WritesAll (K.written out.old) (K.written out.new) result (with_escapes bytes.now) }
    ensures cause { HasCause (K.faults out.old) (K.faults out.new) result }
{
    for byte in bytes {
        write_escape(out, *byte)?;
    }
    Ok(())
}
