ghost use Rattle.std.specs.Prelude.{◌≡◌, ◌<◌, length, IfOk, true};
ghost use Rattle.abc_text_lines.specs.Tokens.{hex_pair as byte_of_pair, hex_value as value_of, is_hex as is_hex_byte};
ghost use Rattle.abc_text_tokens.specs.Walks.{Closes, begins_escape, quoted_text};

use crate::bytes::is_hex;
use abc_base::{Bytes, NoMemory};
use std::alloc::Global;

/// How many bytes stand before the quote that ends a quoted text, or `None` where it isn't closed.
pub fn quoted_len(bytes: &[u8]) -> Option<usize>
    ensures { Closes bytes.now result }
{
    let mut i: usize = 0;
    while i < bytes.len() {
        if bytes[i] == b'"' {
            return Some(i);
        }
        if is_escape(&bytes[i..]) {
            i += 3;
        } else if bytes[i] == b'\\' {
            return None;
        } else {
            i += 1;
        }
    }
    None
}

fn hex_value(byte: u8) -> u8
    requires { is_hex_byte byte ≡ true }
    ensures is { result ≡ value_of byte }
    ensures bound { result < 16 }
{
    if byte <= b'9' {
        byte - b'0'
    } else if byte <= b'F' {
        byte - 55
    } else {
        byte - 87
    }
}

/// The byte of two hexadecimal digits.
pub fn hex_pair(high: u8, low: u8) -> u8
    requires high { is_hex_byte high ≡ true }
    requires low { is_hex_byte low ≡ true }
    ensures { result ≡ byte_of_pair high low }
{
    16 * hex_value(high) + hex_value(low)
}

/// Whether a `\` and two hexadecimal digits stand at the front.
#[tactic(auto, using(crate::proofs::Quoting::escape_long, crate::proofs::Quoting::escape_short))]
fn is_escape(bytes: &[u8]) -> bool
    ensures { result ≡ begins_escape bytes.now }
{
    bytes.len() > 2 && bytes[0] == b'\\' && is_hex(bytes[1]) && is_hex(bytes[2])
}

/// The text that is meant by the bytes between two quotes: a `\` and two hexadecimal digits are a byte, and every other
/// byte is itself. `NoMemory` where memory runs out.
pub fn unquoted(alloc: Global, quoted: &[u8]) -> Result<Bytes, NoMemory>
    ensures { IfOk result (λ text. text ≡ quoted_text quoted.now) }
{
    let mut text = Bytes::new(alloc);
    let mut i: usize = 0;
    while i < quoted.len() {
        if is_escape(&quoted[i..]) {
            text.push(hex_pair(quoted[i + 1], quoted[i + 2]))?;
            i += 3;
        } else {
            text.push(quoted[i])?;
            i += 1;
        }
    }
    Ok(text)
}
