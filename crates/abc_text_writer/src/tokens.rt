//! What a line is made of. Each of these appends its bytes; where memory runs out, the old bytes are still the front.
ghost use Rattle.std.specs.Prelude.{◌≡◌, ◌∷◌, ◌++◌, ◌<◌, ◌≤◌, ◌+◌, ◌/◌, ◌%◌, [], ℕ, IfOk, IsTrue, decimal, drop, length, take, vec_capacity, vec_len};
ghost use Rattle.std.specs.Fmt.{signed_decimal};
ghost use Rattle.std.specs.List.{flat_map};
ghost use Rattle.abc_base.specs.Escapes.{with_escapes, hex_digit as hex_digit_of, is_plain_byte};
ghost use Rattle.abc_text_writer.specs.declared.tokens.TheConstants.{PAIRS as all_pairs};
ghost use Rattle.abc_text_lines.specs.Listing.{listing_hex, label_of};
ghost use Rattle.abc_varint.specs.Puts.{Puts, PutsWhole};

use crate::escaping::{PIECE, hex_digit, show_at};
use crate::lines::write_signed;
use abc_base::NoMemory;
use itoa::write_digits;

/// Bytes as they are.
#[inline(always)]
pub fn put(bytes: &[u8], out: &mut Vec<u8>) -> Result<(), NoMemory>
    ensures { PutsWhole out.old.items out.new.items result bytes.now }
{
    out.extend_from_slice(bytes)?;
    Ok(())
}

/// The first bytes of a piece. It is appended whole, and cut then: of a piece whose length is known where this is called,
/// that takes fewer steps than to append some of it.
#[inline(always)]
#[tactic(auto, using(crate::proofs::Pieces::cut))]
pub fn put_first(piece: &[u8], count: usize, out: &mut Vec<u8>) -> Result<(), NoMemory>
    requires { count ≤ length piece.now }
    ensures { PutsWhole out.old.items out.new.items result (take count piece.now) }
{
    out.extend_from_slice(piece)?;
    out.truncate(out.len() - (piece.len() - count));
    Ok(())
}

/// A byte as it is.
#[inline(always)]
pub fn push_byte(byte: u8, out: &mut Vec<u8>) -> Result<(), NoMemory>
    ensures { PutsWhole out.old.items out.new.items result (byte ∷ []) }
{
    out.push(byte)?;
    Ok(())
}

/// A space and a word.
#[tactic(auto, using(abc_varint::proofs::Putting::stays, std::proofs::Common::append_assoc))]
pub fn put_word(word: &[u8], out: &mut Vec<u8>) -> Result<(), NoMemory>
    ensures { Puts out.old.items out.new.items result (0x20 ∷ word.now) }
{
    push_byte(b' ', out)?;
    put(word, out)?;
    Ok(())
}

/// A number of any length: written so that it ends at a place of a piece.
#[inline(never)]
fn put_any_digits(n: u32, out: &mut Vec<u8>) -> Result<(), NoMemory>
    ensures { PutsWhole out.old.items out.new.items result (decimal n) }
{
    let mut piece = [0; 32];
    let at = write_digits(n as u64, &mut piece, 16);
    put_first(&piece[at..at + 16], 16 - at, out)
}

/// The two digits of each number below 100.
const PAIRS: [[u8; 2]; 100] = [
    *b"00", *b"01", *b"02", *b"03", *b"04", *b"05", *b"06", *b"07", *b"08", *b"09", *b"10", *b"11",
    *b"12", *b"13", *b"14", *b"15", *b"16", *b"17", *b"18", *b"19", *b"20", *b"21", *b"22", *b"23",
    *b"24", *b"25", *b"26", *b"27", *b"28", *b"29", *b"30", *b"31", *b"32", *b"33", *b"34", *b"35",
    *b"36", *b"37", *b"38", *b"39", *b"40", *b"41", *b"42", *b"43", *b"44", *b"45", *b"46", *b"47",
    *b"48", *b"49", *b"50", *b"51", *b"52", *b"53", *b"54", *b"55", *b"56", *b"57", *b"58", *b"59",
    *b"60", *b"61", *b"62", *b"63", *b"64", *b"65", *b"66", *b"67", *b"68", *b"69", *b"70", *b"71",
    *b"72", *b"73", *b"74", *b"75", *b"76", *b"77", *b"78", *b"79", *b"80", *b"81", *b"82", *b"83",
    *b"84", *b"85", *b"86", *b"87", *b"88", *b"89", *b"90", *b"91", *b"92", *b"93", *b"94", *b"95",
    *b"96", *b"97", *b"98", *b"99",
];

#[inline(always)]
fn pair_in(pairs: &[[u8; 2]; 100], n: u32) -> [u8; 2]
    requires small { n < 100 }
    requires pairs { pairs.now ≡ all_pairs }
    ensures { result ≡ (48 + n / 10) ∷ (48 + n % 10) ∷ [] }
{
    pairs[n as usize]
}

/// The two digits of a number below 100.
#[inline(always)]
pub fn digits_of_pair(n: u32) -> [u8; 2]
    requires { n < 100 }
    ensures { result ≡ (48 + n / 10) ∷ (48 + n % 10) ∷ [] }
{
    pair_in(&PAIRS, n)
}

/// The two digits of a number below 100, into room that is there.
#[inline(always)]
fn put_pair(n: u32, out: &mut Vec<u8>)
    requires small { n < 100 }
    requires room { vec_len out.old + 2 ≤ vec_capacity out.old }
    ensures items { out.new.items ≡ out.old.items ++ (48 + n / 10) ∷ (48 + n % 10) ∷ [] }
    ensures len { vec_len out.new ≡ vec_len out.old + 2 }
    ensures capacity { vec_capacity out.new ≡ vec_capacity out.old }
{
    let pair = digits_of_pair(n);
    out.push_reserved(pair[0]);
    out.push_reserved(pair[1]);
}

/// A number below 10,000, into room that is there.
#[inline]
#[tactic(auto, using(crate::proofs::Digits::one, crate::proofs::Digits::two, crate::proofs::Digits::three, crate::proofs::Digits::four, std::proofs::Common::append_assoc))]
fn put_short(n: u32, out: &mut Vec<u8>)
    requires short { n < 10000 }
    requires room { vec_len out.old + 4 ≤ vec_capacity out.old }
    ensures { out.new.items ≡ out.old.items ++ decimal n }
{
    if n < 10 {
        out.push_reserved(b'0' + n as u8);
    } else if n < 100 {
        put_pair(n, out);
    } else if n < 1000 {
        out.push_reserved(b'0' + (n / 100) as u8);
        put_pair(n % 100, out);
    } else {
        put_pair(n / 100, out);
        put_pair(n % 100, out);
    }
}

/// A number. For one with at most four digits room is there.
#[inline]
fn put_digits(n: u32, out: &mut Vec<u8>) -> Result<(), NoMemory>
    requires { vec_len out.old + 4 ≤ vec_capacity out.old }
    ensures { PutsWhole out.old.items out.new.items result (decimal n) }
{
    if n < 10000 {
        put_short(n, out);
        return Ok(());
    }
    put_any_digits(n, out)
}

/// A number, where room may be missing.
#[inline(always)]
#[tactic(auto, using(abc_varint::proofs::Putting::stays, abc_varint::proofs::Putting::stays_whole))]
pub fn put_operand(n: u32, out: &mut Vec<u8>) -> Result<(), NoMemory>
    ensures { Puts out.old.items out.new.items result (decimal n) }
{
    out.reserve(4)?;
    put_digits(n, out)?;
    Ok(())
}

/// A space and a number.
#[inline(always)]
#[tactic(auto, using(abc_varint::proofs::Putting::stays, abc_varint::proofs::Putting::stays_whole, std::proofs::Common::append_assoc))]
pub fn put_number(n: u32, out: &mut Vec<u8>) -> Result<(), NoMemory>
    ensures { Puts out.old.items out.new.items result (0x20 ∷ decimal n) }
{
    out.reserve(5)?;
    out.push_reserved(b' ');
    put_digits(n, out)
}

/// Writes a space and a signed number so that it ends at the place 16 of a piece, and tells where it begins.
#[inline(always)]
fn write_spaced(n: i32, piece: &mut [u8; 32]) -> usize
    ensures start { result + length (0x20 ∷ signed_decimal n) ≡ 16 }
    ensures written { drop result piece.new ≡ (0x20 ∷ signed_decimal n) ++ drop 16 piece.old }
{
    let at = write_signed(n, piece) - 1;
    piece[at] = b' ';
    at
}

/// A space and a signed number.
#[inline(never)]
pub fn put_signed(n: i32, out: &mut Vec<u8>) -> Result<(), NoMemory>
    ensures { PutsWhole out.old.items out.new.items result (0x20 ∷ signed_decimal n) }
{
    let mut piece = [0; 32];
    let at = write_spaced(n, &mut piece);
    put_first(&piece[at..at + 16], 16 - at, out)
}

/// The label of an instruction.
#[tactic(auto, using(abc_varint::proofs::Putting::stays, abc_varint::proofs::Putting::stays_whole, std::proofs::Common::append_assoc))]
pub fn put_label(n: u32, out: &mut Vec<u8>) -> Result<(), NoMemory>
    ensures { Puts out.old.items out.new.items result (label_of n) }
{
    out.reserve(5)?;
    out.push_reserved(b'L');
    put_digits(n, out)
}

/// A space and the label of an instruction.
#[tactic(auto, using(abc_varint::proofs::Putting::stays, abc_varint::proofs::Putting::stays_whole, std::proofs::Common::append_assoc))]
pub fn put_target(n: u32, out: &mut Vec<u8>) -> Result<(), NoMemory>
    ensures { Puts out.old.items out.new.items result (0x20 ∷ label_of n) }
{
    out.reserve(6)?;
    out.push_reserved(b' ');
    out.push_reserved(b'L');
    put_digits(n, out)
}

fn is_plain(byte: u8) -> bool
    ensures { result ≡ is_plain_byte byte }
{
    matches!(byte, 0x20..=0x7e) && byte != b'"' && byte != b'\\'
}

/// Appends what the piece has so far, where it has no room for a byte more, and tells how many bytes it has then.
#[inline(always)]
fn made_room(piece: &[u8; PIECE], at: usize, out: &mut Vec<u8>) -> Result<usize, NoMemory>
    requires { at ≤ 64 }
    ensures room { IfOk result (λ n. n + 4 ≤ 64) }
    ensures bytes { IfOk result
        (λ n. out.new.items ++ take n piece.now ≡ out.old.items ++ take at piece.now) }
    ensures front { take (length out.old.items) out.new.items ≡ out.old.items }
{
    if at + 4 <= PIECE {
        return Ok(at);
    }
    put(&piece[..at], out)?;
    Ok(0)
}

/// Whether the bytes are shown as they are.
#[tactic(auto, unfolding(abc_base::specs::Escapes::with_escapes))]
fn are_plain(bytes: &[u8]) -> bool
    ensures { IsTrue result → with_escapes bytes.now ≡ bytes.now }
{
    for byte in bytes {
        if !is_plain(*byte) {
            return false;
        }
    }
    true
}

/// Bytes as they are shown.
#[inline(always)]
#[tactic(auto, using(abc_varint::proofs::Putting::stays_whole))]
pub fn put_escaped(bytes: &[u8], out: &mut Vec<u8>) -> Result<(), NoMemory>
    ensures { Puts out.old.items out.new.items result (with_escapes bytes.now) }
{
    if are_plain(bytes) {
        put(bytes, out)?;
        return Ok(());
    }
    put_each_escaped(bytes, out)
}

/// Bytes as they are shown, one by one: some of them in a piece, before they are appended.
#[inline(never)]
#[tactic(auto, unfolding(abc_base::specs::Escapes::with_escapes), using(abc_varint::proofs::Putting::stays, abc_varint::proofs::Putting::stays_whole))]
fn put_each_escaped(bytes: &[u8], out: &mut Vec<u8>) -> Result<(), NoMemory>
    ensures { Puts out.old.items out.new.items result (with_escapes bytes.now) }
{
    let mut piece = [0; PIECE];
    let mut at = 0;
    for byte in bytes {
        at = made_room(&piece, at, out)?;
        at = show_at(*byte, &mut piece, at);
    }
    put(&piece[..at], out)?;
    Ok(())
}

/// A space and a quoted text.
#[tactic(auto, using(abc_varint::proofs::Putting::stays, std::proofs::Common::append_assoc))]
pub fn put_quoted(text: &[u8], out: &mut Vec<u8>) -> Result<(), NoMemory>
    ensures { Puts out.old.items out.new.items result (0x20 ∷ 0x22 ∷ (with_escapes text.now ++ 0x22 ∷ [])) }
{
    put(b" \"", out)?;
    put_escaped(text, out)?;
    push_byte(b'"', out)?;
    Ok(())
}

fn put_hex(byte: u8, out: &mut Vec<u8>) -> Result<(), NoMemory>
    ensures { PutsWhole out.old.items out.new.items result
        (hex_digit_of (byte / 16) ∷ hex_digit_of (byte % 16) ∷ []) }
{
    put(&[hex_digit(byte / 16), hex_digit(byte % 16)], out)
}

/// Each byte as two hexadecimal digits.
#[tactic(auto, using(abc_varint::proofs::Putting::stays, abc_varint::proofs::Putting::stays_whole))]
pub fn put_hex_bytes(bytes: &[u8], out: &mut Vec<u8>) -> Result<(), NoMemory>
    ensures { Puts out.old.items out.new.items result (listing_hex bytes.now) }
{
    for byte in bytes {
        put_hex(*byte, out)?;
    }
    Ok(())
}
