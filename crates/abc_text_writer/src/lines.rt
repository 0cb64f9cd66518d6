//! Lines of a word and a number that are put in one piece: the line is written so that its number ends at a fixed place of the
//! piece, and appended whole. No step hangs on how many digits the number has.
ghost use Rattle.std.specs.Prelude.{◌≡◌, ◌∷◌, ◌++◌, ◌<◌, ◌≤◌, ◌+◌, ◌/◌, ◌%◌, [], codes, decimal, drop, length};
ghost use Rattle.std.specs.Fmt.{signed_decimal};
ghost use Rattle.abc_varint.specs.Puts.{PutsWhole};

use crate::tokens::{digits_of_pair, put_first};
use abc_base::NoMemory;

/// How many bytes a piece has.
const LONG: usize = 32;

/// A piece with the line's end at the place 16.
const LINE: [u8; LONG] = *b"0000000000000000\n000000000000000";

/// How many digits a number has.
#[inline(always)]
fn count_digits(n: u32) -> usize
    ensures { result ≡ length (decimal n) }
{
    let few = 1 + (n >= 10) as usize + (n >= 100) as usize + (n >= 1000) as usize;
    let more = few + (n >= 10_000) as usize + (n >= 100_000) as usize + (n >= 1_000_000) as usize;
    more + (n >= 10_000_000) as usize + (n >= 100_000_000) as usize + (n >= 1_000_000_000) as usize
}

/// Writes the two digits of a number below 100.
#[inline(always)]
fn write_pair(n: u32, piece: &mut [u8; LONG], at: usize)
    requires small { n < 100 }
    requires room { at + 2 ≤ 32 }
    ensures { drop at piece.new ≡ (48 + n / 10) ∷ (48 + n % 10) ∷ drop (at + 2) piece.old }
{
    let pair = digits_of_pair(n);
    piece[at] = pair[0];
    piece[at + 1] = pair[1];
}

/// Writes the four digits of a number below 10,000.
#[inline(always)]
fn write_four(n: u32, piece: &mut [u8; LONG], at: usize)
    requires small { n < 10000 }
    requires room { at + 4 ≤ 32 }
    ensures { drop at piece.new
        ≡ (48 + n / 100 / 10) ∷ (48 + n / 100 % 10) ∷ (48 + n % 100 / 10) ∷ (48 + n % 100 % 10)
        ∷ drop (at + 4) piece.old }
{
    write_pair(n % 100, piece, at + 2);
    write_pair(n / 100, piece, at);
}

/// Writes a number so that it ends at the place 16 of a piece, and tells where it begins. In front of it are zeros.
#[inline(always)]
fn write_number(n: u32, piece: &mut [u8; LONG]) -> usize
    ensures start { result + length (decimal n) ≡ 16 }
    ensures room { 6 ≤ result }
    ensures written { drop result piece.new ≡ decimal n ++ drop 16 piece.old }
{
    write_four(n % 10_000, piece, 12);
    write_four(n / 10_000 % 10_000, piece, 8);
    write_pair(n / 100_000_000, piece, 6);
    16 - count_digits(n)
}

/// Writes a signed number so.
#[inline(always)]
pub(crate) fn write_signed(n: i32, piece: &mut [u8; LONG]) -> usize
    ensures start { result + length (signed_decimal n) ≡ 16 }
    ensures room { 5 ≤ result }
    ensures written { drop result piece.new ≡ signed_decimal n ++ drop 16 piece.old }
{
    let at = write_number(n.unsigned_abs(), piece);
    piece[at - 1] = b'-';
    at - (n < 0) as usize
}

/// Writes a byte in front of others, and tells where it stands.
#[inline(always)]
fn write_before(byte: u8, piece: &mut [u8; LONG], at: usize) -> usize
    requires { (0 < at) × (at ≤ 32) }
    ensures start { result + 1 ≡ at }
    ensures written { drop result piece.new ≡ byte ∷ drop at piece.old }
{
    piece[at - 1] = byte;
    at - 1
}

/// The line of an int.
#[inline(always)]
pub fn put_int_line(n: i32, out: &mut Vec<u8>) -> Result<(), NoMemory>
    ensures { PutsWhole out.old.items out.new.items result
        (codes "int" ++ (0x20 ∷ (signed_decimal n ++ 0x0a ∷ []))) }
{
    let mut piece = LINE;
    let at = write_signed(n, &mut piece);
    let space = write_before(b' ', &mut piece, at);
    let third = write_before(b't', &mut piece, space);
    let second = write_before(b'n', &mut piece, third);
    let first = write_before(b'i', &mut piece, second);
    put_first(&piece[first..first + 16], 17 - first, out)
}

/// The line of a uint.
#[inline(always)]
pub fn put_uint_line(n: u32, out: &mut Vec<u8>) -> Result<(), NoMemory>
    ensures { PutsWhole out.old.items out.new.items result
        (codes "uint" ++ (0x20 ∷ (decimal n ++ 0x0a ∷ []))) }
{
    let mut piece = LINE;
    let at = write_number(n, &mut piece);
    let space = write_before(b' ', &mut piece, at);
    let fourth = write_before(b't', &mut piece, space);
    let third = write_before(b'n', &mut piece, fourth);
    let second = write_before(b'i', &mut piece, third);
    let first = write_before(b'u', &mut piece, second);
    put_first(&piece[first..first + 16], 17 - first, out)
}
