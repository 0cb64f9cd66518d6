//! What ends a line: the front of the text that its name has.
ghost use Rattle.std.specs.Prelude.{◌≡◌, ◌++◌, ◌≤◌, ◌-◌, length, take, codes, Some};
ghost use Rattle.abc_base.specs.Escapes.{with_escapes};
ghost use Rattle.abc_text_lines.specs.Listing.{multiname_comment, name_comment, string_of_name, operand_comment, quoted_comment, string_at as string_of};
ghost use Rattle.abc_file_types.specs.declared.opcodes.Pool.TheVariants as pools;
ghost use Rattle.abc_varint.specs.Puts.{Puts, PutsWhole};

use crate::escaping::{PIECE, show_at};
use crate::shown::Shown;
use crate::tokens::{put, put_first};
use abc_base::NoMemory;
use abc_file_types::{Abc, Multiname, Pool};

/// How many bytes of a text are shown.
const SHOWN: usize = 16;

/// What stands before them, in a piece that has room for the others.
const QUOTED: [u8; PIECE] = *b" ; \"                                                            ";

/// The string of an index that counts from 1; 0 is the empty text.
pub fn string_at(abc: &Abc, n: u32) -> &[u8]
    ensures { result.now ≡ string_of abc.now n }
{
    if n == 0 {
        return &[];
    }
    match abc.strings.find(n as usize - 1) {
        Some(text) => text.as_slice(),
        None => &[],
    }
}

/// A text of few bytes, as what ends a line.
#[tactic(auto, unfolding(abc_base::specs::Escapes::with_escapes))]
fn put_quoted_front(text: &[u8], out: &mut Vec<u8>) -> Result<(), NoMemory>
    requires { length text.now ≤ 16 }
    ensures { PutsWhole out.old.items out.new.items result
        (codes " ; \"" ++ (with_escapes text.now ++ codes "\"")) }
{
    let mut piece = QUOTED;
    let mut at = 4;
    for byte in text {
        at = show_at(*byte, &mut piece, at);
    }
    piece[at] = b'"';
    put_first(&piece, at + 1, out)
}

/// The front of a text.
#[tactic(auto, using(abc_varint::proofs::Putting::stays_whole))]
pub fn put_quoted_comment(text: &[u8], out: &mut Vec<u8>) -> Result<(), NoMemory>
    ensures { Puts out.old.items out.new.items result (quoted_comment text.now) }
{
    put_quoted_front(&text[..text.len().min(SHOWN)], out)?;
    Ok(())
}

/// The front of the string of an index; 0 is the empty text.
pub fn put_string_comment(abc: &Shown<'_>, n: u32, out: &mut Vec<u8>) -> Result<(), NoMemory>
    ensures { Puts out.old.items out.new.items result (quoted_comment (string_of abc.now n)) }
{
    match abc.comment(n) {
        Some(comment) => put(comment, out),
        None => put_quoted_comment(string_at(abc.file(), n), out),
    }
}

/// The string of an index, where 0 is any name.
#[tactic(auto, using(abc_varint::proofs::Putting::stays_whole))]
pub fn put_name_comment(abc: &Shown<'_>, n: u32, out: &mut Vec<u8>) -> Result<(), NoMemory>
    ensures { Puts out.old.items out.new.items result (name_comment abc.now n) }
{
    if n == 0 {
        put(b" ; *", out)
    } else {
        put_string_comment(abc, n, out)
    }
}

/// The string that a multiname has, or 0.
pub fn name_of(multiname: &Multiname) -> u32
    ensures { result ≡ string_of_name (Some multiname.now) }
{
    match multiname {
        Multiname::QName { name, .. } => *name,
        Multiname::Rt { name, .. } => *name,
        Multiname::Multi { name, .. } => *name,
        Multiname::RtL { .. } | Multiname::MultiL { .. } | Multiname::TypeName { .. } => 0,
    }
}

/// The string of the multiname of an index, which counts from 1.
pub fn put_multiname_comment(abc: &Shown<'_>, n: u32, out: &mut Vec<u8>) -> Result<(), NoMemory>
    ensures { Puts out.old.items out.new.items result (multiname_comment abc.now n) }
{
    let name = match abc.file().names.find((n as usize).saturating_sub(1)) {
        Some(multiname) => name_of(multiname),
        None => 0,
    };
    put_name_comment(abc, name, out)
}

/// The name that an instruction's first operand is, where it is in range and not 0.
fn put_name_operand(abc: &Shown<'_>, n: u32, out: &mut Vec<u8>) -> Result<(), NoMemory>
    ensures { Puts out.old.items out.new.items result (operand_comment abc.now pools.Name n) }
{
    if n >= 1 && n as usize <= abc.file().names.len() {
        return put_multiname_comment(abc, n, out);
    }
    Ok(())
}

/// The string that an instruction's first operand is, where it is in range and not 0.
fn put_text_operand(abc: &Shown<'_>, n: u32, out: &mut Vec<u8>) -> Result<(), NoMemory>
    ensures { Puts out.old.items out.new.items result (operand_comment abc.now pools.Text n) }
{
    if n >= 1 && n as usize <= abc.file().strings.len() {
        return put_string_comment(abc, n, out);
    }
    Ok(())
}

/// The name or the string that an instruction's first operand is, where it is in range and not 0.
#[inline(always)]
pub fn put_operand_comment(
    abc: &Shown<'_>,
    pool: Pool,
    n: u32,
    out: &mut Vec<u8>,
) -> Result<(), NoMemory>
    ensures { Puts out.old.items out.new.items result (operand_comment abc.now pool n) }
{
    match pool {
        Pool::Name => put_name_operand(abc, n, out),
        Pool::Text => put_text_operand(abc, n, out),
        _ => Ok(()),
    }
}
