//! Which lines can be those of tables, told by their first bytes.
ghost use Rattle.std.specs.Prelude.{◌≡◌, false};
ghost use Rattle.abc_text_tokens.specs.Tables.{IsOfNoTable, may_begin};

use crate::bytes::is_run_byte;

/// Whether the word of a table can begin with these bytes: a test of at most three of them.
#[inline(always)]
fn may_begin_word(first: u8, second: u8, third: u8) -> bool
    ensures { result ≡ may_begin first second third }
{
    match first {
        b'i' => second == b'n' && (third == b't' || third == b's'),
        b's' => (second == b't' && third == b'r') || (second == b'e' && third == b't'),
        b'n' => second == b's' || (second == b'a' && third == b'm'),
        b'd' => second == b'o' && third == b'u',
        b'm' => second == b'e' && third == b't',
        b'c' => second == b'l' && third == b'a',
        b'u' => second == b'i' && third == b'n',
        _ => false,
    }
}

/// Whether a line may be one of a table, as its first bytes tell. Most lines are not.
#[inline(always)]
#[tactic(auto, using(crate::proofs::Passing::passed))]
pub fn may_be_of_table(line: &[u8]) -> bool
    ensures { result ≡ false → IsOfNoTable line.now }
{
    if line.len() < 3 {
        return true;
    }
    if !is_run_byte(line[0]) {
        return true;
    }
    may_begin_word(line[0], line[1], line[2])
}
