ghost use Rattle.std.specs.Prelude.{◌∷◌, IfOk};
ghost use Rattle.abc_text_lines.specs.Tokens.{quote};
ghost use Rattle.abc_text_tokens.specs.Walks.{BeginsRun, FindsToken, GathersTokens};

use crate::bytes::{after_blanks, run_len};
use crate::quoted::quoted_len;
use crate::token::{Next, Token};
use abc_base::NoMemory;

/// The next token of a line.
#[inline(always)]
pub fn next_token(bytes: &[u8]) -> Next<'_>
    ensures { FindsToken bytes.now result }
{
    let rest = after_blanks(bytes);
    if rest.is_empty() {
        return Next::End;
    }
    if rest[0] == b';' {
        return Next::End;
    }
    if rest[0] == b'"' {
        return quoted_token(&rest[1..]);
    }
    run_token(rest)
}

/// The token of a run at the front.
fn run_token(bytes: &[u8]) -> Next<'_>
    requires { BeginsRun bytes.now }
    ensures { FindsToken bytes.now result }
{
    let len = run_len(bytes);
    Next::Bare(&bytes[..len], &bytes[len..])
}

/// The token of a quoted text whose quote stood before the bytes.
#[inline(never)]
fn quoted_token(bytes: &[u8]) -> Next<'_>
    ensures { FindsToken (quote ∷ bytes.now) result }
{
    match quoted_len(bytes) {
        Some(len) => Next::Quoted(&bytes[..len], &bytes[len + 1..]),
        None => Next::Broken,
    }
}

/// Puts the tokens of a line into a list in place of what it has, and tells whether the line is broken after them.
/// `NoMemory` where memory runs out.
pub fn put_tokens<'a>(line: &'a [u8], tokens: &mut Vec<Token<'a>>) -> Result<bool, NoMemory>
    ensures { IfOk result (λ broken. GathersTokens line.now tokens.new.items broken) }
{
    tokens.clear();
    let mut rest = line;
    loop {
        match next_token(rest) {
            Next::Bare(word, others) => {
                tokens.push(Token::Bare(word))?;
                rest = others;
            }
            Next::Quoted(text, others) => {
                tokens.push(Token::Quoted(text))?;
                rest = others;
            }
            Next::End => return Ok(false),
            Next::Broken => return Ok(true),
        }
    }
}
