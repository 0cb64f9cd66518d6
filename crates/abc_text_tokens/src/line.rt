ghost use Rattle.std.specs.Prelude.{◌≡◌, ◌<◌, ◌≤◌, ◌+◌, ◌^◌, length};
ghost use Rattle.abc_text_lines.specs.Texts.{lines_in, raws_from, token_name};
ghost use Rattle.abc_text_lines.specs.Scanning.{Between, scan};
ghost use Rattle.abc_text_lines.specs.Tokens.{Bare};
ghost use Rattle.abc_text_tokens.specs.Cursor.{Comes, Splits, head_in};

use crate::names::name_before_colon;
use crate::next::next_token;
use crate::token::Next;
use crate::vocabulary::Vocabulary;
use abc_text_lines::Word;
use memchr::memchr;

/// A line of a text that has tokens, up to its first token.
#[derive(Clone, Copy, Debug)]
pub struct Line<'a> {
    /// Lines are counted from 1, those without tokens too.
    pub number: u32,
    pub word: Word,
    /// The first token is a quote that isn't closed, or has an escape that is none.
    pub broken: bool,
    /// What stands before the colon that ends the first token.
    pub name: &'a [u8],
    /// What follows the first token in the line.
    pub tail: &'a [u8],
    /// What follows the line in the text.
    pub rest: &'a [u8],
}

impl<'a> Line<'a> {
    ghost use Rattle.abc_text_tokens.specs.Cursor.{AreLinesNumbered, raws_after};

    /// The next line with tokens.
    #[inline(always)]
    pub fn after(&self, vocabulary: &Vocabulary) -> Option<Line<'a>>
        requires { AreLinesNumbered self.now }
        ensures { Comes (raws_after self.now) (self.now.number + 1) (length self.now.rest.now) result }
    {
        next_line(vocabulary, self.rest, u64::from(self.number) + 1)
    }
}

/// The first line of a text and what stands behind its end.
#[inline(always)]
pub fn split_line(text: &[u8]) -> (&[u8], &[u8])
    requires { 0 < length text.now }
    ensures lines { Splits text.now result.0.now result.1.now }
    ensures short { length result.1.now < length text.now }
{
    match memchr(b'\n', text) {
        Some(end) => (&text[..end], &text[end + 1..]),
        None => (text, &[]),
    }
}

/// The word of a line, if it has tokens.
#[inline(always)]
pub fn head_word(vocabulary: &Vocabulary, line: &[u8]) -> Option<Word>
    ensures { result ≡ head_in (scan line.now Between) }
{
    match next_token(line) {
        Next::End => None,
        Next::Bare(head, _) => Some(vocabulary.word(head)),
        Next::Quoted(_, _) | Next::Broken => Some(Word::Unknown),
    }
}

/// The name of a word at the head of a line.
fn name_of(word: &[u8]) -> &[u8]
    ensures { result.now ≡ token_name (Bare word.now) }
{
    match name_before_colon(word) {
        Some(name) => name,
        None => &[],
    }
}

/// The next line with tokens of what is left of a text, of which the first line has this number.
#[inline(always)]
pub fn next_line<'a>(vocabulary: &Vocabulary, text: &'a [u8], number: u64) -> Option<Line<'a>>
    requires { number + length text.now ≤ 2 ^ 32 }
    ensures { Comes (raws_from number (lines_in text.now)) number (length text.now) result }
{
    let mut rest = text;
    let mut number = number;
    while !rest.is_empty() {
        let (line, others) = split_line(rest);
        match next_token(line) {
            Next::End => {}
            Next::Bare(head, tail) => {
                return Some(Line {
                    number: number as u32,
                    word: vocabulary.word(head),
                    broken: false,
                    name: name_of(head),
                    tail,
                    rest: others,
                });
            }
            Next::Quoted(_, tail) => {
                return Some(Line {
                    number: number as u32,
                    word: Word::Unknown,
                    broken: false,
                    name: &[],
                    tail,
                    rest: others,
                });
            }
            Next::Broken => {
                return Some(Line {
                    number: number as u32,
                    word: Word::Unknown,
                    broken: true,
                    name: &[],
                    tail: &[],
                    rest: others,
                });
            }
        }
        rest = others;
        number += 1;
    }
    None
}
