//! The word of the line that comes next.
ghost use Rattle.std.specs.Prelude.{◌≡◌};
ghost use Rattle.abc_text_reader.specs.Reading.{rows_left};
ghost use Rattle.abc_asm.specs.Coming.{is_next};

use abc_text_lines::Word;
use abc_text_reader::Reader;
use abc_text_tokens::place_of;

/// Whether a line of the word comes next.
pub fn comes(reader: &Reader<'_>, word: Word) -> bool
    ensures { result ≡ is_next word (rows_left reader.now) }
{
    match reader.word() {
        Some(next) => place_of(next) == place_of(word),
        None => false,
    }
}
