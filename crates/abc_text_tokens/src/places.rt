ghost use Rattle.std.specs.Prelude.{◌≡◌, ◌<◌};
ghost use Rattle.abc_text_lines.specs.Words.{place_of as place_of_word};

use abc_text_lines::Word;

/// The place of a line of this word in the order of the lines, 0 to 25; instructions and label lines have one.
pub fn place_of(word: Word) -> u8
    ensures is { result ≡ place_of_word word }
    ensures bound { result < 26 }
{
    match word {
        Word::Abc => 0,
        Word::Int => 1,
        Word::UInt => 2,
        Word::Double => 3,
        Word::Text => 4,
        Word::Namespace => 5,
        Word::Set => 6,
        Word::Name => 7,
        Word::Method => 8,
        Word::Param => 9,
        Word::Optional => 10,
        Word::ParamName => 11,
        Word::Metadata => 12,
        Word::Entry => 13,
        Word::Instance => 14,
        Word::Protected => 15,
        Word::Implements => 16,
        Word::Initializer => 17,
        Word::Trait => 18,
        Word::TraitMetadata => 19,
        Word::Class => 20,
        Word::Script => 21,
        Word::Body => 22,
        Word::Instruction(_) => 23,
        Word::Label => 23,
        Word::Catch => 24,
        Word::Unknown => 25,
    }
}
