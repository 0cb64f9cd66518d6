ghost use Rattle.std.specs.Prelude.{◌≡◌, List, ℕ, OnOk, IfOk, Some};
ghost use Rattle.abc_text_lines.specs.Wordlines.{lookup};
ghost use Rattle.abc_text_lines.specs.Texts.{if_name, line_words, or_else, word_of_text};
ghost use Rattle.abc_text_tokens.specs.Names.{KnowsOpcodes};

use crate::kinds::find_kind;
use crate::names::{is_name, name_before_colon};
use crate::noting::note;
use abc_base::NoMemory;
use abc_file_types::mnemonic;
use abc_text_lines::Word;
use indexmap::IndexMap;
use std::alloc::Global;

/// The words of lines, padded with blanks.
pub const LINE_WORDS: [([u8; 16], Word); 24] = [
    (*b"abc             ", Word::Abc),
    (*b"int             ", Word::Int),
    (*b"uint            ", Word::UInt),
    (*b"double          ", Word::Double),
    (*b"string          ", Word::Text),
    (*b"ns              ", Word::Namespace),
    (*b"set             ", Word::Set),
    (*b"name            ", Word::Name),
    (*b"method          ", Word::Method),
    (*b"param           ", Word::Param),
    (*b"option          ", Word::Optional),
    (*b"pname           ", Word::ParamName),
    (*b"metadata        ", Word::Metadata),
    (*b"item            ", Word::Entry),
    (*b"instance        ", Word::Instance),
    (*b"protected       ", Word::Protected),
    (*b"implements      ", Word::Implements),
    (*b"iinit           ", Word::Initializer),
    (*b"trait           ", Word::Trait),
    (*b"tmeta           ", Word::TraitMetadata),
    (*b"class           ", Word::Class),
    (*b"script          ", Word::Script),
    (*b"body            ", Word::Body),
    (*b"catch           ", Word::Catch),
];

/// The line word, if it is one.
fn line_word(word: &[u8]) -> Option<Word>
    ensures { result ≡ lookup line_words word.now }
{
    find_kind(&LINE_WORDS, word)
}

/// What a word says, by a search for it.
#[inline(never)]
pub fn sought(opcodes: &IndexMap<&'static [u8], u8>, word: &[u8]) -> Word
    requires { KnowsOpcodes opcodes.now }
    ensures { result ≡ word_of_text word.now }
{
    if let Some(name) = name_before_colon(word) {
        return label_or_unknown(name);
    }
    match opcodes.get(word) {
        Some(op) => Word::Instruction(*op),
        None => line_word(word).unwrap_or(Word::Unknown),
    }
}

/// A label line, or a word of no line, by what stands before the colon.
fn label_or_unknown(name: &[u8]) -> Word
    ensures { result ≡ if_name (Some name.now) }
{
    if is_name(name) {
        Word::Label
    } else {
        Word::Unknown
    }
}

/// The opcode of each instruction's name.
pub fn opcodes_by_name(alloc: Global) -> Result<IndexMap<&'static [u8], u8>, NoMemory>
    ensures { IfOk result KnowsOpcodes }
{
    let mut opcodes = IndexMap::new(alloc);
    for op in 0..256u16 {
        let op = op as u8;
        match mnemonic(op) {
            Some(name) => note(&mut opcodes, name, op)?,
            None => {}
        }
    }
    Ok(opcodes)
}
