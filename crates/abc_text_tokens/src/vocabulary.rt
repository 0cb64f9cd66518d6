ghost use Rattle.std.specs.Prelude.{◌≡◌, OnOk};
ghost use Rattle.abc_text_tokens.specs.Entries.{AreRight};
ghost use Rattle.abc_text_tokens.specs.Names.{KnowsOpcodes};

use crate::entries::{Entry, no_entries, place_of, put};
use crate::kinds::before_blank;
use crate::searching::{LINE_WORDS, opcodes_by_name, sought};
use abc_base::NoMemory;
use abc_file_types::mnemonic;
use abc_text_lines::Word;
use indexmap::IndexMap;
use std::alloc::Global;

/// The words that lines begin with, by which the word of a line is found.
#[derive(Drop)]
pub struct Vocabulary {
    opcodes: IndexMap<&'static [u8], u8>,
    /// The words again, each in its place.
    entries: Vec<Entry>,
    ghost known: { KnowsOpcodes opcodes },
    ghost right: { AreRight entries.items },
}

impl Vocabulary {
    ghost use Rattle.abc_text_lines.specs.Texts.{word_of_text};

    /// All words. `NoMemory` where memory runs out.
    pub fn new(alloc: Global) -> Result<Vocabulary, NoMemory> {
        let opcodes = opcodes_by_name(alloc)?;
        let mut entries = no_entries(alloc)?;
        put_instructions(&mut entries, &opcodes);
        put_line_words(&mut entries, &opcodes);
        Ok(Vocabulary { opcodes, entries })
    }

    /// What a word at the head of a line says that the line is.
    #[inline(always)]
    pub fn word(&self, word: &[u8]) -> Word
        ensures { result ≡ word_of_text word.now }
    {
        match self.entries.get(place_of(word)) {
            Some(entry) if entry.name == word => entry.word,
            _ => sought(&self.opcodes, word),
        }
    }
}

/// Puts the names of the instructions in their places.
fn put_instructions(entries: &mut Vec<Entry>, opcodes: &IndexMap<&'static [u8], u8>)
    requires right { AreRight entries.old.items }
    requires known { KnowsOpcodes opcodes.now }
    ensures { AreRight entries.new.items }
{
    for op in 0..256u16 {
        match mnemonic(op as u8) {
            Some(name) => put(entries, name, sought(opcodes, name)),
            None => {}
        }
    }
}

/// Puts the words of lines in their places.
fn put_line_words(entries: &mut Vec<Entry>, opcodes: &IndexMap<&'static [u8], u8>)
    requires right { AreRight entries.old.items }
    requires known { KnowsOpcodes opcodes.now }
    ensures { AreRight entries.new.items }
{
    for row in &LINE_WORDS {
        let name = before_blank(&row.0);
        put(entries, name, sought(opcodes, name));
    }
}
