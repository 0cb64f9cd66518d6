ghost use Rattle.std.specs.Prelude.{◌≡◌, IfOk};
ghost use Rattle.abc_text_lines.specs.Texts.{word_of_text};
ghost use Rattle.abc_text_tokens.specs.Entries.{AreRight};

use abc_base::NoMemory;
use abc_text_lines::Word;
use std::alloc::Global;

/// How many entries there are. So many are enough for each word of the language to have a place of its own.
const ENTRIES: usize = 1024;

/// A word, and what it says at the head of a line.
#[derive(Clone, Copy, Debug)]
pub struct Entry {
    pub name: &'static [u8],
    pub word: Word,
}

/// The place of a word among the entries. Where two words have one place, the one that is put later has it, and the other
/// is found by a search.
pub fn place_of(word: &[u8]) -> usize {
    let len = word.len();
    if len < 2 {
        return 0;
    }
    let first = usize::from(word[0]);
    let last = usize::from(word[len - 1]);
    let before_last = usize::from(word[len - 2]);
    (181 * first + 191 * last + 28 * before_last + 94 * (len % ENTRIES)) % ENTRIES
}

/// Entries of no word of the language. `NoMemory` where memory runs out.
pub fn no_entries(alloc: Global) -> Result<Vec<Entry>, NoMemory>
    ensures { IfOk result (λ entries. AreRight entries.items) }
{
    let mut entries = Vec::new(alloc);
    for _ in 0..ENTRIES {
        entries.push(Entry {
            name: &[],
            word: Word::Unknown,
        })?;
    }
    Ok(entries)
}

/// Puts a word in its place.
pub fn put(entries: &mut Vec<Entry>, name: &'static [u8], word: Word)
    requires right { AreRight entries.old.items }
    requires says { word ≡ word_of_text name.now }
    ensures { AreRight entries.new.items }
{
    let place = place_of(name);
    if place < entries.len() {
        entries[place] = Entry { name, word };
    }
}
