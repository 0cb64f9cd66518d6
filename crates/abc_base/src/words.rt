ghost use Rattle.std.specs.Prelude.{◌≡◌, ◌<◌, ◌++◌, ◌∷◌, [], length, get_or, OnOk, OnErr};

use crate::memory::NoMemory;
use crate::table::{Bytes, Table};
use std::alloc::Global;
use std::marker::Model;

/// The words of a command line, which contracts see as a list of lists of bytes.
#[derive(Debug, Drop)]
pub struct Words {
    alloc: Global,
    items: Table<Bytes>,
}

impl Model for Words {
    ghost use Rattle.std.specs.Prelude.{List, ℕ};

    ghost Value = { List (List ℕ) };

    ghost view = { λ w. w.items };
}

impl Words {
    /// No words. It takes no memory.
    pub fn new(alloc: Global) -> Words
        ensures { result ≡ [] }
    {
        Words {
            alloc,
            items: Table::new(alloc),
        }
    }

    /// Adds a word at the end. Where memory runs out the words stay as they were.
    pub fn push(&mut self, word: &[u8]) -> Result<(), NoMemory>
        ensures ok { OnOk result (self.new ≡ self.old ++ word.now ∷ []) }
        ensures err { OnErr result (self.new ≡ self.old) }
    {
        let copy = Bytes::from_slice(self.alloc, word)?;
        self.items.push(copy)
    }

    /// How many words there are.
    pub fn len(&self) -> usize
        ensures { result ≡ length self.now }
    {
        self.items.len()
    }

    /// The word at a position, which counts from 0.
    pub fn word(&self, i: usize) -> &[u8]
        requires { i < length self.now }
        ensures { result.now ≡ get_or self.now i [] }
    {
        self.items.get(i).as_slice()
    }
}
