ghost use Rattle.std.specs.Prelude.{◌≡◌, ◌<◌, ◌+◌, ◌∷◌, ◌^◌, [], length, IfOk, OnOk, get_or, unwrap_or};
ghost use Rattle.std.specs.Str.{bytes_eq};
ghost use Rattle.abc_base_graphs.specs.Index.{first};
ghost use Rattle.abc_base_graphs.specs.Texts.{HasTexts, AreNumbersOf, Notes, number_in, numbers_in};

use abc_base::{Bytes, NoMemory, Table};
use indexmap::IndexMap;
use std::alloc::Global;

/// The numbers of texts: of each text the first place where it stands among the texts that were numbered. Number 0 is the
/// empty text.
#[derive(Drop)]
pub struct Texts {
    numbers: IndexMap<Vec<u8>, u32>,
}

/// Gives a text a number, which takes the place of one that it had.
fn note(
    alloc: Global,
    numbers: &mut IndexMap<Vec<u8>, u32>,
    text: &[u8],
    number: u32,
) -> Result<(), NoMemory>
    ensures { OnOk result (Notes numbers.old numbers.new text.now number) }
{
    let key = Vec::from_slice(alloc, text)?;
    numbers.insert(key, number)?;
    Ok(())
}

/// A string of a pool, by its place.
fn text_at(strings: &Table<Bytes>, i: usize) -> &[u8]
    requires { i < length strings.now }
    ensures { result.now ≡ get_or strings.now i [] }
{
    strings.get(i).as_slice()
}

impl Texts {
    /// The numbers of the empty text, and of the strings of a pool, which count from 1.
    #[tactic(auto, using(crate::proofs::Lookup::text_more))]
    pub fn new(alloc: Global, strings: &Table<Bytes>) -> Result<Texts, NoMemory>
        requires { length strings.now + 1 < 2 ^ 32 }
        ensures { IfOk result (λ t. HasTexts t ([] ∷ strings.now)) }
    {
        let mut numbers = IndexMap::with_capacity(alloc, strings.len() + 1)?;
        for i in (0..strings.len()).rev() {
            note(alloc, &mut numbers, text_at(strings, i), i as u32 + 1)?;
        }
        note(alloc, &mut numbers, b"", 0)?;
        Ok(Texts { numbers })
    }

    /// The number of a text.
    pub fn number_of(&self, text: &[u8]) -> Option<u32>
        ensures { result ≡ number_in self.now text.now }
    {
        self.numbers.get(text).copied()
    }
}

impl Texts {
    /// The number of a text, or 0 for one that has none.
    fn number_or_first(&self, text: &[u8]) -> u32
        ensures { result ≡ unwrap_or (number_in self.now text.now) 0 }
    {
        self.number_of(text).unwrap_or(0)
    }

    /// The number of each text of a pool, whose index 0 is the empty text.
    #[tactic(auto, using(crate::proofs::Numbering::numbers_law))]
    pub fn numbers(&self, alloc: Global, strings: &Table<Bytes>) -> Result<Table<u32>, NoMemory>
        requires { HasTexts self.now ([] ∷ strings.now) }
        ensures same { IfOk result (λ t. AreNumbersOf t strings.now) }
        ensures each { IfOk result (λ t. t ≡ numbers_in self.now strings.now) }
    {
        let mut numbers = Table::new(alloc);
        numbers.push(0)?;
        for string in strings.as_slice() {
            numbers.push(self.number_or_first(string.as_slice()))?;
        }
        Ok(numbers)
    }
}
