ghost use Rattle.std.specs.Prelude.{◌≡◌, ◌+◌, ◌<◌, ◌^◌, length, IfOk, IsTrue};
ghost use Rattle.abc_link_names.specs.Pool.{definite_name, name as name_of};
ghost use Rattle.abc_link_names.specs.Numbers.{AreNames, number_of_text as number_in, key_of_name as key_in, class_keys as keys_of};

use crate::pool::definite_name_at;
use abc_base::{NoMemory, Table};
use abc_base_graphs::{Texts, groups_of};
use abc_file_types::Abc;
use indexmap::IndexMap;
use std::alloc::Global;

/// The texts of a file by their numbers, and its classes by the numbers of their names.
#[derive(Drop)]
pub struct NameTables {
    /// Of each text the first place where it stands among the empty text and the strings.
    pub texts: Texts,
    /// For each string, from index 0 on, the number of its text.
    pub numbers: Table<u32>,
    /// For each text that is the name of classes, those classes in order.
    pub(crate) classes: IndexMap<u32, Table<u32>>,
}

/// The number of the text of a string.
#[tactic(auto, using(abc_base::proofs::Past::past_end))]
pub(crate) fn number_of(numbers: &Table<u32>, string: u32) -> u32
    ensures { result ≡ number_in numbers.now string }
{
    match numbers.fetch(string as usize) {
        Some(number) => number,
        None => 0,
    }
}

/// The number of the text of a class's name, or 0 for a class without one.
fn key_of(abc: &Abc, numbers: &Table<u32>, name: u32) -> u32
    ensures { result ≡ key_in numbers.now (definite_name (name_of abc.now name)) }
{
    match definite_name_at(abc, name) {
        Some(definite) => number_of(numbers, definite.string),
        None => 0,
    }
}

/// The numbers of the names of all classes.
fn class_keys(alloc: Global, abc: &Abc, numbers: &Table<u32>) -> Result<Vec<u32>, NoMemory>
    ensures { IfOk result (λ keys. keys.items ≡ keys_of abc.now numbers.now) }
{
    let mut keys = Vec::new(alloc);
    for instance in abc.instances.as_slice() {
        keys.push(key_of(abc, numbers, instance.name))?;
    }
    Ok(keys)
}

/// Whether the strings and classes of a file can be numbered by 32 bits.
fn are_few(abc: &Abc) -> bool
    ensures { IsTrue result → (length abc.now.strings + 1 < 2 ^ 32) × (length abc.now.instances < 2 ^ 32) }
{
    abc.strings.len() < u32::MAX as usize && abc.instances.len() < u32::MAX as usize
}

impl NameTables {
    /// The tables of a file. Each text is hashed once. A file with 2^32 strings or classes finds no memory.
    #[tactic(auto, using(crate::proofs::Numbering::same_numbers))]
    pub fn new(alloc: Global, abc: &Abc) -> Result<NameTables, NoMemory>
        ensures { IfOk result (λ t. AreNames abc.now t) }
    {
        if !are_few(abc) {
            return Err(NoMemory);
        }
        let texts = Texts::new(alloc, &abc.strings)?;
        let numbers = texts.numbers(alloc, &abc.strings)?;
        let keys = class_keys(alloc, abc, &numbers)?;
        let classes = groups_of(alloc, keys.as_slice())?;
        Ok(NameTables {
            texts,
            numbers,
            classes,
        })
    }

    /// How many classes the text has that most classes have.
    pub fn most_of_one_text(&self) -> usize {
        let mut most = 0;
        for classes in self.classes.values() {
            most = classes.len().max(most);
        }
        most
    }
}
