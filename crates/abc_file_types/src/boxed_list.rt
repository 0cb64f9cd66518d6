ghost use Rattle.std.specs.Prelude.{◌≡◌, ◌↔◌, IfOk, IsTrue, length};

use crate::copies::Whole;
use abc_base::{NoMemory, Table};
use std::alloc::Global;
use std::marker::Model;

/// A list of numbers that few values of their type have, which contracts see as that list. It stands behind a pointer, so that
/// the others take no room for it.
#[derive(Debug, Drop)]
pub struct BoxedList {
    numbers: Box<Table<u32>>,
}

impl Model for BoxedList {
    ghost use Rattle.std.specs.Prelude.{List, ℕ};

    ghost Value = { List ℕ };

    ghost view = { λ b. b.numbers.value };
}

impl BoxedList {
    /// A list, behind a pointer. `NoMemory` where memory runs out.
    pub fn new(alloc: Global, numbers: Table<u32>) -> Result<BoxedList, NoMemory>
        ensures { IfOk result (λ b. b ≡ numbers) }
    {
        let numbers = Box::new(alloc, numbers)?;
        Ok(BoxedList { numbers })
    }

    /// The list.
    pub fn list(&self) -> &Table<u32>
        ensures { result.now ≡ self.now }
    {
        &self.numbers
    }

    /// The numbers, in order.
    pub fn as_slice(&self) -> &[u32]
        ensures { result.now ≡ self.now }
    {
        self.numbers.as_slice()
    }

    /// How many numbers there are.
    pub fn len(&self) -> usize
        ensures { result ≡ length self.now }
    {
        self.numbers.len()
    }
}

impl Whole for BoxedList {
    fn same(&self, other: &BoxedList) -> bool {
        self.numbers.same(&other.numbers)
    }

    fn copy(&self, alloc: Global) -> Result<BoxedList, NoMemory> {
        let numbers = self.numbers.copy(alloc)?;
        BoxedList::new(alloc, numbers)
    }
}
