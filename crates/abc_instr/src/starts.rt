ghost use Rattle.std.specs.Prelude.{◌≡◌, ◌<◌, ◌^◌, ◌++◌, ◌∷◌, [], OnOk, length, nat_eq};
ghost use Rattle.std.specs.List.{position};
ghost use Rattle.abc_file_types.specs.Starts.{IsRising};

use crate::guesses::Guesses;
use abc_base::{NoMemory, Table};
use std::alloc::Global;
use std::marker::Model;
use std::mem;

/// For so many starts it takes as long to learn them as to search once.
const STARTS_A_SEARCH: usize = 16;

/// Where instructions start in their code, and then how many bytes it has. Contracts see it as that list. A table, whose
/// memory serves one code after the other, guesses which of them a place is.
#[derive(Debug, Drop)]
pub struct Starts {
    places: Table<u32>,
    guesses: Guesses,
}

impl Model for Starts {
    ghost use Rattle.std.specs.Prelude.{List, ℕ};

    ghost Value = { List ℕ };

    ghost view = { λ s. s.places };
}

/// Which start this is.
pub fn number_of(starts: &[u32], place: u32) -> Option<u32>
    requires rising { IsRising starts.now }
    requires few { length starts.now < 2 ^ 32 }
    ensures { result ≡ position (λ s. nat_eq s place) starts.now }
{
    match starts.binary_search(&place) {
        Ok(i) => Some(i as u32),
        Err(_) => None,
    }
}

impl Starts {
    /// No starts. It takes no memory.
    pub(crate) fn new(alloc: Global) -> Starts
        ensures { result ≡ [] }
    {
        Starts {
            places: Table::new(alloc),
            guesses: Guesses::new(alloc),
        }
    }

    /// Begins again.
    pub(crate) fn clear(&mut self)
        ensures { self.new ≡ [] }
    {
        self.places.truncate(0);
        self.guesses.clear();
    }

    /// Adds a start behind the others.
    #[inline(always)]
    pub(crate) fn push(&mut self, place: u32) -> Result<(), NoMemory>
        ensures { OnOk result (self.new ≡ self.old ++ place ∷ []) }
    {
        self.places.push(place)?;
        Ok(())
    }

    /// Makes ready for so many searches.
    pub(crate) fn prepare(&mut self, searches: usize) -> Result<(), NoMemory>
        ensures { self.new ≡ self.old }
    {
        if searches.saturating_mul(STARTS_A_SEARCH) > self.places.len() {
            self.guesses.learn(self.places.as_slice())?;
        }
        Ok(())
    }

    /// Which of the starts a place is.
    #[inline]
    pub(crate) fn find(&self, place: u32) -> Option<u32>
        requires rising { IsRising self.now }
        requires few { length self.now < 2 ^ 32 }
        ensures { result ≡ position (λ s. nat_eq s place) self.now }
    {
        let guess = self.guesses.guess(place);
        match self.places.fetch(guess as usize) {
            Some(start) if start == place => Some(guess),
            _ => number_of(self.places.as_slice(), place),
        }
    }

    /// All starts, in order.
    pub fn as_slice(&self) -> &[u32]
        ensures { result.now ≡ self.now }
    {
        self.places.as_slice()
    }

    /// Takes the starts out, and leaves none.
    pub(crate) fn take(&mut self, alloc: Global) -> Table<u32>
        ensures { result ≡ self.old }
    {
        let places = mem::replace(&mut self.places, Table::new(alloc));
        self.guesses.clear();
        places
    }
}
