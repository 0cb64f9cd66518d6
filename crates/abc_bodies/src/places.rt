ghost use Rattle.std.specs.Prelude.{◌≡◌, ◌<◌, [], length, get_or};

use abc_base::NoMemory;
use abc_base_trees::Rows;
use std::alloc::Global;
use std::marker::Model;

/// Where the instructions of each body began in the bytes of its code as they were read, and then how many bytes there
/// were. Contracts see it as a list of these lists.
#[derive(Debug, Drop)]
pub struct Places {
    starts: Rows<u32>,
}

impl Model for Places {
    ghost use Rattle.std.specs.Prelude.{List, ℕ};

    ghost Value = { List (List ℕ) };

    ghost view = { λ p. p.starts };
}

impl Places {
    /// Where an instruction of a body began in its code as it was read, or how many bytes the code had, for the number
    /// of all instructions. Bodies and instructions count from 0.
    pub fn offset(&self, body: u32, index: u32) -> u32
        requires body { body < length self.now }
        requires index { index < length (get_or self.now body []) }
        ensures { result ≡ get_or (get_or self.now body []) index 0 }
    {
        self.starts.get(body as usize)[index as usize]
    }
}

/// What is kept of where the instructions of each body began, while bodies are read.
pub trait Keeping: Drop {
    ghost use Rattle.std.specs.Prelude.{◌≡◌, ◌++◌, ◌∷◌, List, [], ℕ, OnOk};

    /// What is kept of such places.
    ghost of_places: { List (List ℕ) → Self };

    /// What is kept of no bodies. It takes no memory.
    fn none(alloc: Global) -> Self
        ensures { result ≡ of_places [] };

    /// Keeps the places of another body, after those of the others.
    fn keep(&mut self, starts: &[u32]) -> Result<(), NoMemory>
        ensures { OnOk result ((places : List (List ℕ)) → self.old ≡ of_places places
            → self.new ≡ of_places (places ++ starts.now ∷ [])) };
}

impl Keeping for Places {
    ghost of_places = { λ places. places };

    fn none(alloc: Global) -> Places {
        Places {
            starts: Rows::new(alloc),
        }
    }

    fn keep(&mut self, starts: &[u32]) -> Result<(), NoMemory> {
        self.starts.push(starts)?;
        Ok(())
    }
}

/// Nothing is kept of the places.
#[derive(Debug, Drop)]
pub struct NoPlaces;

impl Keeping for NoPlaces {
    ghost of_places = { λ places. record {} };

    fn none(_alloc: Global) -> NoPlaces {
        NoPlaces
    }

    fn keep(&mut self, _starts: &[u32]) -> Result<(), NoMemory> {
        Ok(())
    }
}
