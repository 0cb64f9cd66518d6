use abc_base::NoMemory;
use std::alloc::Global;

/// How many places a block has.
const BLOCK: usize = 256;

/// A table that guesses which of some rising starts a place is. A guess has to be tested, and a wrong one does no harm.
#[derive(Debug, Drop)]
pub struct Guesses {
    /// For each block of places, the number of the first start there.
    firsts: Vec<u32>,
    /// For each place, the low byte of the number of its start.
    bytes: Vec<u8>,
}

impl Guesses {
    /// Guesses of no starts. It takes no memory.
    pub(crate) fn new(alloc: Global) -> Guesses {
        Guesses {
            firsts: Vec::new(alloc),
            bytes: Vec::new(alloc),
        }
    }

    /// Forgets all starts.
    pub(crate) fn clear(&mut self) {
        self.firsts.clear();
        self.bytes.clear();
    }

    /// Learns these starts, and no others.
    pub(crate) fn learn(&mut self, starts: &[u32]) -> Result<(), NoMemory> {
        self.clear();
        let Some(end) = starts.last() else {
            return Ok(());
        };
        self.bytes.resize(*end as usize + 1, 0)?;
        let mut number: u32 = 0;
        for place in starts {
            self.add(*place as usize, number)?;
            number = number.wrapping_add(1);
        }
        Ok(())
    }

    /// Adds a start.
    #[inline(always)]
    fn add(&mut self, place: usize, number: u32) -> Result<(), NoMemory> {
        if place / BLOCK >= self.firsts.len() {
            self.begin_block(place / BLOCK, number)?;
        }
        if let Some(byte) = self.bytes.get_mut(place) {
            *byte = (number % 256) as u8;
        }
        Ok(())
    }

    /// Begins a block, with the number of its first start.
    #[cold]
    #[inline(never)]
    fn begin_block(&mut self, block: usize, number: u32) -> Result<(), NoMemory> {
        self.firsts.resize(block.saturating_add(1), number)?;
        Ok(())
    }

    /// Which of the starts a place may be.
    #[inline(always)]
    pub(crate) fn guess(&self, place: u32) -> u32 {
        let place = place as usize;
        match (self.firsts.get(place / BLOCK), self.bytes.get(place)) {
            (Some(first), Some(byte)) => {
                first.wrapping_add((*byte as u32).wrapping_sub(*first) % 256)
            }
            _ => 0,
        }
    }
}
