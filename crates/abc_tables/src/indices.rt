ghost use Rattle.std.specs.Prelude.{◌↔◌, ◌+◌, ◌<◌, ◌^◌, All, IsTrue};
ghost use Rattle.abc_tables.specs.Fitting.{IsEntryIndex, FitsNumber, IsPoolIndex, IsPosition};

use abc_file_types::U30_LIMIT;

/// Whether so many items can be counted.
pub fn is_count(count: usize) -> bool
    ensures { IsTrue result ↔ (count < 2 ^ 30) }
{
    count < U30_LIMIT as usize
}

/// Whether a pool of so many entries can be counted, with entry 0.
pub fn is_pool_count(count: usize) -> bool
    ensures { IsTrue result ↔ (count + 1 < 2 ^ 30) }
{
    count < U30_LIMIT as usize - 1
}

/// Whether some bytes spell a number below 2^30.
#[tactic(auto, using(crate::proofs::Combined::number_fits))]
pub fn is_number(n: u32) -> bool
    ensures { IsTrue result ↔ FitsNumber n }
{
    n < U30_LIMIT
}

/// Whether some bytes spell a position in a table of so many entries, which counts from 0.
#[tactic(auto, using(crate::proofs::Combined::position_fits))]
pub fn is_position(index: u32, size: u32) -> bool
    ensures { IsTrue result ↔ IsPosition size index }
{
    index < size && index < U30_LIMIT
}

/// Whether some bytes spell an index into a pool of so many entries, which counts from 1, or 0.
#[tactic(auto, using(crate::proofs::Combined::pool_index_fits))]
pub fn is_pool_index(index: u32, size: u32) -> bool
    ensures { IsTrue result ↔ IsPoolIndex size index }
{
    index <= size && index < U30_LIMIT
}

/// Whether some bytes spell an index into a pool of so many entries, which counts from 1, and is not 0.
#[tactic(auto, using(crate::proofs::Combined::entry_index_fits))]
pub fn is_entry_index(index: u32, size: u32) -> bool
    ensures { IsTrue result ↔ IsEntryIndex size index }
{
    1 <= index && index <= size && index < U30_LIMIT
}

/// Whether that is so of each number.
pub fn are_numbers(numbers: &[u32]) -> bool
    ensures { IsTrue result ↔ All FitsNumber numbers.now }
{
    numbers.iter().all(|n| is_number(*n))
}

/// Whether that is so of each position.
pub fn are_positions(indices: &[u32], size: u32) -> bool
    ensures { IsTrue result ↔ All (IsPosition size) indices.now }
{
    indices.iter().all(|index| is_position(*index, size))
}

/// Whether that is so of each index into a pool.
pub fn are_pool_indices(indices: &[u32], size: u32) -> bool
    ensures { IsTrue result ↔ All (IsPoolIndex size) indices.now }
{
    indices.iter().all(|index| is_pool_index(*index, size))
}

/// Whether that is so of each index of an entry.
pub fn are_entry_indices(indices: &[u32], size: u32) -> bool
    ensures { IsTrue result ↔ All (IsEntryIndex size) indices.now }
{
    indices.iter().all(|index| is_entry_index(*index, size))
}
