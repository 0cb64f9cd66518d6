ghost use Rattle.std.specs.Prelude.{◌≡◌, ◌<◌, ◌-◌, ◌^◌, All, MatchOption, length, min};
ghost use Rattle.std.specs.List.{sum_by};
ghost use Rattle.abc_tables.specs.Lengths.{counted_len};

use crate::indices::is_count;
use crate::lengths::Measured;
use abc_base::Table;
use abc_file_types::{Sizes, count_len};

/// Values of which it is told whether some bytes spell them.
pub trait Fitting: Measured {
    ghost use Rattle.std.specs.Prelude.{◌↔◌, IsTrue};
    ghost use Rattle.abc_file_types.specs.declared.tables.Sizes.{Sizes as SizesOf};

    /// That some bytes spell the value, over tables of these sizes.
    ghost fits: { SizesOf → Self → Type 0 };

    /// Whether some bytes spell the value.
    fn fits_in(&self, sizes: &Sizes) -> bool
        ensures { IsTrue result ↔ fits sizes.now self.now };
}

/// How many canonical bytes the value has, if some bytes spell it. It is 2^64 - 1 where that is greater.
fn len_of_one<T: Fitting>(item: &T, sizes: &Sizes) -> Option<u64>
    ensures { MatchOption result (T.fits sizes.now item.now → ⊥)
        (λ n. T.fits sizes.now item.now × (n ≡ min (T.len item.now) (2 ^ 64 - 1))) }
{
    if !item.fits_in(sizes) {
        return None;
    }
    Some(item.canonical_len())
}

/// The same for all values, one after the other, in one walk.
pub fn len_of_each<T: Fitting>(items: &Table<T>, sizes: &Sizes) -> Option<u64>
    ensures { MatchOption result (All (T.fits sizes.now) items.now → ⊥)
        (λ n. All (T.fits sizes.now) items.now × (n ≡ min (sum_by T.len items.now) (2 ^ 64 - 1))) }
{
    let mut len: u64 = 0;
    for item in items.as_slice() {
        let more = len_of_one(item, sizes)?;
        len = len.saturating_add(more);
    }
    Some(len)
}

/// The same for a count and the values.
pub fn len_of_list<T: Fitting>(items: &Table<T>, sizes: &Sizes) -> Option<u64>
    ensures { MatchOption result ((length items.now < 2 ^ 30) × All (T.fits sizes.now) items.now → ⊥)
        (λ n. (length items.now < 2 ^ 30) × All (T.fits sizes.now) items.now
        × (n ≡ min (counted_len T.len items.now) (2 ^ 64 - 1))) }
{
    if !is_count(items.len()) {
        return None;
    }
    let len = len_of_each(items, sizes)?;
    Some(count_len(items.len()).saturating_add(len))
}
