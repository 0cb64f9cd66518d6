ghost use Rattle.std.specs.Prelude.{◌≡◌, ◌≤◌, ◌+◌, ◌-◌, ◌^◌, ℕ, length, min};
ghost use Rattle.std.specs.List.{sum_by};
ghost use Rattle.abc_tables.specs.Lengths.{counted_len, pool_len, s32_len, double_len, text_len};
ghost use Rattle.abc_file_types.specs.Canonical.{pool_count};
ghost use Rattle.abc_file_types.specs.CodeBytes.{number_len};

use abc_base::{Bytes, Table, len_u32};
use abc_file_types::{Eight, count_len};

/// Values whose canonical bytes are counted.
pub trait Measured: Drop {
    /// How many bytes there are.
    ghost len: { Self → ℕ };

    /// How many canonical bytes the value has, or 2^64 - 1 where there are more. It takes no memory.
    fn canonical_len(&self) -> u64
        ensures { result ≡ min (len self.now) (2 ^ 64 - 1) };
}

/// How many canonical bytes a number has, 1 to 5.
pub fn len_of_number(n: u32) -> u64
    ensures is { result ≡ number_len n }
    ensures bound { result ≤ 5 }
{
    len_u32(n) as u64
}

/// The canonical bytes of all items, one after the other.
pub fn len_of_all<T: Measured>(items: &Table<T>) -> u64
    ensures { result ≡ min (sum_by T.len items.now) (2 ^ 64 - 1) }
{
    let mut len: u64 = 0;
    for item in items.as_slice() {
        len = len.saturating_add(item.canonical_len());
    }
    len
}

/// The canonical bytes of a count and the items.
pub fn len_of_counted<T: Measured>(items: &Table<T>) -> u64
    ensures { result ≡ min (counted_len T.len items.now) (2 ^ 64 - 1) }
{
    count_len(items.len()).saturating_add(len_of_all(items))
}

/// How many canonical bytes the count of a pool has, 1 to 5: entry 0 counts too, unless the pool is empty.
#[tactic(auto, using(crate::proofs::Capped::empty_pool, crate::proofs::Capped::counted_pool))]
fn len_of_pool_count<T: Drop>(items: &Table<T>) -> u64
    ensures is { result ≡ number_len (pool_count items.now) }
    ensures bound { result ≤ 5 }
{
    let entries = items.len();
    if entries == 0 {
        return 1;
    }
    count_len(entries.saturating_add(1))
}

/// The canonical bytes of a pool.
pub fn len_of_pool<T: Measured>(items: &Table<T>) -> u64
    ensures { result ≡ min (pool_len T.len items.now) (2 ^ 64 - 1) }
{
    len_of_pool_count(items).saturating_add(len_of_all(items))
}

impl Measured for u32 {
    ghost len = { number_len };

    fn canonical_len(&self) -> u64 {
        len_of_number(*self)
    }
}

impl Measured for i32 {
    ghost len = { s32_len };

    fn canonical_len(&self) -> u64 {
        len_of_number(self.cast_unsigned())
    }
}

impl Measured for Eight {
    ghost len = { double_len };

    fn canonical_len(&self) -> u64 {
        let bytes: &[u8] = &self.0;
        bytes.len() as u64
    }
}

impl Measured for Bytes {
    ghost len = { text_len };

    fn canonical_len(&self) -> u64 {
        count_len(self.len()).saturating_add(self.len() as u64)
    }
}

impl Measured for Table<u32> {
    ghost len = { counted_len number_len };

    fn canonical_len(&self) -> u64 {
        len_of_counted(self)
    }
}
