ghost use Rattle.std.specs.Prelude.{◌≡◌, ◌<◌, ◌≤◌, ◌+◌, ◌*◌, ◌^◌, ℕ, length, Some, None, slice_get, true};
ghost use Rattle.abc_heap_values.specs.Links.{links};
ghost use Rattle.abc_heap_store.specs.Gaps.{empty_in, AreEmpty, AreGaps};
ghost use Rattle.abc_heap_store.specs.Heap.{properties_of};
ghost use Rattle.abc_heap_store.specs.Properties.{next_filled};
ghost use Rattle.abc_heap_store.specs.View.{objects, AreObjectHeads};
ghost use Rattle.abc_heap_store.specs.Spots.{IsSame};

use crate::heads::{Head, property_count, property_place};
use abc_heap_values::{Cell, Held, Reserved, cell_at, hold};

/// How many positions are known to be empty from that of a cell on.
fn known_empty(held: Held) -> u32
    ensures { result ≡ empty_in held }
{
    match held {
        Held::Deleted(count) => count,
        _ => 0,
    }
}

/// How many positions are known to be empty from place `k` of an object's list on: none where that is filled.
fn empty_from(heads: &Reserved<Head>, cells: &Reserved<Cell>, o: u32, k: u32) -> u32
    requires heads { AreObjectHeads (links cells.now.items) heads.now.items }
    requires gaps { AreGaps cells.now.items }
    requires property { k < length (properties_of (objects cells.now.items 0 heads.now.items) o) }
    ensures empty { AreEmpty (properties_of (objects cells.now.items 0 heads.now.items) o) k result }
    ensures filled { result ≡ 0
        → next_filled (properties_of (objects cells.now.items 0 heads.now.items) o) k ≡ Some (k + 1) }
    ensures within { k + result ≤ length (properties_of (objects cells.now.items 0 heads.now.items) o) }
{
    let place = property_place(heads, cells, o, k);
    known_empty(cell_at(cells, place).held)
}

/// The least filled position above `from`. Each step passes all positions that are known to be empty.
pub fn next_from(heads: &Reserved<Head>, cells: &Reserved<Cell>, o: u32, from: u32) -> Option<u32>
    requires heads { AreObjectHeads (links cells.now.items) heads.now.items }
    requires gaps { AreGaps cells.now.items }
    requires inside { o < length heads.now.items }
    ensures { result ≡ next_filled (properties_of (objects cells.now.items 0 heads.now.items) o) from }
{
    let count = property_count(heads, cells, o);
    let mut at = from;
    while at < count {
        let empty = empty_from(heads, cells, o, at);
        if empty == 0 {
            return Some(at + 1);
        }
        at += empty;
    }
    None
}

/// Whether `size` positions from place `k` on are known to be empty, and as many after them.
fn are_empty(heads: &Reserved<Head>, cells: &Reserved<Cell>, o: u32, k: u32, size: u32) -> bool
    requires heads { AreObjectHeads (links cells.now.items) heads.now.items }
    requires gaps { AreGaps cells.now.items }
    requires property { k + size < length (properties_of (objects cells.now.items 0 heads.now.items) o) }
    requires small { k + size < 2 ^ 32 }
    ensures { result ≡ true
        → AreEmpty (properties_of (objects cells.now.items 0 heads.now.items) o) k (2 * size) }
{
    let low = empty_from(heads, cells, o, k);
    if low < size {
        return false;
    }
    let high = empty_from(heads, cells, o, k + size);
    if high < size {
        return false;
    }
    true
}

/// The first place of the `pair` places among which `k` is, where the list is cut into pieces of so many.
fn first_of_pair(k: u32, pair: u32) -> u32
    requires { 0 < pair }
    ensures { result ≤ k }
{
    k - k % pair
}

/// Where both halves of the `2 * size` places around `k` are known to be empty, remembers that for all of them, and tells so.
fn join(heads: &Reserved<Head>, cells: &mut Reserved<Cell>, o: u32, k: u32, size: u32) -> bool
    requires heads { AreObjectHeads (links cells.old.items) heads.now.items }
    requires gaps { AreGaps cells.old.items }
    requires inside { o < length heads.now.items }
    requires property { k < length (properties_of (objects cells.old.items 0 heads.now.items) o) }
    requires some { 0 < size }
    ensures same { IsSame heads.now.items cells.old cells.new }
    ensures doubled { result ≡ true → 2 * size < 2 ^ 32 }
{
    let count = property_count(heads, cells, o);
    let half = count / 2;
    if half < size {
        return false;
    }
    let first = first_of_pair(k, 2 * size);
    let rest = count - first;
    if rest <= size {
        return false;
    }
    if !are_empty(heads, cells, o, first, size) {
        return false;
    }
    let place = property_place(heads, cells, o, first);
    hold(cells, place, Held::Deleted(2 * size));
    true
}

/// Remembers how many positions are empty around an emptied one: first for two, then for four, and so on while both
/// halves are empty. So of a list that is cut into pieces of 2^n positions each piece that is empty is known at its first
/// position, and no more pieces are joined than positions are emptied.
pub fn join_around(heads: &Reserved<Head>, cells: &mut Reserved<Cell>, o: u32, k: u32)
    requires heads { AreObjectHeads (links cells.old.items) heads.now.items }
    requires gaps { AreGaps cells.old.items }
    requires inside { o < length heads.now.items }
    requires property { k < length (properties_of (objects cells.old.items 0 heads.now.items) o) }
    ensures { IsSame heads.now.items cells.old cells.new }
{
    let mut size = 1;
    for _ in 0..31 {
        if !join(heads, cells, o, k, size) {
            return;
        }
        size *= 2;
    }
}
