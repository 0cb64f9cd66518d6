ghost use Rattle.std.specs.Prelude.{◌≡◌, ◌<◌, ◌≤◌, ◌+◌, ◌^◌, ◌++◌, ◌∷◌, [], List, ℕ, length, IfOk, IsTrue, ◌↔◌, Some, slice_get, set, get_or};
ghost use Rattle.abc_heap_values.specs.Filling.{Filling, HasRoom};

use abc_base::NoMemory;
use std::alloc::Global;
use std::marker::Model;

/// A list whose memory is taken once, for a limit. Contracts see the list and the limit.
#[derive(Debug, Drop)]
pub struct Reserved<T> {
    items: Vec<T>,
    limit: u32,
}

impl<T> Model for Reserved<T> {
    ghost use Rattle.std.specs.Prelude.{◌≤◌, ◌<◌, ◌^◌, length, vec_capacity, List};
    ghost use Rattle.abc_heap_values.specs.Filling.{Filling};

    ghost Value = { Filling T };

    ghost view = { λ r. record { items = r.items.items; limit = r.limit } };

    ghost invariant = { λ r. (length r.items.items ≤ r.limit) × (r.limit ≤ vec_capacity r.items)
        × (r.limit < 2 ^ 32) };
}

impl<T: Drop> Reserved<T> {
    /// The empty list, with room for `limit` items.
    pub fn new(alloc: Global, limit: u32) -> Result<Reserved<T>, NoMemory>
        ensures { IfOk result (λ r. r ≡ record { items = []; limit = limit }) }
    {
        let items = Vec::with_capacity(alloc, limit as usize)?;
        Ok(Reserved { items, limit })
    }

    /// How many items there are.
    pub fn len(&self) -> u32
        ensures len { result ≡ length self.now.items }
        ensures within { (result ≤ self.now.limit) × (self.now.limit < 2 ^ 32) }
    {
        self.items.len() as u32
    }

    /// How many items it has room for in all.
    pub fn limit(&self) -> u32
        ensures { result ≡ self.now.limit }
    {
        self.limit
    }

    /// Adds an item at the end. It takes no memory.
    pub fn push(&mut self, x: T)
        requires { HasRoom self.old 1 }
        ensures { self.new ≡ record { items = self.old.items ++ x ∷ []; limit = self.old.limit } }
    {
        self.items.push_reserved(x);
    }

    /// Replaces the item at a position.
    pub fn set(&mut self, i: u32, x: T)
        requires { i < length self.old.items }
        ensures { self.new ≡ record { items = set self.old.items i x; limit = self.old.limit } }
    {
        self.items[i as usize] = x;
    }

    /// All items, in order.
    pub fn as_slice(&self) -> &[T]
        ensures { result.now ≡ self.now.items }
    {
        self.items.as_slice()
    }
}

impl<T: Copy + Drop> Reserved<T> {
    /// A copy of the item at a position.
    pub fn get(&self, i: u32) -> T
        requires { i < length self.now.items }
        ensures { slice_get self.now.items i ≡ Some result }
    {
        self.items[i as usize]
    }
}
