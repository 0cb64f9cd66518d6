ghost use Rattle.std.specs.Prelude.{◌≡◌, ◌<◌, ◌≤◌, ◌+◌, ◌-◌, ◌^◌, ◌++◌, ◌∷◌, [], List, ℕ, length, take, drop, IfOk, Some, slice_get, set, replicate};
ghost use Rattle.abc_heap_values.specs.Filling.{Filling, HasRoom};

use abc_base::NoMemory;
use std::alloc::Global;
use std::marker::Model;

/// A list whose memory is taken once, for a limit, and which grows and shrinks at its end.
#[derive(Debug, Drop)]
pub struct Pile<T> {
    items: Vec<T>,
    limit: u32,
}

impl<T> Model for Pile<T> {
    ghost use Rattle.std.specs.Prelude.{◌≤◌, ◌<◌, ◌^◌, length, vec_capacity, List};
    ghost use Rattle.abc_heap_values.specs.Filling.{Filling};

    ghost Value = { Filling T };

    ghost view = { λ r. record { items = r.items.items; limit = r.limit } };

    ghost invariant = { λ r. (length r.items.items ≤ r.limit) × (r.limit ≤ vec_capacity r.items)
        × (r.limit < 2 ^ 32) };
}

impl<T: Drop> Pile<T> {
    /// The empty list, with room for `limit` items.
    pub fn new(alloc: Global, limit: u32) -> Result<Pile<T>, NoMemory>
        ensures { IfOk result (λ r. r ≡ record { items = []; limit = limit }) }
    {
        let items = Vec::with_capacity(alloc, limit as usize)?;
        Ok(Pile { items, limit })
    }

    /// How many items there are.
    pub fn len(&self) -> u32
        ensures len { result ≡ length self.now.items }
        ensures within { (result ≤ self.now.limit) × (self.now.limit < 2 ^ 32) }
    {
        self.items.len() as u32
    }

    /// How many items it has room for in all.
    pub fn limit(&self) -> u32
        ensures { result ≡ self.now.limit }
    {
        self.limit
    }

    /// Adds an item at the end. It takes no memory.
    pub fn push(&mut self, x: T)
        requires { HasRoom self.old 1 }
        ensures { self.new ≡ record { items = self.old.items ++ x ∷ []; limit = self.old.limit } }
    {
        self.items.push_reserved(x);
    }

    /// Takes the last item.
    pub fn pop(&mut self) -> T
        requires { 0 < length self.old.items }
        ensures { self.old ≡ record { items = self.new.items ++ result ∷ []; limit = self.new.limit } }
    {
        match self.items.pop() {
            Some(x) => x,
            None => unreachable!(),
        }
    }

    /// Leaves the first `n` items.
    pub fn cut(&mut self, n: u32)
        ensures { self.new ≡ record { items = take n self.old.items; limit = self.old.limit } }
    {
        self.items.truncate(n as usize);
    }

    /// All items, in order.
    pub fn as_slice(&self) -> &[T]
        ensures { result.now ≡ self.now.items }
    {
        self.items.as_slice()
    }

    /// Replaces the item at a position.
    pub fn set(&mut self, i: u32, x: T)
        requires { i < length self.old.items }
        ensures { self.new ≡ record { items = set self.old.items i x; limit = self.old.limit } }
    {
        self.items[i as usize] = x;
    }
}

impl<T: Copy + Drop> Pile<T> {
    /// A copy of the item at a position.
    pub fn get(&self, i: u32) -> T
        requires { i < length self.now.items }
        ensures { slice_get self.now.items i ≡ Some result }
    {
        self.items[i as usize]
    }

    /// Adds an item so many times.
    pub fn fill(&mut self, n: u32, x: T)
        requires { HasRoom self.old n }
        ensures { self.new ≡ record { items = self.old.items ++ replicate n x; limit = self.old.limit } }
    {
        for k in 0..n {
            let _ = k;
            self.push(x);
        }
    }

    /// Adds items at the end, in order.
    pub fn extend(&mut self, more: &[T])
        requires { HasRoom self.old (length more.now) }
        ensures { self.new ≡ record { items = self.old.items ++ more.now; limit = self.old.limit } }
    {
        if self.items.extend_from_slice(more).is_err() {
            unreachable!();
        }
    }

    /// Takes `count` items out, from position `from` on.
    pub fn take_out(&mut self, from: u32, count: u32)
        requires { from + count ≤ length self.old.items }
        ensures { self.new
            ≡ record {
              items = take from self.old.items ++ drop (from + count) self.old.items;
              limit = self.old.limit;
            } }
    {
        let left = self.items.len() - count as usize;
        self.items.as_mut_slice()[from as usize..].rotate_left(count as usize);
        self.items.truncate(left);
    }
}
