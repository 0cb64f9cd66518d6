ghost use Rattle.std.specs.Prelude.{◌≡◌, ◌<◌, ◌++◌, ◌∷◌, [], length, nat_eq, IfOk, IfSome, OnOk, OnErr};
ghost use Rattle.abc_base_graphs.specs.Index.{first};
ghost use Rattle.abc_base_graphs.specs.Heirs.{list_of_base, list_at};
ghost use Rattle.abc_base_graphs.specs.Listed.{both_lists};

use crate::keyed::Keyed;
use abc_base::{NoMemory, Table};
use std::alloc::Global;
use std::marker::Model;

/// The most values that all lists have that are kept. Where there would be more, memory is said to have run out: a chain of lists,
/// each with a value more than that before it, has values by the square of its length.
pub const MOST_INHERITED: usize = 1 << 23;

/// Lists by their numbers, from 0 on, each with what it inherits.
#[derive(Drop)]
pub struct Heirs<T> {
    /// For each number the place of its list. Where a base has all that an heir has, they share it.
    holders: Table<usize>,
    lists: Table<Keyed<T>>,
    /// How many values more may be kept.
    room: usize,
}

impl<T> Model for Heirs<T> {
    ghost use Rattle.std.specs.Prelude.{List, map, length, All, ◌<◌};
    ghost use Rattle.abc_base_graphs.specs.Listed.{Listed};
    ghost use Rattle.abc_base_graphs.specs.Heirs.{list_at};

    ghost Value = { List (Listed T) };

    ghost view = { λ h. map (λ i. list_at h.lists i) h.holders };

    ghost invariant = { λ h. All (λ i. i < length h.lists) h.holders };
}

impl<T: Copy + Drop> Heirs<T> {
    /// No lists. It takes no memory.
    pub fn new(alloc: Global) -> Heirs<T>
        ensures { result ≡ [] }
    {
        Heirs {
            holders: Table::new(alloc),
            lists: Table::new(alloc),
            room: MOST_INHERITED,
        }
    }

    /// How many lists there are.
    pub fn len(&self) -> usize
        ensures { result ≡ length self.now }
    {
        self.holders.len()
    }

    fn list(&self, number: u32) -> &Keyed<T>
        requires { number < length self.now }
        ensures { result.now ≡ list_at self.now number }
    {
        self.lists.get(*self.holders.get(number as usize))
    }

    /// The values of a list, in order.
    pub fn values(&self, number: u32) -> &Table<T>
        requires { number < length self.now }
        ensures { result.now ≡ (list_at self.now number).values }
    {
        self.list(number).values()
    }

    /// The first place of a list whose key is the given one.
    pub fn place(&self, number: u32, key: u32) -> Option<u32>
        requires { number < length self.now }
        ensures { result ≡ first (nat_eq key) (list_at self.now number).keys }
    {
        self.list(number).place(key)
    }
}

impl<T: Copy + Drop> Heirs<T> {
    /// Adds a list that is equal to one that stands.
    fn share(&mut self, number: u32) -> Result<(), NoMemory>
        requires { number < length self.old }
        ensures ok { OnOk result (self.new ≡ self.old ++ list_at self.old number ∷ []) }
        ensures err { OnErr result (self.new ≡ self.old) }
    {
        let holder = *self.holders.get(number as usize);
        self.holders.push(holder)
    }

    /// Adds a list.
    fn keep(&mut self, list: Keyed<T>) -> Result<(), NoMemory>
        ensures ok { OnOk result (self.new ≡ self.old ++ list ∷ []) }
        ensures err { OnErr result (self.new ≡ self.old) }
    {
        let holder = self.lists.len();
        self.lists.push(list)?;
        self.holders.push(holder)?;
        Ok(())
    }

    /// How many values a base hands on.
    fn handed_on(&self, base: Option<u32>) -> usize
        requires { IfSome base (λ b. b < length self.now) }
    {
        match base {
            Some(base) => self.values(base).len(),
            None => 0,
        }
    }

    /// What the lists under a base inherit, and then other values under their keys.
    fn joined(
        &self,
        alloc: Global,
        base: Option<u32>,
        own: &[T],
        keys: &[u32],
    ) -> Result<Keyed<T>, NoMemory>
        requires { IfSome base (λ b. b < length self.now) }
        ensures { IfOk result (λ k. k
            ≡ both_lists (list_of_base self.now base) (record { values = own.now; keys = keys.now })) }
    {
        match base {
            Some(base) => self.list(base).joined(alloc, own, keys),
            None => {
                let empty = Keyed::empty(alloc)?;
                empty.joined(alloc, own, keys)
            }
        }
    }

    /// Adds a list under a base, with its own values and their keys. Where memory runs out the lists stay as they were.
    pub fn add(
        &mut self,
        alloc: Global,
        base: Option<u32>,
        own: &[T],
        keys: &[u32],
    ) -> Result<(), NoMemory>
        requires base { IfSome base (λ b. b < length self.old) }
        requires paired { length own.now ≡ length keys.now }
        ensures ok { OnOk result (self.new
            ≡ self.old
            ++ both_lists (list_of_base self.old base) (record { values = own.now; keys = keys.now })
            ∷ []) }
        ensures err { OnErr result (self.new ≡ self.old) }
    {
        match base {
            Some(base) if own.is_empty() => self.share(base),
            _ => {
                let room = self.room.checked_sub(own.len()).ok_or(NoMemory)?;
                let room = room.checked_sub(self.handed_on(base)).ok_or(NoMemory)?;
                let list = self.joined(alloc, base, own, keys)?;
                self.room = room;
                self.keep(list)
            }
        }
    }
}
