ghost use Rattle.std.specs.Prelude.{◌≡◌, ◌<◌, ◌++◌, ◌∷◌, [], List, ℕ, length, get_or, OnOk, OnErr, slice_get, MatchOption, None, Some, IfOk};
ghost use Rattle.std.specs.Prelude.{◌-◌, replicate, set, take, vec_capacity, vec_len};

use crate::memory::NoMemory;
use std::alloc::Global;
use std::marker::Model;
use std::mem;

/// So many values are moved with their memory.
const MANY: usize = 1 << 12;

/// A list of values, which contracts see as that list.
#[derive(Debug, Drop)]
pub struct Table<T> {
    items: Vec<T>,
}

impl<T> Model for Table<T> {
    ghost use Rattle.std.specs.Prelude.{List};

    ghost Value = { List T };

    ghost view = { λ t. t.items.items };
}

/// Makes room for one more value. Most often there is some, and nothing is called.
#[inline(always)]
fn make_room<T: Drop>(items: &mut Vec<T>) -> Result<(), NoMemory>
    ensures items { items.new.items ≡ items.old.items }
    ensures room { OnOk result (vec_len items.new < vec_capacity items.new) }
{
    if items.len() < items.capacity() {
        return Ok(());
    }
    items.reserve(1)?;
    Ok(())
}

impl<T: Drop> Table<T> {
    /// The empty list. It takes no memory.
    pub fn new(alloc: Global) -> Table<T>
        ensures { result ≡ [] }
    {
        Table {
            items: Vec::new(alloc),
        }
    }

    /// The empty list, with room for so many values.
    pub fn with_capacity(alloc: Global, count: usize) -> Result<Table<T>, NoMemory>
        ensures { IfOk result (λ t. t ≡ []) }
    {
        let items = Vec::with_capacity(alloc, count)?;
        Ok(Table { items })
    }

    /// Adds a value at the end. Where memory runs out the list stays as it was, and the value is dropped.
    #[inline(always)]
    pub fn push(&mut self, x: T) -> Result<(), NoMemory>
        ensures ok { OnOk result (self.new ≡ self.old ++ x ∷ []) }
        ensures err { OnErr result (self.new ≡ self.old) }
    {
        make_room(&mut self.items)?;
        self.items.push_reserved(x);
        Ok(())
    }

    /// Moves all values to a list of their own, and leaves none. The list has memory for no more than they need, and this
    /// one keeps its memory for others; where there are many, the memory goes with them. Where memory runs out, the
    /// values stay.
    pub fn move_out(&mut self, alloc: Global) -> Result<Table<T>, NoMemory>
        ensures ok { IfOk result (λ t. (t ≡ self.old) × (self.new ≡ [])) }
        ensures err { OnErr result (self.new ≡ self.old) }
    {
        if self.items.len() >= MANY {
            let items = mem::replace(&mut self.items, Vec::new(alloc));
            return Ok(Table { items });
        }
        let mut items = Vec::with_capacity(alloc, self.items.len())?;
        items.append(&mut self.items)?;
        Ok(Table { items })
    }

    /// How many values there are.
    pub fn len(&self) -> usize
        ensures { result ≡ length self.now }
    {
        self.items.len()
    }

    /// The value at a position, which counts from 0.
    pub fn get(&self, i: usize) -> &T
        requires { i < length self.now }
        ensures { get_or self.now i result.now ≡ result.now }
    {
        &self.items[i]
    }

    /// The value at a position, or `None` where the list ends before it.
    pub fn find(&self, i: usize) -> Option<&T>
        ensures { MatchOption result (slice_get self.now i ≡ None) (λ x. slice_get self.now i ≡ Some x.now) }
    {
        self.items.get(i)
    }

    /// Replaces the value at a position.
    pub fn set(&mut self, i: usize, x: T)
        requires { i < length self.old }
        ensures { self.new ≡ set self.old i x }
    {
        self.items[i] = x;
    }

    /// Replaces the value at a position, and gives the one that stood there.
    pub fn replace(&mut self, i: usize, x: T) -> T
        requires { i < length self.old }
        ensures is { get_or self.old i result ≡ result }
        ensures list { self.new ≡ set self.old i x }
    {
        mem::replace(&mut self.items[i], x)
    }

    /// Keeps so many values from the start, or all where there are no more.
    pub fn truncate(&mut self, count: usize)
        ensures { self.new ≡ take count self.old }
    {
        self.items.truncate(count);
    }

    /// All values, in order.
    pub fn as_slice(&self) -> &[T]
        ensures { result.now ≡ self.now }
    {
        self.items.as_slice()
    }
}

impl<T: Copy + Drop> Table<T> {
    /// A copy of the value at a position, or `None` where the list ends before it.
    pub fn fetch(&self, i: usize) -> Option<T>
        ensures { result ≡ slice_get self.now i }
    {
        self.items.get(i).copied()
    }

    /// A copy of some values.
    pub fn from_slice(alloc: Global, items: &[T]) -> Result<Table<T>, NoMemory>
        ensures { IfOk result (λ t. t ≡ items.now) }
    {
        let items = Vec::from_slice(alloc, items)?;
        Ok(Table { items })
    }

    /// Adds values at the end. Where memory runs out the list stays as it was.
    pub fn extend_from_slice(&mut self, items: &[T]) -> Result<(), NoMemory>
        ensures ok { OnOk result (self.new ≡ self.old ++ items.now) }
        ensures err { OnErr result (self.new ≡ self.old) }
    {
        self.items.extend_from_slice(items)?;
        Ok(())
    }

    /// Adds one value so often at the end that there are so many values, or takes those beyond them away. Where memory runs out
    /// the list stays as it was.
    pub fn resize(&mut self, count: usize, value: T) -> Result<(), NoMemory>
        ensures ok { OnOk result
            (self.new ≡ take count self.old ++ replicate (count - length self.old) value) }
        ensures err { OnErr result (self.new ≡ self.old) }
    {
        self.items.resize(count, value)?;
        Ok(())
    }
}

/// A list of bytes, which contracts see as that list.
#[derive(Debug, Drop)]
pub struct Bytes {
    items: Vec<u8>,
}

impl Model for Bytes {
    ghost use Rattle.std.specs.Prelude.{List, ℕ};

    ghost Value = { List ℕ };

    ghost view = { λ t. t.items.items };
}

impl Bytes {
    /// The empty list. It takes no memory.
    pub fn new(alloc: Global) -> Bytes
        ensures { result ≡ [] }
    {
        Bytes {
            items: Vec::new(alloc),
        }
    }

    /// A copy of some bytes.
    pub fn from_slice(alloc: Global, bytes: &[u8]) -> Result<Bytes, NoMemory>
        ensures { IfOk result (λ b. b ≡ bytes.now) }
    {
        let items = Vec::from_slice(alloc, bytes)?;
        Ok(Bytes { items })
    }

    /// Adds a byte at the end. Where memory runs out the list stays as it was.
    pub fn push(&mut self, x: u8) -> Result<(), NoMemory>
        ensures ok { OnOk result (self.new ≡ self.old ++ x ∷ []) }
        ensures err { OnErr result (self.new ≡ self.old) }
    {
        self.items.push(x)?;
        Ok(())
    }

    /// Adds bytes at the end. Where memory runs out the list stays as it was.
    pub fn extend_from_slice(&mut self, bytes: &[u8]) -> Result<(), NoMemory>
        ensures ok { OnOk result (self.new ≡ self.old ++ bytes.now) }
        ensures err { OnErr result (self.new ≡ self.old) }
    {
        self.items.extend_from_slice(bytes)?;
        Ok(())
    }

    /// How many bytes there are.
    pub fn len(&self) -> usize
        ensures { result ≡ length self.now }
    {
        self.items.len()
    }

    /// The byte at a position, which counts from 0.
    pub fn get(&self, i: usize) -> &u8
        requires { i < length self.now }
        ensures { get_or self.now i result.now ≡ result.now }
    {
        &self.items[i]
    }

    /// Replaces the byte at a position.
    pub fn set(&mut self, i: usize, x: u8)
        requires { i < length self.old }
        ensures { self.new ≡ set self.old i x }
    {
        self.items[i] = x;
    }

    /// All bytes, in order.
    pub fn as_slice(&self) -> &[u8]
        ensures { result.now ≡ self.now }
    {
        self.items.as_slice()
    }
}
