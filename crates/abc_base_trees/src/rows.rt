ghost use Rattle.std.specs.Prelude.{◌≡◌, ◌-◌, ◌<◌, ◌≤◌, ◌++◌, ◌∷◌, [], drop, get_or, length, take, OnErr, OnOk};
ghost use Rattle.abc_base_trees.specs.Rows.{begin_of};

use abc_base::NoMemory;
use std::alloc::Global;
use std::marker::Model;

/// Lists of values, which contracts see as the list of these lists. They share their memory.
#[derive(Debug, Drop)]
pub struct Rows<T> {
    /// The values of all lists in a row.
    items: Vec<T>,
    /// Where each list ends among them.
    ends: Vec<usize>,
}

impl<T> Model for Rows<T> {
    ghost use Rattle.std.specs.Prelude.{List, length};

    ghost Value = { List (List T) };

    ghost use Rattle.abc_base_trees.specs.Rows.{AreRowEnds, rows_from};

    ghost view = { λ r. rows_from 0 r.ends.items r.items.items };

    ghost invariant = { λ r. AreRowEnds 0 r.ends.items (length r.items.items) };
}

/// Where a list begins.
#[tactic(auto, using(crate::proofs::InRows::begins_first, crate::proofs::InRows::begins_later))]
#[inline]
fn begin(ends: &[usize], i: usize) -> usize
    requires { i < length ends.now }
    ensures { result ≡ begin_of i 0 ends.now }
{
    if i == 0 {
        return 0;
    }
    ends[i - 1]
}

/// Where a list ends.
#[inline]
fn end(ends: &[usize], i: usize) -> usize
    requires { i < length ends.now }
    ensures { result ≡ get_or ends.now i 0 }
{
    ends[i]
}

/// The values between two places.
#[inline]
fn part<T: Drop>(items: &[T], begin: usize, end: usize) -> &[T]
    requires order { begin ≤ end }
    requires within { end ≤ length items.now }
    ensures { result.now ≡ take (end - begin) (drop begin items.now) }
{
    &items[begin..end]
}

impl<T: Copy + Drop> Rows<T> {
    /// No lists. It takes no memory.
    pub fn new(alloc: Global) -> Rows<T>
        ensures { result ≡ [] }
    {
        Rows {
            items: Vec::new(alloc),
            ends: Vec::new(alloc),
        }
    }

    /// Adds a list at the end. Where memory runs out the lists stay as they were.
    pub fn push(&mut self, row: &[T]) -> Result<(), NoMemory>
        ensures ok { OnOk result (self.new ≡ self.old ++ row.now ∷ []) }
        ensures err { OnErr result (self.new ≡ self.old) }
    {
        self.ends.reserve(1)?;
        self.items.extend_from_slice(row)?;
        let end = self.items.as_slice().len();
        self.ends.push_reserved(end);
        Ok(())
    }

    /// How many lists there are.
    #[inline]
    pub fn len(&self) -> usize
        ensures { result ≡ length self.now }
    {
        self.ends.len()
    }

    /// The list at a position, which counts from 0.
    #[inline]
    pub fn get(&self, i: usize) -> &[T]
        requires { i < length self.now }
        ensures { result.now ≡ get_or self.now i [] }
    {
        let begin = begin(&self.ends, i);
        let end = end(&self.ends, i);
        part(&self.items, begin, end)
    }
}
