ghost use Rattle.std.specs.Prelude.{◌≡◌, ◌∷◌, [], drop, length, get_or, IfOk, OnOk, OnErr, MatchOption};

use abc_base::NoMemory;
use std::alloc::Global;
use std::marker::Model;

/// A stack of values, which contracts see as a list with the top first.
#[derive(Debug, Drop)]
pub struct Stack<T> {
    items: Vec<T>,
}

impl<T> Model for Stack<T> {
    ghost use Rattle.std.specs.Prelude.{List, reverse};

    ghost Value = { List T };

    ghost view = { λ t. reverse t.items.items };
}

impl<T: Drop> Stack<T> {
    /// The empty stack. It takes no memory.
    pub fn new(alloc: Global) -> Stack<T>
        ensures { result ≡ [] }
    {
        Stack {
            items: Vec::new(alloc),
        }
    }

    /// Puts a value on top. Where memory runs out the stack stays as it was, and the value is dropped.
    pub fn push(&mut self, x: T) -> Result<(), NoMemory>
        ensures ok { OnOk result (self.new ≡ x ∷ self.old) }
        ensures err { OnErr result (self.new ≡ self.old) }
    {
        self.items.push(x)?;
        Ok(())
    }

    /// Takes the top, or `None` where there is none.
    pub fn pop(&mut self) -> Option<T>
        ensures { MatchOption result ((self.old ≡ []) × (self.new ≡ [])) (λ x. self.old ≡ x ∷ self.new) }
    {
        self.items.pop()
    }

    /// Takes all values away.
    pub fn clear(&mut self)
        ensures { self.new ≡ [] }
    {
        self.items.clear();
    }

    /// How many values there are.
    pub fn len(&self) -> usize
        ensures { result ≡ length self.now }
    {
        self.items.len()
    }

    /// Takes so many values from the top, or all where there are fewer.
    pub fn drop_top(&mut self, count: usize)
        ensures { self.new ≡ drop count self.old }
    {
        let mut left = count;
        while left > 0 {
            if self.pop().is_none() {
                return;
            }
            left -= 1;
        }
    }
}

impl<T: Copy + Drop> Stack<T> {
    /// A copy of the stack.
    pub fn copy(&self, alloc: Global) -> Result<Stack<T>, NoMemory>
        ensures { IfOk result (λ s. s ≡ self.now) }
    {
        let items = Vec::from_slice(alloc, self.items.as_slice())?;
        Ok(Stack { items })
    }

    /// Takes the values of another stack in place of its own, whose memory is used again.
    pub fn copy_from(&mut self, other: &Stack<T>) -> Result<(), NoMemory>
        ensures { OnOk result (self.new ≡ other.now) }
    {
        self.items.clear();
        self.items.extend_from_slice(other.items.as_slice())?;
        Ok(())
    }

    /// The value so far below the top, or another where there is none.
    #[tactic(auto, using(crate::proofs::Deep::deep, crate::proofs::Deep::past))]
    pub fn get_or(&self, depth: usize, other: T) -> T
        ensures { result ≡ get_or self.now depth other }
    {
        let len = self.items.len();
        if depth < len {
            self.items[len - 1 - depth]
        } else {
            other
        }
    }
}
