use crate::values::{Span, Value};

/// Which of an object's three lists a cell belongs to.
#[derive(Clone, Copy, Debug, PartialEq, Eq)]
pub enum Lane {
    Slots,
    Properties,
    Elements,
}

/// What a cell holds. A deleted property leaves its cell empty, which then knows how many positions of its list are empty
/// from its own on: as many, or more.
#[derive(Clone, Copy, Debug, PartialEq, Eq)]
pub enum Held {
    Slot(Value),
    Property(Span, Value),
    Deleted(u32),
    Element(Value),
}

/// A cell of an object. Above position 0, `before` leads to the cell one position below, in the same list of the same
/// object, and `jump` to one at some position below.
#[derive(Clone, Copy, Debug, PartialEq, Eq)]
pub struct Cell {
    pub owner: u32,
    pub position: u32,
    pub before: u32,
    pub jump: u32,
    pub held: Held,
}
