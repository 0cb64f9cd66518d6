ghost use Rattle.std.specs.Prelude.{◌≡◌, ◌<◌, ◌≤◌, ◌+◌, ◌++◌, ◌∷◌, [], ℕ, length, Some, slice_get};
ghost use Rattle.abc_heap_values.specs.Links.{link_of, links, AreLinked, IsChain, IsLinked, IsCellAt, IsCellReached, IsCellBelow, IsUnder, IsCellAdded, held_at, Link};
ghost use Rattle.abc_heap_values.specs.Lanes.{lane_of};
ghost use Rattle.abc_heap_values.specs.declared.cell.Cell.{Cell};
ghost use Rattle.abc_heap_values.specs.Filling.{HasRoom};

use crate::cell::{Cell, Held};
use crate::reserved::Reserved;

/// One of an object's lists of cells: the place of the last cell, and how many there are.
#[derive(Clone, Copy, Debug, PartialEq, Eq)]
pub struct Chain {
    pub last: u32,
    pub count: u32,
}

/// The cell at a place.
pub fn cell_at(cells: &Reserved<Cell>, place: u32) -> Cell
    requires { place < length cells.now.items }
    ensures { slice_get cells.now.items place ≡ Some result }
{
    cells.get(place)
}

/// The place of a cell of the same list, at the wanted position or above it, but nearer.
fn nearer(cells: &Reserved<Cell>, place: u32, position: u32) -> u32
    requires linked { AreLinked (links cells.now.items) }
    requires inside { place < length cells.now.items }
    requires above { (c : Cell) → slice_get cells.now.items place ≡ Some c → position < c.position }
    ensures reached { IsCellReached (links cells.now.items) place result position }
    ensures falls { result < place }
{
    let here = cell_at(cells, place);
    let jump = cell_at(cells, here.jump);
    if position <= jump.position {
        here.jump
    } else {
        here.before
    }
}

/// The place of the cell at a position, in the list that the cell at `from` belongs to.
pub fn place_of(cells: &Reserved<Cell>, from: u32, position: u32) -> u32
    requires linked { AreLinked (links cells.now.items) }
    requires above { IsCellReached (links cells.now.items) from from position }
    ensures { (c : Cell) → slice_get cells.now.items from ≡ Some c
        → IsCellAt (links cells.now.items) result c.owner (lane_of c.held) position }
{
    let mut place = from;
    while cell_at(cells, place).position != position {
        place = nearer(cells, place, position);
    }
    place
}

/// The place that a place jumps to. The first of a list jumps to itself.
fn under(cells: &Reserved<Cell>, place: u32) -> u32
    requires linked { AreLinked (links cells.now.items) }
    requires inside { place < length cells.now.items }
    ensures { IsUnder (links cells.now.items) place result }
{
    let here = cell_at(cells, place);
    if here.position == 0 { place } else { here.jump }
}

/// Where a cell on top of `last` jumps to: past two jumps where these are equally long, and else to `last`. So the
/// jumps of a list are those of the skew binary numbers, and a walk has some 2 log n steps.
fn jump_above(cells: &Reserved<Cell>, last: u32) -> u32
    requires linked { AreLinked (links cells.now.items) }
    requires inside { last < length cells.now.items }
    ensures { IsUnder (links cells.now.items) last result }
{
    let middle = under(cells, last);
    let bottom = under(cells, middle);
    let top_position = cell_at(cells, last).position;
    let middle_position = cell_at(cells, middle).position;
    let bottom_position = cell_at(cells, bottom).position;
    if top_position - middle_position == middle_position - bottom_position {
        bottom
    } else {
        last
    }
}

/// A cell that continues a list, with its links.
fn next_cell(cells: &Reserved<Cell>, chain: Chain, owner: u32, held: Held) -> Cell
    requires linked { AreLinked (links cells.now.items) }
    requires chain { IsChain (links cells.now.items) owner (lane_of held) chain }
    ensures owner { result.owner ≡ owner }
    ensures held { result.held ≡ held }
    ensures position { result.position ≡ chain.count }
    ensures linked { IsLinked (links cells.now.items) (link_of result) }
{
    let jump = if chain.count == 0 {
        0
    } else {
        jump_above(cells, chain.last)
    };
    Cell {
        owner,
        position: chain.count,
        before: chain.last,
        jump,
        held,
    }
}

/// Adds a cell to a list, as its last.
pub fn append(cells: &mut Reserved<Cell>, chain: Chain, owner: u32, held: Held) -> Chain
    requires room { HasRoom cells.old 1 }
    requires linked { AreLinked (links cells.old.items) }
    requires chain { IsChain (links cells.old.items) owner (lane_of held) chain }
    ensures limit { cells.new.limit ≡ cells.old.limit }
    ensures added { IsCellAdded cells.old.items cells.new.items owner held }
    ensures linked { AreLinked (links cells.new.items) }
    ensures chain { IsChain (links cells.new.items) owner (lane_of held) result }
    ensures place { (result.last ≡ length cells.old.items) × (result.count ≡ chain.count + 1) }
{
    let place = cells.len();
    let count = chain.count + 1;
    let cell = next_cell(cells, chain, owner, held);
    cells.push(cell);
    Chain { last: place, count }
}

/// Replaces what a cell holds.
pub fn hold(cells: &mut Reserved<Cell>, place: u32, held: Held)
    requires { place < length cells.old.items }
    ensures { cells.new ≡ record { items = held_at cells.old.items place held; limit = cells.old.limit } }
{
    let old = cell_at(cells, place);
    cells.set(
        place,
        Cell {
            owner: old.owner,
            position: old.position,
            before: old.before,
            jump: old.jump,
            held,
        },
    );
}
