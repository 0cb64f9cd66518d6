ghost use Rattle.std.specs.Prelude.{◌≡◌, ◌<◌, ◌≤◌, ◌+◌, ◌^◌, ℕ, length, Some, None, slice_get, true, [], ◌∷◌, ◌++◌};
ghost use Rattle.abc_heap_values.specs.Lanes.{value_of_held, property_in, lane_of};
ghost use Rattle.abc_heap_values.specs.Links.{links, held_at, IsCellAt, IsCellAdded};
ghost use Rattle.abc_heap_values.specs.declared.cell.Held.TheVariants.{Element, Property};
ghost use Rattle.abc_heap_values.specs.declared.cell.Lane.TheVariants.{Slots, Properties, Elements};
ghost use Rattle.abc_heap_values.specs.Filling.{HasRoom};
ghost use Rattle.abc_heap_store.specs.Buckets.{KeepsIndex};
ghost use Rattle.abc_heap_store.specs.What.{what_in, elements_in, is_array};
ghost use Rattle.abc_heap_store.specs.Heap.{object_at, slots_of_object, properties_of, elements_of};
ghost use Rattle.abc_heap_store.specs.Properties.{at_position, the_value, the_name, with_value};
ghost use Rattle.abc_heap_store.specs.Changes.{change, with_new_property, with_new_element, with_more_slots, bare_object};
ghost use Rattle.abc_heap_store.specs.View.{objects, AreObjectHeads};
ghost use Rattle.abc_heap_store.specs.Spots.{IsGrown, IsFilling, IsRevalued};

use crate::starts::Starts;
use crate::stored::{StoredWhat, elements_kept};
use abc_heap_values::{
    Cell, Chain, Held, ObjId, Reserved, Span, Value, append, cell_at, hold, place_of,
};

/// An object, but for what its cells hold. Its slots lie one after the other from `slots` on.
#[derive(Clone, Copy, Debug)]
pub struct Head {
    pub layout: u32,
    pub delegate: Option<ObjId>,
    pub slots: u32,
    pub properties: Chain,
    pub what: StoredWhat,
}

/// The head of an object.
pub fn head_at(heads: &Reserved<Head>, o: u32) -> Head
    requires { o < length heads.now.items }
    ensures { slice_get heads.now.items o ≡ Some result }
{
    heads.get(o)
}

/// The value that a cell holds.
#[inline(always)]
pub fn value_of(held: Held) -> Value
    ensures { result ≡ value_of_held held }
{
    match held {
        Held::Slot(v) => v,
        Held::Property(_name, v) => v,
        Held::Deleted(_count) => Value::Undefined,
        Held::Element(v) => v,
    }
}

/// The place of a slot.
pub fn slot_place(heads: &Reserved<Head>, cells: &Reserved<Cell>, o: u32, k: u32) -> u32
    requires heads { AreObjectHeads (links cells.now.items) heads.now.items }
    requires small { length cells.now.items < 2 ^ 32 }
    requires slot { k < length (slots_of_object (objects cells.now.items 0 heads.now.items) o) }
    ensures { IsCellAt (links cells.now.items) result o Slots k }
{
    head_at(heads, o).slots + k
}

/// Whether a place has the cell of an element.
#[inline(always)]
fn is_element(cells: &Reserved<Cell>, place: u32, o: u32, k: u32) -> bool
    requires { place < length cells.now.items }
    ensures { result ≡ true → IsCellAt (links cells.now.items) place o Elements k }
{
    let here = cell_at(cells, place);
    if here.owner != o {
        return false;
    }
    if here.position != k {
        return false;
    }
    match here.held {
        Held::Element(_) => true,
        _ => false,
    }
}

/// The place that an element has if all elements above it lie behind it, one after the other. (Else it is any below the last.)
#[inline(always)]
fn near_place(elements: Chain, k: u32) -> u32
    ensures { result ≤ elements.last }
{
    elements
        .last
        .saturating_sub(elements.count.saturating_sub(k).saturating_sub(1))
}

/// The place of an element. (Most often an array's elements lie one after the other, and no list is walked.)
#[inline(always)]
pub fn element_place(heads: &Reserved<Head>, cells: &Reserved<Cell>, o: u32, k: u32) -> u32
    requires heads { AreObjectHeads (links cells.now.items) heads.now.items }
    requires element { k < length (elements_of (objects cells.now.items 0 heads.now.items) o) }
    ensures { IsCellAt (links cells.now.items) result o Elements k }
{
    let elements = elements_kept(head_at(heads, o).what);
    let near = near_place(elements, k);
    if is_element(cells, near, o, k) {
        near
    } else {
        place_of(cells, elements.last, k)
    }
}

/// The place of a property, by its place in the list.
pub fn property_place(heads: &Reserved<Head>, cells: &Reserved<Cell>, o: u32, k: u32) -> u32
    requires heads { AreObjectHeads (links cells.now.items) heads.now.items }
    requires property { k < length (properties_of (objects cells.now.items 0 heads.now.items) o) }
    ensures { IsCellAt (links cells.now.items) result o Properties k }
{
    place_of(cells, head_at(heads, o).properties.last, k)
}

/// The value of a property, where the cell holds one.
pub fn property_value(held: Held) -> Option<Value>
    ensures { result ≡ the_value (property_in held) }
{
    match held {
        Held::Property(_name, v) => Some(v),
        _ => None,
    }
}

/// The name of a property, where the cell holds one.
pub fn property_name(held: Held) -> Option<Span>
    ensures { result ≡ the_name (property_in held) }
{
    match held {
        Held::Property(name, _v) => Some(name),
        _ => None,
    }
}

/// The property with another value.
pub fn revalued(held: Held, v: Value) -> Held
    ensures value { property_in result ≡ with_value v (property_in held) }
    ensures lane { lane_of result ≡ Properties }
{
    match held {
        Held::Property(name, _old) => Held::Property(name, v),
        _ => Held::Deleted(1),
    }
}

/// Replaces the value of a property that a cell held. (Most often a number comes, of which no more is copied.)
#[inline(always)]
pub fn hold_value(cells: &mut Reserved<Cell>, place: u32, held: Held, v: Value)
    requires { place < length cells.old.items }
    ensures { IsRevalued cells.old cells.new place held v }
{
    match v {
        Value::Num(n) => hold(cells, place, revalued(held, Value::Num(n))),
        _ => hold(cells, place, revalued(held, v)),
    }
}

/// Replaces an element. (Most often a number comes, of which no more is copied.)
#[inline(always)]
pub fn hold_element(cells: &mut Reserved<Cell>, place: u32, v: Value)
    requires { place < length cells.old.items }
    ensures { cells.new
        ≡ record { items = held_at cells.old.items place (Element v); limit = cells.old.limit } }
{
    match v {
        Value::Num(n) => hold(cells, place, Held::Element(Value::Num(n))),
        _ => hold(cells, place, Held::Element(v)),
    }
}

/// Adds a property to an object, as its last.
pub fn add_property(
    heads: &mut Reserved<Head>,
    cells: &mut Reserved<Cell>,
    o: u32,
    name: Span,
    v: Value,
)
    requires heads { AreObjectHeads (links cells.old.items) heads.old.items }
    requires inside { o < length heads.old.items }
    requires room { HasRoom cells.old 1 }
    ensures objects { objects cells.new.items 0 heads.new.items
        ≡ change (with_new_property name v) o (objects cells.old.items 0 heads.old.items) }
    ensures heads { AreObjectHeads (links cells.new.items) heads.new.items }
    ensures added { IsCellAdded cells.old.items cells.new.items o (Property name v) }
    ensures sizes { IsGrown heads.old heads.new cells.old cells.new }
{
    let head = head_at(heads, o);
    let properties = append(cells, head.properties, o, Held::Property(name, v));
    heads.set(o, Head { properties, ..head });
}

/// Adds an element to an array, as its last.
pub fn add_element(heads: &mut Reserved<Head>, cells: &mut Reserved<Cell>, o: u32, v: Value)
    requires heads { AreObjectHeads (links cells.old.items) heads.old.items }
    requires inside { o < length heads.old.items }
    requires array { is_array (object_at (objects cells.old.items 0 heads.old.items) o).what ≡ true }
    requires room { HasRoom cells.old 1 }
    ensures objects { objects cells.new.items 0 heads.new.items
        ≡ change (with_new_element v) o (objects cells.old.items 0 heads.old.items) }
    ensures heads { AreObjectHeads (links cells.new.items) heads.new.items }
    ensures index { KeepsIndex cells.old cells.new }
    ensures sizes { IsGrown heads.old heads.new cells.old cells.new }
{
    let head = head_at(heads, o);
    let before = elements_kept(head.what);
    let elements = append(cells, before, o, Held::Element(v));
    let what = StoredWhat::Array(elements);
    heads.set(o, Head { what, ..head });
}

/// What stands at a position, which counts from 1.
pub fn held_at_position(
    heads: &Reserved<Head>,
    cells: &Reserved<Cell>,
    o: u32,
    position: u32,
) -> Held
    requires heads { AreObjectHeads (links cells.now.items) heads.now.items }
    requires inside { o < length heads.now.items }
    ensures { property_in result
        ≡ at_position (properties_of (objects cells.now.items 0 heads.now.items) o) position }
{
    if position == 0 {
        return Held::Deleted(1);
    }
    if head_at(heads, o).properties.count < position {
        return Held::Deleted(1);
    }
    let place = property_place(heads, cells, o, position - 1);
    cell_at(cells, place).held
}

/// How many elements an object has.
pub fn element_count(heads: &Reserved<Head>, cells: &Reserved<Cell>, o: u32) -> u32
    requires heads { AreObjectHeads (links cells.now.items) heads.now.items }
    requires inside { o < length heads.now.items }
    ensures { result ≡ length (elements_of (objects cells.now.items 0 heads.now.items) o) }
{
    let _ = cells;
    elements_kept(head_at(heads, o).what).count
}

/// Adds an object with no cells, and gives its number.
pub fn add_object(
    heads: &mut Reserved<Head>,
    cells: &Reserved<Cell>,
    layout: u32,
    delegate: Option<ObjId>,
    what: StoredWhat,
) -> u32
    requires heads { AreObjectHeads (links cells.now.items) heads.old.items }
    requires room { HasRoom heads.old 1 }
    requires what { elements_in what ≡ record { last = 0; count = 0 } }
    ensures number { result ≡ length heads.old.items }
    ensures objects { objects cells.now.items 0 heads.new.items
        ≡ objects cells.now.items 0 heads.old.items ++ bare_object layout delegate (what_in what) ∷ [] }
    ensures heads { AreObjectHeads (links cells.now.items) heads.new.items }
    ensures next { IsFilling cells.now.items heads.new.items result (record { last = 0; count = 0 }) }
    ensures sizes { (length heads.new.items ≡ length heads.old.items + 1)
        × (heads.new.limit ≡ heads.old.limit) }
{
    let none = Chain { last: 0, count: 0 };
    let o = heads.len();
    heads.push(Head {
        layout,
        delegate,
        slots: cells.len(),
        properties: none,
        what,
    });
    o
}

/// Adds a slot to the object whose slots are the last cells.
fn add_slot(
    heads: &Reserved<Head>,
    cells: &mut Reserved<Cell>,
    chain: Chain,
    o: u32,
    v: Value,
) -> Chain
    requires heads { AreObjectHeads (links cells.old.items) heads.now.items }
    requires inside { o < length heads.now.items }
    requires room { HasRoom cells.old 1 }
    requires next { IsFilling cells.old.items heads.now.items o chain }
    ensures objects { objects cells.new.items 0 heads.now.items
        ≡ change (with_more_slots (v ∷ [])) o (objects cells.old.items 0 heads.now.items) }
    ensures heads { AreObjectHeads (links cells.new.items) heads.now.items }
    ensures next { IsFilling cells.new.items heads.now.items o result }
    ensures index { KeepsIndex cells.old cells.new }
    ensures sizes { (length cells.new.items ≡ length cells.old.items + 1)
        × (cells.new.limit ≡ cells.old.limit) }
{
    append(cells, chain, o, Held::Slot(v))
}

/// Gives a bare object its slots.
pub fn fill_slots<S: Starts>(heads: &Reserved<Head>, cells: &mut Reserved<Cell>, o: u32, starts: &S)
    requires heads { AreObjectHeads (links cells.old.items) heads.now.items }
    requires inside { o < length heads.now.items }
    requires room { HasRoom cells.old (length (S.values starts.now)) }
    requires next { IsFilling cells.old.items heads.now.items o (record { last = 0; count = 0 }) }
    ensures objects { objects cells.new.items 0 heads.now.items
        ≡ change (with_more_slots (S.values starts.now)) o (objects cells.old.items 0 heads.now.items) }
    ensures heads { AreObjectHeads (links cells.new.items) heads.now.items }
    ensures index { KeepsIndex cells.old cells.new }
    ensures sizes { (length cells.new.items ≡ length cells.old.items + length (S.values starts.now))
        × (cells.new.limit ≡ cells.old.limit) }
{
    let mut chain = Chain { last: 0, count: 0 };
    let count = starts.count();
    for k in 0..count {
        chain = add_slot(heads, cells, chain, o, starts.start(k));
    }
}

/// How many positions an object has.
pub fn property_count(heads: &Reserved<Head>, cells: &Reserved<Cell>, o: u32) -> u32
    requires heads { AreObjectHeads (links cells.now.items) heads.now.items }
    requires inside { o < length heads.now.items }
    ensures { result ≡ length (properties_of (objects cells.now.items 0 heads.now.items) o) }
{
    let _ = cells;
    head_at(heads, o).properties.count
}
