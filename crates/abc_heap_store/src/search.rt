ghost use Rattle.std.specs.Prelude.{◌≡◌, ◌<◌, ◌≤◌, ◌^◌, ◌&&◌, ℕ, List, length, Some, None, slice_get, nat_eq, true, MatchOption};
ghost use Rattle.std.specs.Str.{bytes_eq};
ghost use Rattle.abc_heap_values.specs.Lanes.{property_in};
ghost use Rattle.abc_heap_values.specs.Links.{links};
ghost use Rattle.abc_heap_values.specs.declared.values.Span.{Span};
ghost use Rattle.abc_heap_values.specs.declared.values.Value.{Value};
ghost use Rattle.abc_heap_store.specs.Buckets.{IsIndexed, bucket as the_bucket};
ghost use Rattle.abc_heap_store.specs.Heap.{properties_of};
ghost use Rattle.abc_heap_store.specs.Texts.{text_in, IsTextIn};
ghost use Rattle.abc_heap_store.specs.Properties.{place_named, is_property_named};
ghost use Rattle.abc_heap_store.specs.View.{objects, AreObjectHeads};
ghost use Rattle.abc_heap_store.specs.Spots.{IsSpot};

use crate::buckets::Buckets;
use crate::heads::{Head, head_at, property_count, property_name};
use crate::strings::Strings;
use crate::texts::bytes_in;
use abc_base::Bytes;
use abc_heap_values::{Cell, Held, Reserved, Span, cell_at};

/// A cell's place, and its position in its list.
#[derive(Clone, Copy, Debug)]
pub struct Spot {
    pub place: u32,
    pub position: u32,
}

/// Whether two texts stand at one place.
#[inline(always)]
fn is_same(a: Span, b: Span) -> bool
    ensures { result ≡ true → a ≡ b }
{
    a.part == b.part && a.start == b.start && a.len == b.len
}

/// Whether a property's name has the text of a name, as most often the same name does.
#[tactic(auto, using(crate::proofs::Searches::same_text))]
#[inline(always)]
fn has_text(
    fixed: &[u8],
    made: &[u8],
    strings: &Strings,
    held: Span,
    name: Span,
    text: &[u8],
) -> bool
    requires held { IsTextIn fixed.now made.now strings.now held }
    requires text { text.now ≡ text_in fixed.now made.now strings.now name }
    ensures { result ≡ bytes_eq (text_in fixed.now made.now strings.now held) text.now }
{
    if is_same(held, name) {
        return true;
    }
    bytes_in(fixed, made, strings, held) == text
}

/// Whether a cell holds a property of the object whose name has the text of a name.
#[inline(always)]
fn has_name(
    fixed: &[u8],
    made: &[u8],
    strings: &Strings,
    cell: Cell,
    o: u32,
    name: Span,
    text: &[u8],
) -> bool
    requires held { (n : Span) (v : Value) → property_in cell.held ≡ Some (n, v)
        → IsTextIn fixed.now made.now strings.now n }
    requires text { text.now ≡ text_in fixed.now made.now strings.now name }
    ensures { result
        ≡ nat_eq cell.owner o && is_property_named (text_in fixed.now made.now strings.now) text.now
        (Some (property_in cell.held)) }
{
    if cell.owner != o {
        return false;
    }
    match cell.held {
        Held::Property(held, _value) => has_text(fixed, made, strings, held, name, text),
        _ => false,
    }
}

/// Where the object has a property of the text of a name: the last of its bucket that fits.
#[inline(always)]
pub fn place_of_name(
    fixed: &[u8],
    made: &[u8],
    strings: &Strings,
    buckets: &Buckets,
    heads: &Reserved<Head>,
    cells: &Reserved<Cell>,
    o: u32,
    name: Span,
    text: &[u8],
) -> Option<Spot>
    requires heads { AreObjectHeads (links cells.now.items) heads.now.items }
    requires index { IsIndexed fixed.now made.now strings.now cells.now buckets.now }
    requires inside { o < length heads.now.items }
    requires text { text.now ≡ text_in fixed.now made.now strings.now name }
    ensures { MatchOption result (place_named (text_in fixed.now made.now strings.now) text.now
        (properties_of (objects cells.now.items 0 heads.now.items) o) ≡ None)
        (λ s. IsSpot (text_in fixed.now made.now strings.now) text.now cells.now.items heads.now.items o s) }
{
    let count = property_count(heads, cells, o);
    if count == 0 {
        return None;
    }
    let mut left = buckets.last(buckets.of(o, text));
    while left > 0 {
        let place = left - 1;
        let here = cell_at(cells, place);
        if has_name(fixed, made, strings, here, o, name, text) {
            return Some(Spot {
                place,
                position: here.position,
            });
        }
        left = buckets.before(place);
    }
    None
}

/// Whether a property's name stands at the same place as a name, where there is one.
#[inline(always)]
fn is_that(own: Option<Span>, name: Span) -> bool
    ensures { result ≡ true → own ≡ Some name }
{
    match own {
        Some(own) => is_same(own, name),
        None => false,
    }
}

/// Where an object has the property that came last, if that has just this name.
#[inline(always)]
fn last_of_name(heads: &Reserved<Head>, cells: &Reserved<Cell>, o: u32, name: Span) -> Option<Spot>
    requires heads { AreObjectHeads (links cells.now.items) heads.now.items }
    requires inside { o < length heads.now.items }
    ensures { MatchOption result (Unit {0})
        (λ s. (f : Span → List ℕ) → IsSpot f (f name) cells.now.items heads.now.items o s) }
{
    let chain = head_at(heads, o).properties;
    let count = chain.count;
    if count == 0 {
        return None;
    }
    let here = cell_at(cells, chain.last);
    if !is_that(property_name(here.held), name) {
        return None;
    }
    Some(Spot {
        place: chain.last,
        position: here.position,
    })
}

/// Where the object has a property of the text of a name, as the bucket of the text tells.
#[inline(never)]
fn find_in_bucket(
    fixed: &Bytes,
    made: &Reserved<u8>,
    strings: &Strings,
    buckets: &Buckets,
    heads: &Reserved<Head>,
    cells: &Reserved<Cell>,
    o: u32,
    name: Span,
) -> Option<Spot>
    requires heads { AreObjectHeads (links cells.now.items) heads.now.items }
    requires index { IsIndexed fixed.now made.now.items strings.now cells.now buckets.now }
    requires inside { o < length heads.now.items }
    requires name { IsTextIn fixed.now made.now.items strings.now name }
    ensures { MatchOption result (place_named (text_in fixed.now made.now.items strings.now)
        (text_in fixed.now made.now.items strings.now name)
        (properties_of (objects cells.now.items 0 heads.now.items) o) ≡ None)
        (λ s. IsSpot (text_in fixed.now made.now.items strings.now)
        (text_in fixed.now made.now.items strings.now name) cells.now.items heads.now.items o s) }
{
    let fixed = fixed.as_slice();
    let made = made.as_slice();
    let text = bytes_in(fixed, made, strings, name);
    place_of_name(fixed, made, strings, buckets, heads, cells, o, name, text)
}

/// Where the object has a property of the text of a name. (Often it is the one that came last, and has just that name.)
#[inline(always)]
pub fn find(
    fixed: &Bytes,
    made: &Reserved<u8>,
    strings: &Strings,
    buckets: &Buckets,
    heads: &Reserved<Head>,
    cells: &Reserved<Cell>,
    o: u32,
    name: Span,
) -> Option<Spot>
    requires heads { AreObjectHeads (links cells.now.items) heads.now.items }
    requires index { IsIndexed fixed.now made.now.items strings.now cells.now buckets.now }
    requires inside { o < length heads.now.items }
    requires name { IsTextIn fixed.now made.now.items strings.now name }
    ensures { MatchOption result (place_named (text_in fixed.now made.now.items strings.now)
        (text_in fixed.now made.now.items strings.now name)
        (properties_of (objects cells.now.items 0 heads.now.items) o) ≡ None)
        (λ s. IsSpot (text_in fixed.now made.now.items strings.now)
        (text_in fixed.now made.now.items strings.now name) cells.now.items heads.now.items o s) }
{
    match last_of_name(heads, cells, o, name) {
        Some(spot) => Some(spot),
        None => find_in_bucket(fixed, made, strings, buckets, heads, cells, o, name),
    }
}

/// The bucket of the text of a name on an object.
pub fn bucket_of_name(
    fixed: &Bytes,
    made: &Reserved<u8>,
    strings: &Strings,
    buckets: &Buckets,
    o: u32,
    name: Span,
) -> usize
    requires some { 0 < length buckets.now.lasts.items }
    requires name { IsTextIn fixed.now made.now.items strings.now name }
    ensures bucket { result
        ≡ the_bucket (length buckets.now.lasts.items) o (text_in fixed.now made.now.items strings.now name) }
    ensures inside { result < length buckets.now.lasts.items }
{
    let text = bytes_in(fixed.as_slice(), made.as_slice(), strings, name);
    buckets.of(o, text)
}
