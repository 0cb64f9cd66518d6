ghost use Rattle.std.specs.Prelude.{◌≡◌, ◌<◌, ◌≤◌, ◌+◌, ◌++◌, ◌∷◌, ◌^◌, [], false, get_or, map, length, IfOk, IsFalse, IsTrue, OnOk};
ghost use Rattle.std.specs.Str.{bytes_eq};
ghost use Rattle.abc_base_graphs.specs.Index.{FindsPlace};
ghost use Rattle.abc_base_graphs.specs.Texts.{HasTexts, number_among, texts_of};
ghost use Rattle.abc_tidy_refs.specs.Nodes.{counts_of, node_count};
ghost use Rattle.abc_tidy_entries.specs.Entries.{double_places as places_of_doubles, int_places as places_of_ints, place_among, text_places as places_of_strings, uint_places as places_of_uints};
ghost use Rattle.abc_tidy_entries.specs.Heads.{ArePlaced, HasHeadPlaces, HoldsMarked, TellApart};

use abc_base::{Bytes, NoMemory, Table};
use abc_base_graphs::{Texts, index_of};
use abc_file_types::Abc;
use indexmap::IndexMap;
use std::alloc::Global;
use std::hash::Hash;

/// Adds a value, if it is marked.
fn keep<K: Copy + Drop>(kept: &mut Table<K>, value: K, is_marked: bool) -> Result<(), NoMemory>
    ensures added { OnOk result (IsTrue is_marked → kept.new ≡ kept.old ++ value ∷ []) }
    ensures same { OnOk result (IsFalse is_marked → kept.new ≡ kept.old) }
{
    if !is_marked {
        return Ok(());
    }
    kept.push(value)?;
    Ok(())
}

/// Those of some values that are marked; the first has this place among the marks.
fn marked<K: Copy + Drop>(
    alloc: Global,
    values: &[K],
    marks: &[bool],
    begin: usize,
) -> Result<Table<K>, NoMemory>
    requires { begin + length values.now ≤ length marks.now }
    ensures many { IfOk result (λ t. length t ≤ length values.now) }
    ensures holds { IfOk result (λ t. HoldsMarked marks.now begin values.now (length values.now) t) }
{
    let mut kept = Table::new(alloc);
    for i in 0..values.len() {
        let is_marked = has_mark(marks, begin + i);
        keep(&mut kept, values[i], is_marked)?;
    }
    Ok(kept)
}

/// The place of a value, if it is marked.
fn place_of<K: Eq + Hash + Copy>(
    index: &IndexMap<K, u32>,
    _chosen: &[K],
    value: K,
    is_marked: bool,
) -> u32
    requires { FindsPlace K.eq index.now _chosen.now }
    ensures { IsTrue is_marked → result ≡ place_among K.eq _chosen.now value }
{
    if !is_marked {
        return 0;
    }
    index.get(&value).copied().unwrap_or(0)
}

/// For each value that is marked the place of the first marked one that is equal to it, among those that are marked. The
/// others are not looked up.
fn first_places<K: Eq + Hash + Copy + Drop>(
    alloc: Global,
    values: &[K],
    marks: &[bool],
    begin: usize,
) -> Result<Table<u32>, NoMemory>
    requires few { length values.now < 2 ^ 32 }
    requires marks { begin + length values.now ≤ length marks.now }
    ensures { IfOk result (λ t. ArePlaced K.eq marks.now begin values.now t) }
{
    let chosen = marked(alloc, values, marks, begin)?;
    let kept = chosen.as_slice();
    let index = index_of(alloc, kept)?;
    let mut places = Table::new(alloc);
    for i in 0..values.len() {
        let is_marked = has_mark(marks, begin + i);
        let place = place_of(&index, kept, values[i], is_marked);
        places.push(place)?;
    }
    Ok(places)
}

/// The mark at a place.
fn has_mark(marks: &[bool], place: usize) -> bool
    requires { place < length marks.now }
    ensures { result ≡ get_or marks.now place false }
{
    marks[place]
}

/// Adds a copy of a text, if it is marked.
fn keep_text(
    alloc: Global,
    kept: &mut Table<Bytes>,
    text: &[u8],
    is_marked: bool,
) -> Result<(), NoMemory>
    ensures added { OnOk result (IsTrue is_marked → kept.new ≡ kept.old ++ text.now ∷ []) }
    ensures same { OnOk result (IsFalse is_marked → kept.new ≡ kept.old) }
{
    if !is_marked {
        return Ok(());
    }
    let copy = Bytes::from_slice(alloc, text)?;
    kept.push(copy)?;
    Ok(())
}

/// Those of some texts that are marked; the first has this place among the marks.
fn marked_texts(
    alloc: Global,
    strings: &Table<Bytes>,
    marks: &[bool],
    begin: usize,
) -> Result<Table<Bytes>, NoMemory>
    requires { begin + length strings.now ≤ length marks.now }
    ensures many { IfOk result (λ t. length t ≤ length strings.now) }
    ensures holds { IfOk result (λ t. HoldsMarked marks.now begin strings.now (length strings.now) t) }
{
    let mut kept = Table::new(alloc);
    for i in 0..strings.len() {
        let is_marked = has_mark(marks, begin + i);
        keep_text(alloc, &mut kept, strings.get(i).as_slice(), is_marked)?;
    }
    Ok(kept)
}

/// The place of a text, if it is marked.
fn place_of_text(texts: &Texts, _chosen: &Table<Bytes>, text: &[u8], is_marked: bool) -> u32
    requires { HasTexts texts.now (texts_of _chosen.now) }
    ensures { IsTrue is_marked → result ≡ number_among (texts_of _chosen.now) text.now }
{
    if !is_marked {
        return 0;
    }
    texts.number_of(text).unwrap_or(0)
}

/// For each text that is marked its place among those that are.
fn places_of_texts(
    alloc: Global,
    strings: &Table<Bytes>,
    chosen: &Table<Bytes>,
    texts: &Texts,
    marks: &[bool],
    begin: usize,
) -> Result<Table<u32>, NoMemory>
    requires texts { HasTexts texts.now (texts_of chosen.now) }
    requires marks { begin + length strings.now ≤ length marks.now }
    ensures { IfOk result (λ t. HasHeadPlaces bytes_eq marks.now begin strings.now (texts_of chosen.now)
        (length strings.now) t) }
{
    let mut places = Table::new(alloc);
    for i in 0..strings.len() {
        let is_marked = has_mark(marks, begin + i);
        let place = place_of_text(texts, chosen, strings.get(i).as_slice(), is_marked);
        places.push(place)?;
    }
    Ok(places)
}

/// The same for texts, among which the empty one comes first.
fn first_texts(
    alloc: Global,
    strings: &Table<Bytes>,
    marks: &[bool],
    begin: usize,
) -> Result<Table<u32>, NoMemory>
    requires few { length strings.now + 1 < 2 ^ 32 }
    requires marks { begin + length strings.now ≤ length marks.now }
    ensures { IfOk result (λ t. ArePlaced bytes_eq marks.now begin strings.now t) }
{
    let chosen = marked_texts(alloc, strings, marks, begin)?;
    let texts = Texts::new(alloc, &chosen)?;
    let places = places_of_texts(alloc, strings, &chosen, &texts, marks, begin)?;
    Ok(places)
}

pub(crate) fn int_places(alloc: Global, abc: &Abc, marks: &[bool]) -> Result<Table<u32>, NoMemory>
    requires few { node_count (counts_of abc.now) < 2 ^ 32 }
    requires marks { length marks.now ≡ node_count (counts_of abc.now) }
    ensures { IfOk result (λ t. TellApart marks.now 1 t (places_of_ints abc.now)) }
{
    let places = first_places(alloc, abc.ints.as_slice(), marks, 1)?;
    Ok(places)
}

pub(crate) fn uint_places(alloc: Global, abc: &Abc, marks: &[bool]) -> Result<Table<u32>, NoMemory>
    requires few { node_count (counts_of abc.now) < 2 ^ 32 }
    requires marks { length marks.now ≡ node_count (counts_of abc.now) }
    ensures { IfOk result (λ t. TellApart marks.now (1 + length (abc.now).ints) t (places_of_uints abc.now)) }
{
    let begin = 1 + abc.ints.len();
    let places = first_places(alloc, abc.uints.as_slice(), marks, begin)?;
    Ok(places)
}

/// The bits of the doubles.
fn doubles_of(alloc: Global, abc: &Abc) -> Result<Table<[u8; 8]>, NoMemory>
    ensures { IfOk result (λ t. t ≡ map (λ d. d.0) (abc.now).doubles) }
{
    let mut doubles = Table::new(alloc);
    for double in abc.doubles.as_slice() {
        doubles.push(double.0)?;
    }
    Ok(doubles)
}

pub(crate) fn double_places(
    alloc: Global,
    abc: &Abc,
    marks: &[bool],
) -> Result<Table<u32>, NoMemory>
    requires few { node_count (counts_of abc.now) < 2 ^ 32 }
    requires marks { length marks.now ≡ node_count (counts_of abc.now) }
    ensures { IfOk result (λ t. TellApart marks.now (1 + length (abc.now).ints + length (abc.now).uints) t
        (places_of_doubles abc.now)) }
{
    let doubles = doubles_of(alloc, abc)?;
    let begin = 1 + abc.ints.len() + abc.uints.len();
    let places = first_places(alloc, doubles.as_slice(), marks, begin)?;
    Ok(places)
}

pub(crate) fn text_places(alloc: Global, abc: &Abc, marks: &[bool]) -> Result<Table<u32>, NoMemory>
    requires few { node_count (counts_of abc.now) < 2 ^ 32 }
    requires marks { length marks.now ≡ node_count (counts_of abc.now) }
    ensures { IfOk result (λ t. TellApart marks.now
        (1 + length (abc.now).ints + length (abc.now).uints + length (abc.now).doubles) t
        (places_of_strings abc.now)) }
{
    let begin = 1 + abc.ints.len() + abc.uints.len() + abc.doubles.len();
    let places = first_texts(alloc, &abc.strings, marks, begin)?;
    Ok(places)
}
