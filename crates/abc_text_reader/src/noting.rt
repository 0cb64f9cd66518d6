//! Names that were seen.
ghost use Rattle.std.specs.Prelude.{◌≡◌, ◌∷◌, [], IfOk, MatchOption, take, true};
ghost use Rattle.abc_text_lines.specs.Texts.{is_text_among, method_named};
ghost use Rattle.abc_text_tokens.specs.Walks.{tokens_of};
ghost use Rattle.abc_text_reader.specs.Names.{IsFirstAt, Same, names_in, names_in_body};

use abc_base::NoMemory;
use abc_text_tokens::Token;
use indexmap::IndexMap;
use std::mem;

/// Adds a name to some, and tells whether it was among them. `NoMemory` where memory runs out.
pub fn add<'a>(seen: &mut IndexMap<&'a [u8], bool>, name: &'a [u8]) -> Result<bool, NoMemory>
    ensures was { IfOk result (λ known. known ≡ is_text_among name.now (names_in seen.old)) }
    ensures is { IfOk result (λ known. Same (names_in seen.new) (name.now ∷ names_in seen.old)) }
{
    let old = seen.insert(name, true)?;
    Ok(old.is_some())
}

/// Whether a name stands at a place among some.
fn stands_at(names: &IndexMap<&[u8], u32>, place: usize, name: &[u8]) -> bool
    ensures { result ≡ true → IsFirstAt (names_in names.now) place name.now }
{
    if place >= names.len() {
        return false;
    }
    match names.get_index(place) {
        Some((other, _)) => *other == name,
        None => false,
    }
}

/// Whether a name stands before a place among some.
fn stands_before(names: &IndexMap<&[u8], u32>, place: usize, name: &[u8]) -> bool
    ensures { result ≡ is_text_among name.now (take place (names_in names.now)) }
{
    match names.get_index_of(name) {
        Some(found) => found < place,
        None => false,
    }
}

/// Adds a name to others, and tells whether it was among them or the labels before a place. `NoMemory` where memory runs
/// out.
#[cold]
fn add_late<'a>(
    labels: &IndexMap<&'a [u8], u32>,
    met: usize,
    others: &mut IndexMap<&'a [u8], bool>,
    name: &'a [u8],
) -> Result<bool, NoMemory>
    ensures was { IfOk result
        (λ known. known ≡ is_text_among name.now (names_in_body labels.now met others.old)) }
    ensures is { IfOk result (λ known. Same (names_in_body labels.now met others.new)
        (name.now ∷ names_in_body labels.now met others.old)) }
{
    let known = add(others, name)?;
    if known {
        return Ok(true);
    }
    Ok(stands_before(labels, met, name))
}

/// Adds a label to those that stood in a body, and tells whether it was among them. Nearly always it is the next one of the
/// body's labels, which stand in their order, and nothing has to be sought. `NoMemory` where memory runs out.
pub fn note_label<'a>(
    labels: &IndexMap<&'a [u8], u32>,
    met: &mut usize,
    others: &mut IndexMap<&'a [u8], bool>,
    name: &'a [u8],
) -> Result<bool, NoMemory>
    ensures was { IfOk result
        (λ known. known ≡ is_text_among name.now (names_in_body labels.now met.old others.old)) }
    ensures is { IfOk result (λ known. Same (names_in_body labels.now met.new others.new)
        (name.now ∷ names_in_body labels.now met.old others.old)) }
{
    if !others.is_empty() {
        return add_late(labels, *met, others, name);
    }
    if !stands_at(labels, *met, name) {
        return add_late(labels, *met, others, name);
    }
    *met += 1;
    Ok(false)
}

/// The method that a body's line names, by its numeral.
pub fn method_of<'a>(operands: &[Token<'a>]) -> Option<&'a [u8]>
    ensures { MatchOption result (method_named (tokens_of operands.now) ≡ [])
        (λ m. method_named (tokens_of operands.now) ≡ m.now ∷ []) }
{
    if operands.is_empty() {
        return None;
    }
    match operands[0] {
        Token::Bare(word) => Some(word),
        Token::Quoted(_) => None,
    }
}

/// Puts a map in the place of another. To clear one would go over all the room that it ever had.
pub fn renew<'a, T: Drop>(old: &mut IndexMap<&'a [u8], T>, new: IndexMap<&'a [u8], T>)
    ensures { old.new ≡ new.entry }
{
    let _old = mem::replace(old, new);
}
