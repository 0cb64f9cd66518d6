ghost use Rattle.std.specs.Prelude.{◌≡◌, ◌≤◌, Some, None, if◌then◌else◌, nat_le};
ghost use Rattle.std.specs.List.{list_all};
ghost use Rattle.abc_heap_store.specs.Texts.{IsText};
ghost use Rattle.abc_lookup.specs.Named.{element_in, element_name_on};
ghost use Rattle.abc_objects.specs.Values.{IsObject};
ghost use Rattle.abc_objects.specs.ElementNames.{element_name, element_number as number_named, is_name_digit as does_digit, is_element_numeral as does_numeral, number_from};

use abc_heap_values::{ObjId, Span};
use abc_link::Linked;
use abc_objects::Arena;

/// The name of an array's element, or of its length.
#[derive(Clone, Copy)]
pub enum ElementName {
    /// `length`.
    Length,
    /// The number of an element, from 0 to 4294967294, whether the array has it or not.
    Number(u32),
}

/// The greatest number of an element.
const GREATEST: u64 = 4294967294;

fn is_digit(byte: u8) -> bool
    ensures { result ≡ does_digit byte }
{
    48 <= byte && byte <= 57
}

fn are_digits(text: &[u8]) -> bool
    ensures { result ≡ list_all does_digit text.now }
{
    text.iter().all(|byte| is_digit(*byte))
}

/// Whether a text is digits without a leading zero.
fn is_numeral(text: &[u8]) -> bool
    ensures { result ≡ does_numeral text.now }
{
    match text {
        [] => false,
        [byte] => is_digit(*byte),
        [first, ..] => *first != 48 && are_digits(text),
    }
}

/// The number of some digits, unless it is above the greatest.
fn number_of(digits: &[u8]) -> Option<u32>
    ensures { result
        ≡ (if nat_le (number_from 0 digits.now) 4294967294 then Some (number_from 0 digits.now) else None) }
{
    let mut number: u64 = 0;
    for digit in digits {
        number = number * 10 + digit.saturating_sub(48) as u64;
        if number > GREATEST {
            return None;
        }
    }
    Some(number as u32)
}

/// The number of the element that a text names.
pub fn element_number(text: &[u8]) -> Option<u32>
    ensures { result ≡ number_named text.now }
{
    if !is_numeral(text) {
        return None;
    }
    number_of(text)
}

/// The element name that a text is.
fn name_of(text: &[u8]) -> Option<ElementName>
    ensures { element_in result ≡ element_name text.now }
{
    if text == b"length".as_slice() {
        return Some(ElementName::Length);
    }
    match element_number(text) {
        Some(number) => Some(ElementName::Number(number)),
        None => None,
    }
}

/// The element name that a text is on an object. It answers `None` where the object is no array, or the text neither `length`
/// nor the decimal text of a number.
#[inline(always)]
pub fn element_named(l: &Linked, a: &Arena, o: ObjId, text: Span) -> Option<ElementName>
    requires object { IsObject a.now o }
    requires text { IsText l.now.file.strings a.now text }
    ensures { element_in result ≡ element_name_on l.now a.now o text }
{
    if !a.is_array(o) {
        return None;
    }
    name_of(a.text_bytes(l, text))
}
