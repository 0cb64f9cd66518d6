ghost use Rattle.std.specs.Prelude.{◌≡◌, IsTrue, MatchOption, Some};
ghost use Rattle.std.specs.Str.{bytes_eq};
ghost use Rattle.abc_heap_store.specs.Heap.{Heap};
ghost use Rattle.abc_heap_store.specs.Texts.{text_of};
ghost use Rattle.abc_base_graphs.specs.Index.{first};
ghost use Rattle.abc_base_graphs.specs.Texts.{texts_of};
ghost use Rattle.abc_lookup.specs.WholeStrings.{IsWholeString};

use abc_heap_values::Span;
use abc_link::Linked;
use abc_objects::{Arena, string_length};

/// Whether a text is the whole of a string of the file.
#[inline(always)]
fn is_whole_string(l: &Linked, text: Span) -> bool
    ensures { IsTrue result → IsWholeString l.now.file.strings text }
{
    text.part >= 2
        && text.start == 0
        && text.len as usize == string_length(&l.abc().strings, text.part - 2)
}

/// The number of a text that is the whole of a string of the file, which is in a table.
#[inline(always)]
pub fn whole_number(l: &Linked, text: Span) -> Option<u32>
    ensures { MatchOption result (Unit {0}) (λ n. (h : Heap)
        → first (bytes_eq (text_of l.now.file.strings h text)) (texts_of l.now.file.strings) ≡ Some n) }
{
    if is_whole_string(l, text) {
        return Some(l.string_number(text.part - 2));
    }
    None
}

/// The number of a text, if it is the empty one or a string of the file. That of a whole string is in a table.
#[inline(always)]
pub fn number_of(l: &Linked, a: &Arena, span: Span, text: &[u8]) -> Option<u32>
    requires { text.now ≡ text_of l.now.file.strings a.now span }
    ensures { first (bytes_eq text.now) (texts_of l.now.file.strings) ≡ result }
{
    let _ = a;
    match whole_number(l, span) {
        Some(number) => Some(number),
        None => l.text_number(text),
    }
}
