ghost use Rattle.std.specs.Prelude.{◌≡◌, ℕ, List};
ghost use Rattle.std.specs.Option.{option_copied};
ghost use Rattle.std.specs.Str.{bytes_eq};
ghost use Rattle.abc_base_graphs.specs.Groups.{places_of, some_places};
ghost use Rattle.abc_base_graphs.specs.ByText.{GroupsTexts, names_of};

use crate::texts::Texts;
use abc_base::Table;
use indexmap::IndexMap;

/// The places of a text in a list of texts of the pool that were grouped by their numbers.
pub fn places_by_text<'a>(
    texts: &Texts,
    groups: &'a IndexMap<u32, Table<u32>>,
    text: &[u8],
) -> Option<&'a Table<u32>>
    ghost with: { List (List ℕ) × List ℕ }
    requires { GroupsTexts texts.now with.0 groups.now with.1 }
    ensures { option_copied result ≡ some_places (places_of (bytes_eq text.now) (names_of with.0 with.1)) }
{
    match texts.number_of(text) {
        Some(number) => groups.get(&number),
        None => None,
    }
}
