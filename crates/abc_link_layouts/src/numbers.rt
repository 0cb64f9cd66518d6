ghost use Rattle.std.specs.Prelude.{◌≡◌, ◌<◌, [], Some, get_or, map, IfOk};
ghost use Rattle.std.specs.Str.{bytes_eq};
ghost use Rattle.abc_base_graphs.specs.Index.{first};
ghost use Rattle.abc_base_graphs.specs.Texts.{HasTexts, numbers_in, texts_of};
ghost use Rattle.abc_base_graphs.specs.ByText.{GroupsTexts};
ghost use Rattle.abc_link_layouts.specs.Strings.{trait_strings};
ghost use Rattle.abc_link_names.specs.Traits.{trait_name};

use abc_base::{NoMemory, Table};
use abc_base_graphs::{Texts, groups_of};
use abc_file_types::{Abc, TraitInfo};
use abc_link_names::qname_at;
use indexmap::IndexMap;
use std::alloc::Global;

/// The number of the text of a string, or 0 past the end.
#[tactic(auto, using(abc_base::proofs::Past::past_end))]
pub fn number_at(numbers: &Table<u32>, string: u32) -> u32
    ensures { result ≡ get_or numbers.now string 0 }
{
    match numbers.fetch(string as usize) {
        Some(number) => number,
        None => 0,
    }
}

/// The number of the text of a string of a file, by its index: index 0 is the empty text, and so are those past the end.
pub fn string_number(abc: &Abc, texts: &Texts, numbers: &Table<u32>, string: u32) -> u32
    requires texts { HasTexts texts.now (texts_of abc.now.strings) }
    requires numbers { numbers.now ≡ numbers_in texts.now abc.now.strings }
    ensures { first (bytes_eq (get_or (texts_of abc.now.strings) string [])) (texts_of abc.now.strings)
        ≡ Some result }
{
    let _file = abc;
    let _texts = texts;
    number_at(numbers, string)
}

/// The numbers of the texts of the names of some traits.
fn keys_of(
    alloc: Global,
    abc: &Abc,
    numbers: &Table<u32>,
    table: &[TraitInfo],
) -> Result<Vec<u32>, NoMemory>
    ensures { IfOk result
        (λ keys. keys.items ≡ map (λ t. get_or numbers.now (trait_name abc.now t).string 0) table.now) }
{
    let mut keys = Vec::new(alloc);
    for info in table {
        keys.push(number_at(numbers, qname_at(abc, info.name).string))?;
    }
    Ok(keys)
}

/// The places of some traits by the numbers of the texts of their names. Of 2^32 traits or more there is never room for
/// the places.
pub(crate) fn group(
    alloc: Global,
    abc: &Abc,
    texts: &Texts,
    numbers: &Table<u32>,
    table: &[TraitInfo],
) -> Result<IndexMap<u32, Table<u32>>, NoMemory>
    requires texts { HasTexts texts.now (texts_of abc.now.strings) }
    requires numbers { numbers.now ≡ numbers_in texts.now abc.now.strings }
    ensures { IfOk result (λ g. GroupsTexts texts.now abc.now.strings g (trait_strings abc.now table.now)) }
{
    if table.len() > u32::MAX as usize {
        return Err(NoMemory);
    }
    let keys = keys_of(alloc, abc, numbers, table)?;
    let groups = groups_of(alloc, keys.as_slice())?;
    Ok(groups)
}
