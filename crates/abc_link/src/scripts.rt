ghost use Rattle.std.specs.Prelude.{◌≡◌, ◌++◌, ◌<◌, ◌^◌, [], ℕ, List, Some, length, map, slice_get, IfOk, OnOk};
ghost use Rattle.std.specs.Option.{option_copied};
ghost use Rattle.abc_base_graphs.specs.Texts.{HasTexts, number_in, numbers_in, texts_of};
ghost use Rattle.abc_link.specs.ScriptTraits.{HasScripts, keys_of, owners_of, script_traits, traits_of_scripts};

use abc_base::{NoMemory, Table};
use abc_base_graphs::{Texts, groups_of};
use abc_file_types::{Abc, TraitInfo};
use abc_link_layouts::number_at;
use abc_link_names::qname_at;
use indexmap::IndexMap;
use std::alloc::Global;

/// The traits of all scripts, one after the other: the script of each, and their places by the numbers of their texts.
#[derive(Drop)]
pub struct ScriptTraits {
    pub(crate) owners: Table<u32>,
    pub(crate) groups: IndexMap<u32, Table<u32>>,
}

/// Adds the traits of a script, with the numbers of their texts.
fn push_script(
    abc: &Abc,
    numbers: &Table<u32>,
    traits: &[TraitInfo],
    script: u32,
    keys: &mut Vec<u32>,
    owners: &mut Table<u32>,
) -> Result<(), NoMemory>
    ensures keys { OnOk result (keys.new.items ≡ keys.old.items ++ keys_of abc.now numbers.now traits.now) }
    ensures owners { OnOk result (owners.new ≡ owners.old ++ map (λ _. script) traits.now) }
{
    for info in traits {
        keys.push(number_at(numbers, qname_at(abc, info.name).string))?;
        owners.push(script)?;
    }
    Ok(())
}

/// Adds the traits of all scripts.
fn push_scripts(
    abc: &Abc,
    numbers: &Table<u32>,
    keys: &mut Vec<u32>,
    owners: &mut Table<u32>,
) -> Result<(), NoMemory>
    requires few { length abc.now.scripts < 2 ^ 32 }
    requires keys { keys.old.items ≡ [] }
    requires owners { owners.old ≡ [] }
    ensures keys { OnOk result
        (keys.new.items ≡ keys_of abc.now numbers.now (traits_of_scripts abc.now.scripts)) }
    ensures owners { OnOk result (owners.new ≡ owners_of abc.now) }
{
    for (script, entry) in abc.scripts.as_slice().iter().enumerate() {
        push_script(
            abc,
            numbers,
            entry.traits.as_slice(),
            script as u32,
            keys,
            owners,
        )?;
    }
    Ok(())
}

impl ScriptTraits {
    /// The traits of the scripts of a file, by the numbers of the texts of its strings. Of 2^32 traits or more there is never
    /// room for all.
    pub fn new(
        alloc: Global,
        abc: &Abc,
        texts: &Texts,
        numbers: &Table<u32>,
    ) -> Result<ScriptTraits, NoMemory>
        requires texts { HasTexts texts.now (texts_of abc.now.strings) }
        requires numbers { numbers.now ≡ numbers_in texts.now abc.now.strings }
        requires few { length abc.now.scripts < 2 ^ 32 }
        ensures { IfOk result (λ s. HasScripts abc.now texts.now s) }
    {
        let _texts = texts;
        let mut keys = Vec::new(alloc);
        let mut owners = Table::new(alloc);
        push_scripts(abc, numbers, &mut keys, &mut owners)?;
        if keys.len() > u32::MAX as usize {
            return Err(NoMemory);
        }
        let groups = groups_of(alloc, keys.as_slice())?;
        Ok(ScriptTraits { owners, groups })
    }

    /// The places of the traits of the scripts that have the text of a number, in the order of the scripts and of their
    /// tables. It answers none where no trait of a script has the text.
    pub fn numbered(&self, abc: &Abc, texts: &Texts, number: Option<u32>) -> Option<&Table<u32>>
        requires { HasScripts abc.now texts.now self.now }
        ensures { (t : List ℕ) → number_in texts.now t ≡ number
            → option_copied result ≡ script_traits abc.now t }
    {
        let _file = abc;
        let _texts = texts;
        match number {
            Some(number) => self.groups.get(&number),
            None => None,
        }
    }

    /// The script of the trait at a place.
    pub fn script_of(&self, abc: &Abc, texts: &Texts, place: u32) -> u32
        requires scripts { HasScripts abc.now texts.now self.now }
        requires place { place < length (owners_of abc.now) }
        ensures { slice_get (owners_of abc.now) place ≡ Some result }
    {
        let _file = abc;
        let _texts = texts;
        *self.owners.get(place as usize)
    }
}
