ghost use Rattle.std.specs.Prelude.{◌≡◌, IfOk, OnOk};
ghost use Rattle.abc_text_tokens.specs.Names.{AddsName, GivesName, found_name};

use abc_base::NoMemory;
use indexmap::IndexMap;

/// Gives a name a value, and answers the one that it had. `NoMemory` where memory runs out.
fn give<'a, V: Copy>(
    values: &mut IndexMap<&'a [u8], V>,
    name: &'a [u8],
    value: V,
) -> Result<Option<V>, NoMemory>
    ensures had { IfOk result (λ had. had ≡ found_name values.old name.now) }
    ensures gives { OnOk result (GivesName values.old values.new name.now value) }
{
    let had = values.insert(name, value)?;
    Ok(had)
}

/// Gives a name a value, unless it has one: nearly always it has none. `NoMemory` where memory runs out.
pub fn note<'a, V: Copy>(
    values: &mut IndexMap<&'a [u8], V>,
    name: &'a [u8],
    value: V,
) -> Result<(), NoMemory>
    ensures { OnOk result (AddsName values.old values.new name.now value) }
{
    match give(values, name, value)? {
        Some(first) => {
            give(values, name, first)?;
            Ok(())
        }
        None => Ok(()),
    }
}
