//! The methods that have a body.
ghost use Rattle.std.specs.Prelude.{◌≡◌, ◌<◌, ◌≤◌, ◌∷◌, ◌++◌, [], IfOk, IfSome, OnOk};
ghost use Rattle.abc_text_lines.specs.Texts.{is_text_among};
ghost use Rattle.abc_text_lines.specs.Operands.{number_of_digits};
ghost use Rattle.abc_text_reader.specs.Names.{Same, names_in, texts_of_names};

use crate::noting::add;
use abc_base::NoMemory;
use abc_text_operands::numeral;
use indexmap::IndexMap;
use std::alloc::Global;
use std::marker::Model;

/// The numbers that rise are below it: no file has so many methods.
const MOST: u64 = 1 << 32;

/// The methods that have a body, by their numerals. Contracts see them as a list. Nearly always each is greater than those
/// before it, and none has to be sought.
#[derive(Drop)]
pub(crate) struct Bodied<'a> {
    /// Those that came before the first that is not greater.
    rising: Vec<&'a [u8]>,
    /// The numbers of these are below it.
    bound: u64,
    /// All, once one was not greater.
    others: IndexMap<&'a [u8], bool>,
}

impl<'a> Model for Bodied<'a> {
    ghost use Rattle.std.specs.Prelude.{◌++◌, List, ℕ};
    ghost use Rattle.abc_text_reader.specs.Names.{AreBelow, names_in, texts_of_names};

    ghost Value = { List (List ℕ) };

    ghost view = { λ b. texts_of_names b.rising.items ++ names_in b.others };

    ghost invariant = { λ b. AreBelow b.bound (texts_of_names b.rising.items) };
}

/// The bound after a numeral whose number is not below one.
fn bound_after(name: &[u8], bound: u64) -> Option<u64>
    ensures { IfSome result
        (λ after. (bound ≤ number_of_digits name.now) × (number_of_digits name.now < after)) }
{
    let number = numeral(name)?;
    if number < bound || number >= MOST {
        return None;
    }
    Some(number + 1)
}

/// Adds names to others. `NoMemory` where memory runs out.
fn add_all<'a>(seen: &mut IndexMap<&'a [u8], bool>, names: &[&'a [u8]]) -> Result<(), NoMemory>
    ensures { OnOk result (Same (names_in seen.new) (texts_of_names names.now ++ names_in seen.old)) }
{
    for name in names {
        add(seen, *name)?;
    }
    Ok(())
}

impl<'a> Bodied<'a> {
    /// No methods. They take no memory.
    pub(crate) fn new(alloc: Global) -> Bodied<'a>
        ensures { result ≡ [] }
    {
        Bodied {
            rising: Vec::new(alloc),
            bound: 0,
            others: IndexMap::new(alloc),
        }
    }

    /// Adds a method, and tells whether it was among them. `NoMemory` where memory runs out.
    pub(crate) fn note(&mut self, name: &'a [u8]) -> Result<bool, NoMemory>
        ensures was { IfOk result (λ known. known ≡ is_text_among name.now self.old) }
        ensures is { IfOk result (λ known. Same self.new (name.now ∷ self.old)) }
    {
        if !self.others.is_empty() {
            return self.note_late(name);
        }
        match bound_after(name, self.bound) {
            Some(bound) => {
                self.rising.push(name)?;
                self.bound = bound;
                Ok(false)
            }
            None => self.note_late(name),
        }
    }

    /// The same, once one is not greater than those before it.
    #[cold]
    #[tactic(auto, using(crate::proofs::Rising::none_below))]
    fn note_late(&mut self, name: &'a [u8]) -> Result<bool, NoMemory>
        ensures was { IfOk result (λ known. known ≡ is_text_among name.now self.old) }
        ensures is { IfOk result (λ known. Same self.new (name.now ∷ self.old)) }
    {
        add_all(&mut self.others, self.rising.as_slice())?;
        self.rising.clear();
        let known = add(&mut self.others, name)?;
        Ok(known)
    }
}
