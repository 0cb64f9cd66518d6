ghost use Rattle.std.specs.Prelude.{◌≡◌, List};
ghost use Rattle.std.specs.List.{find};
ghost use Rattle.abc_base.specs.declared.formula.Formula.{Formula};
ghost use Rattle.abc_meaning.specs.Exports.{export as export_of, has_public_name as is_named, is_export, exported_method as method_of, method_of_trait};
ghost use Rattle.abc_link_names.specs.PartsByNumber.{script_at};
ghost use Rattle.abc_meaning.specs.Throwing.{last_script};
ghost use Rattle.abc_link_names.specs.Pool.{name as name_of, qname};
ghost use Rattle.abc_meaning.specs.Openings.{setting};

use abc_file_types::{TraitBody, TraitInfo};
use abc_link::Linked;
use abc_link_names::{qname_at, text_at};

/// The method of a method trait.
fn method_in(body: &TraitBody) -> Option<u32>
    ensures { result ≡ method_of body.now }
{
    match body {
        TraitBody::Method { method, .. } => Some(*method),
        _ => None,
    }
}

/// Whether a trait's name has a text and the public namespace.
fn has_public_name(linked: &Linked, text: &[u8], trait_name: u32) -> bool
    ensures { result ≡ is_named linked.now.file text.now (qname (name_of linked.now.file trait_name)) }
{
    let name = qname_at(linked.abc(), trait_name);
    text_at(linked.abc(), name.string) == text && linked.is_public(name.ns)
}

/// Whether a trait is exported under a text.
fn is_exported(linked: &Linked, text: &[u8], one: &TraitInfo) -> bool
    ensures { result ≡ is_export linked.now.file text.now one.now }
{
    match method_in(&one.body) {
        Some(_) => has_public_name(linked, text, one.name),
        None => false,
    }
}

/// The method of the first of some traits that is exported under a text.
fn export_among(linked: &Linked, traits: &[TraitInfo], text: &[u8]) -> Option<u32>
    ensures { result ≡ method_of_trait (find (is_export linked.now.file text.now) traits.now) }
{
    for one in traits {
        if is_exported(linked, text, one) {
            return method_in(&one.body);
        }
    }
    None
}

/// The traits of the last script.
#[tactic(auto, using(abc_base::proofs::Past::past_end))]
fn last_traits(linked: &Linked) -> &[TraitInfo]
    ensures { (formulas : List Formula)
        → result.now ≡ (script_at linked.now.file (last_script (setting linked.now formulas))).traits }
{
    let scripts = &linked.abc().scripts;
    match scripts.find(scripts.len().saturating_sub(1)) {
        Some(script) => script.traits.as_slice(),
        None => &[],
    }
}

/// The method that a file exports under a text: that of the first such method trait of its last script.
pub(crate) fn export(linked: &Linked, text: &[u8]) -> Option<u32>
    ensures { (formulas : List Formula) → result ≡ export_of (setting linked.now formulas) text.now }
{
    export_among(linked, last_traits(linked), text)
}
