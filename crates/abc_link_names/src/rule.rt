ghost use Rattle.std.specs.Prelude.{◌≡◌, ◌<◌, ◌+◌, ◌^◌, ◌↔◌, IsTrue, IfOk, MatchResult};
ghost use Rattle.abc_link_names.specs.Items.{IsItem, count_of, rule_number, kind_number};
ghost use Rattle.abc_link_names.specs.Rules.{Breaks, AllHoldBefore, IsFirstBroken};
ghost use Rattle.abc_link_names.specs.Firsts.{IsFirstOfKind, IsFirstItem, IsFirstBelow, IsLinkRefusal, IsFew};

use crate::error::LinkError;
use crate::items::{Item, ItemKind, LinkRule};
use abc_base::NoMemory;
use abc_file_types::Abc;
use std::alloc::Global;

/// A rule of linking over a file, as a test of each item.
pub trait Rule {
    ghost use Rattle.abc_file_types.specs.declared.tables.Abc.{Abc};
    ghost use Rattle.abc_link_names.specs.declared.items.LinkRule.{LinkRule};

    ghost file: { Self → Abc };

    ghost rule: { Self → LinkRule };

    fn rule(&self) -> LinkRule
        ensures { result ≡ rule self.now };

    fn abc(&self) -> &Abc
        ensures { result.now ≡ file self.now };

    /// Whether an item breaks the rule.
    fn is_broken(&self, alloc: Global, item: Item) -> Result<bool, NoMemory>
        requires { IsItem (file self.now) item }
        ensures { IfOk result (λ b. IsTrue b ↔ Breaks (file self.now) (rule self.now) item) };
}

/// The first item of a kind, of which there are so many, that breaks a rule.
fn first_of_kind<R: Rule>(
    alloc: Global,
    rule: &R,
    kind: ItemKind,
    count: u32,
) -> Result<Option<Item>, NoMemory>
    requires { count ≡ count_of (R.file rule.now) kind }
    ensures { IfOk result (λ r. IsFirstOfKind (R.file rule.now) (R.rule rule.now) kind r) }
{
    for index in 0..count {
        let item = Item { kind, index };
        if rule.is_broken(alloc, item)? {
            return Ok(Some(item));
        }
    }
    Ok(None)
}

/// The first item that breaks a rule, where the items of the kinds before were tried already.
#[tactic(auto, using(crate::proofs::FirstBroken::next_kind))]
fn or_of_kind<R: Rule>(
    alloc: Global,
    rule: &R,
    found: Option<Item>,
    kind: ItemKind,
    count: u32,
) -> Result<Option<Item>, NoMemory>
    requires count { count ≡ count_of (R.file rule.now) kind }
    requires before { IsFirstBelow (R.file rule.now) (R.rule rule.now) (kind_number kind) found }
    ensures { IfOk result (λ r. IsFirstBelow (R.file rule.now) (R.rule rule.now) (kind_number kind + 1) r) }
{
    match found {
        Some(item) => Ok(Some(item)),
        None => {
            let first = first_of_kind(alloc, rule, kind, count)?;
            Ok(first)
        }
    }
}

/// The first item of the file that breaks a rule.
#[tactic(auto, using(crate::proofs::FirstBroken::none_below, crate::proofs::FirstBroken::all_kinds))]
fn first_item<R: Rule>(alloc: Global, rule: &R) -> Result<Option<Item>, NoMemory>
    requires { IsFew (R.file rule.now) }
    ensures { IfOk result (λ r. IsFirstItem (R.file rule.now) (R.rule rule.now) r) }
{
    let abc = rule.abc();
    let found = or_of_kind(alloc, rule, None, ItemKind::File, 1)?;
    let found = or_of_kind(
        alloc,
        rule,
        found,
        ItemKind::Method,
        abc.methods.len() as u32,
    )?;
    let found = or_of_kind(
        alloc,
        rule,
        found,
        ItemKind::Class,
        abc.instances.len() as u32,
    )?;
    let found = or_of_kind(
        alloc,
        rule,
        found,
        ItemKind::Script,
        abc.scripts.len() as u32,
    )?;
    or_of_kind(alloc, rule, found, ItemKind::Body, abc.bodies.len() as u32)
}

/// Tries a rule on every item, where the rules before it hold.
#[tactic(auto, using(crate::proofs::FirstBroken::refused, crate::proofs::FirstBroken::one_more))]
pub fn check<R: Rule>(alloc: Global, rule: &R) -> Result<(), LinkError>
    requires few { IsFew (R.file rule.now) }
    requires before { AllHoldBefore (R.file rule.now) (rule_number (R.rule rule.now)) }
    ensures { MatchResult result (λ _. AllHoldBefore (R.file rule.now) (rule_number (R.rule rule.now) + 1))
        (IsLinkRefusal (R.file rule.now)) }
{
    match first_item(alloc, rule)? {
        Some(item) => Err(LinkError::Refused {
            rule: rule.rule(),
            item,
        }),
        None => Ok(()),
    }
}
