ghost use Rattle.std.specs.Prelude.{◌≡◌, ◌&&◌, ◌||◌, is_some, not};
ghost use Rattle.std.specs.List.{list_any};
ghost use Rattle.abc_link_names.specs.Meaning.{type_named};
ghost use Rattle.abc_link_names.specs.PartsByNumber.{body_at};
ghost use Rattle.abc_link_names.specs.Rules.{is_too_large};
ghost use Rattle.abc_link_names.specs.ItemTypes.{breaks_trait_not_run, is_body, is_no_slot as is_other, is_not_run as is_not_run_in, type_or_any};
ghost use Rattle.abc_link_names.specs.declared.items.LinkRule.TheVariants as rules;

use abc_base::NoMemory;
use abc_file_types::{Abc, Body, TraitBody, TraitInfo};
use abc_link_names::{
    Item, ItemKind, LinkRule, Meanings, Named, Rule, TypeTest, any_type, instance_table, own_table,
    start_of,
};
use std::alloc::Global;

/// There is a script.
#[derive(Clone, Copy, Debug)]
pub(crate) struct NoScript<'a> {
    pub abc: &'a Abc,
}

impl Rule for NoScript<'_> {
    ghost file = { λ r. r.abc.now };

    ghost rule = { λ _. rules.NoScript };

    fn rule(&self) -> LinkRule {
        LinkRule::NoScript
    }

    fn abc(&self) -> &Abc {
        self.abc
    }

    fn is_broken(&self, _alloc: Global, item: Item) -> Result<bool, NoMemory> {
        match item.kind {
            ItemKind::File => Ok(self.abc.scripts.len() == 0),
            _ => Ok(false),
        }
    }
}

/// Every type resolves.
#[derive(Clone, Copy)]
pub(crate) struct UnknownType<'a> {
    pub meanings: Meanings<'a>,
}

impl TypeTest for UnknownType<'_> {
    ghost fails = { λ t n. not (is_some (type_named t.meanings.abc.now n)) };

    fn fails(&self, name: u32) -> bool {
        self.meanings.type_named(name).is_none()
    }
}

impl Rule for UnknownType<'_> {
    ghost file = { λ r. r.meanings.abc.now };

    ghost rule = { λ _. rules.UnknownType };

    fn rule(&self) -> LinkRule {
        LinkRule::UnknownType
    }

    fn abc(&self) -> &Abc {
        self.meanings.abc
    }

    fn is_broken(&self, _alloc: Global, item: Item) -> Result<bool, NoMemory> {
        Ok(any_type(self, self.meanings.abc, item))
    }
}

/// Every trait is of a kind that is run, and each slot has a value to start at.
#[derive(Clone, Copy)]
pub(crate) struct TraitNotRun<'a> {
    pub meanings: Meanings<'a>,
}

/// What a type stands for; one that stands for nothing counts as the type any.
fn known_type(meanings: &Meanings<'_>, name: u32) -> Named
    ensures { result ≡ type_or_any (type_named meanings.now.abc.now name) }
{
    match meanings.type_named(name) {
        Some(named) => named,
        None => Named::Any,
    }
}

/// Whether a trait is a Function trait, or a slot without a value to start at.
fn is_not_run(meanings: &Meanings<'_>, body: TraitBody) -> bool
    ensures { result ≡ is_not_run_in meanings.now.abc.now body }
{
    match body {
        TraitBody::Slot { ty, value, .. } => {
            start_of(meanings.abc, known_type(meanings, ty), value).is_none()
        }
        TraitBody::Function { .. } => true,
        _ => false,
    }
}

/// Whether a trait is no slot.
fn is_no_slot(body: TraitBody) -> bool
    ensures { result ≡ is_other body }
{
    match body {
        TraitBody::Slot { .. } => false,
        _ => true,
    }
}

impl TraitNotRun<'_> {
    /// Whether a trait of a table, which may be that of a body, is not run.
    fn any_not_run(&self, in_body: bool, table: &[TraitInfo]) -> bool
        ensures { result
            ≡ list_any (λ t. is_not_run_in self.now.meanings.abc.now t.body || (in_body && is_other t.body))
            table.now }
    {
        for info in table {
            if is_not_run(&self.meanings, info.body) || in_body && is_no_slot(info.body) {
                return true;
            }
        }
        false
    }

    fn breaks(&self, item: Item) -> bool
        ensures { result ≡ breaks_trait_not_run self.now.meanings.abc.now item.kind item.index }
    {
        let abc = self.meanings.abc;
        let in_body = is_body_item(item.kind);
        self.any_not_run(in_body, instance_table(abc, item))
            || self.any_not_run(in_body, own_table(abc, item))
    }
}

fn is_body_item(kind: ItemKind) -> bool
    ensures { result ≡ is_body kind }
{
    matches!(kind, ItemKind::Body)
}

impl Rule for TraitNotRun<'_> {
    ghost file = { λ r. r.meanings.abc.now };

    ghost rule = { λ _. rules.TraitNotRun };

    fn rule(&self) -> LinkRule {
        LinkRule::TraitNotRun
    }

    fn abc(&self) -> &Abc {
        self.meanings.abc
    }

    fn is_broken(&self, _alloc: Global, item: Item) -> Result<bool, NoMemory> {
        Ok(self.breaks(item))
    }
}

/// No size of a body is above 65,535.
#[derive(Clone, Copy, Debug)]
pub(crate) struct TooLarge<'a> {
    pub abc: &'a Abc,
}

/// Whether a size of a body is above 65,535.
fn is_body_too_large(body: &Body) -> bool
    ensures { result ≡ is_too_large body.now }
{
    body.max_stack > 65535 || body.local_count > 65535 || body.max_scope > 65535
}

/// Whether a body of a file has a size above 65,535.
#[tactic(auto, using(abc_base::proofs::Past::past_end))]
fn is_too_large_at(abc: &Abc, body: u32) -> bool
    ensures { result ≡ is_too_large (body_at abc.now body) }
{
    match abc.bodies.find(body as usize) {
        Some(body) => is_body_too_large(body),
        None => false,
    }
}

impl Rule for TooLarge<'_> {
    ghost file = { λ r. r.abc.now };

    ghost rule = { λ _. rules.TooLarge };

    fn rule(&self) -> LinkRule {
        LinkRule::TooLarge
    }

    fn abc(&self) -> &Abc {
        self.abc
    }

    fn is_broken(&self, _alloc: Global, item: Item) -> Result<bool, NoMemory> {
        match item.kind {
            ItemKind::Body => Ok(is_too_large_at(self.abc, item.index)),
            _ => Ok(false),
        }
    }
}
