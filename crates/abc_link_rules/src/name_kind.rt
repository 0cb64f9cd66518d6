ghost use Rattle.std.specs.Prelude.{◌≡◌, nat_eq, not};
ghost use Rattle.std.specs.List.{list_any};
ghost use Rattle.abc_link_names.specs.ItemTypes.{breaks_name_kind, has_bad_name as has_bad, has_bad_variable as is_bad_variable, is_definite as is_definite_name, is_type_name as is_type};
ghost use Rattle.abc_link_names.specs.declared.items.LinkRule.TheVariants as rules;

use abc_base::NoMemory;
use abc_file_types::{Abc, Handler, TraitInfo};
use abc_link_names::{
    Item, ItemKind, LinkRule, Rule, TypeTest, any_type, class_name, definite_name_at, handlers,
    instance_table, interface_names, is_plain_at, own_table, super_name,
};
use std::alloc::Global;

/// Every name is of a kind that its place takes.
#[derive(Clone, Copy, Debug)]
pub(crate) struct NameKind<'a> {
    pub abc: &'a Abc,
}

/// Whether a name is a QName with a namespace and a name.
fn is_definite(abc: &Abc, name: u32) -> bool
    ensures { result ≡ is_definite_name abc.now name }
{
    definite_name_at(abc, name).is_some()
}

/// Whether a name is a QName or a Multiname, or 0.
fn is_type_name(abc: &Abc, name: u32) -> bool
    ensures { result ≡ is_type abc.now name }
{
    name == 0 || is_plain_at(abc, name)
}

impl TypeTest for NameKind<'_> {
    ghost fails = { λ t n. not (is_type t.abc.now n) };

    fn fails(&self, name: u32) -> bool {
        !is_type_name(self.abc, name)
    }
}

/// Whether a name of a table is no QName with a namespace and a name.
fn has_bad_trait(abc: &Abc, table: &[TraitInfo]) -> bool
    ensures { result ≡ list_any (λ t. not (is_definite_name abc.now t.name)) table.now }
{
    for info in table {
        if !is_definite(abc, info.name) {
            return true;
        }
    }
    false
}

/// Whether one of several names is no name of a type.
fn has_bad_type(abc: &Abc, names: &[u32]) -> bool
    ensures { result ≡ list_any (λ n. not (is_type abc.now n)) names.now }
{
    for name in names {
        if !is_type_name(abc, *name) {
            return true;
        }
    }
    false
}

/// Whether an exception binds its value to a name of another kind.
fn has_bad_variable(abc: &Abc, handler: Handler) -> bool
    ensures { result ≡ is_bad_variable abc.now handler }
{
    handler.var_name != 0 && !is_definite(abc, handler.var_name)
}

/// Whether an exception of a body binds its value to a name of another kind.
fn has_bad_handler(abc: &Abc, body: u32) -> bool
    ensures { result ≡ has_bad abc.now ItemKind.Body body }
{
    for handler in handlers(abc, body) {
        if has_bad_variable(abc, *handler) {
            return true;
        }
    }
    false
}

/// Whether a class's name, or that of its base or of an interface, is of another kind.
fn has_bad_class_name(abc: &Abc, class: u32) -> bool
    ensures { result ≡ has_bad abc.now ItemKind.Class class }
{
    !is_definite(abc, class_name(abc, class))
        || !is_type_name(abc, super_name(abc, class))
        || has_bad_type(abc, interface_names(abc, class))
}

/// Whether a name of an item itself is of another kind.
fn has_bad_name(abc: &Abc, item: Item) -> bool
    ensures { result ≡ has_bad abc.now item.kind item.index }
{
    match item.kind {
        ItemKind::Class => has_bad_class_name(abc, item.index),
        ItemKind::Body => has_bad_handler(abc, item.index),
        _ => false,
    }
}

impl NameKind<'_> {
    /// Whether a name of an item is of another kind.
    fn breaks(&self, item: Item) -> bool
        ensures { result ≡ breaks_name_kind self.now.abc.now item.kind item.index }
    {
        has_bad_name(self.abc, item)
            || has_bad_trait(self.abc, instance_table(self.abc, item))
            || has_bad_trait(self.abc, own_table(self.abc, item))
            || any_type(self, self.abc, item)
    }
}

impl Rule for NameKind<'_> {
    ghost file = { λ r. r.abc.now };

    ghost rule = { λ _. rules.NameKind };

    fn rule(&self) -> LinkRule {
        LinkRule::NameKind
    }

    fn abc(&self) -> &Abc {
        self.abc
    }

    fn is_broken(&self, _alloc: Global, item: Item) -> Result<bool, NoMemory> {
        Ok(self.breaks(item))
    }
}
