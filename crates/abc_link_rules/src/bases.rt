ghost use Rattle.std.specs.Prelude.{◌≡◌, not};
ghost use Rattle.std.specs.List.{list_any};
ghost use Rattle.abc_link_names.specs.Meaning.{resolve};
ghost use Rattle.abc_link_names.specs.Bases.{base_named, breaks_unknown_base, breaks_unknown_interface, is_final as is_final_class, is_final_base as is_final_named, is_interface_named as is_interface_of, is_some_class as is_class_named, may_be_base as may_be};
ghost use Rattle.abc_link_names.specs.declared.items.LinkRule.TheVariants as rules;

use abc_base::{HostClass, NoMemory};
use abc_file_types::{Abc, has_flag};
use abc_link_names::{
    Item, ItemKind, LinkRule, Meanings, Named, Rule, class_flags, interface_names, is_interface,
    super_name,
};
use std::alloc::Global;

/// The flag of a class that is no base.
const FINAL: u8 = 0x02;

/// Whether a class is final.
fn is_final(abc: &Abc, class: u32) -> bool
    ensures { result ≡ is_final_class abc.now class }
{
    has_flag(class_flags(abc, class), FINAL)
}

/// Whether a class of the host may be a base.
fn may_be_base(host: HostClass) -> bool
    ensures { result ≡ may_be host }
{
    matches!(
        host,
        HostClass::Object
            | HostClass::Error
            | HostClass::TypeError
            | HostClass::ReferenceError
            | HostClass::ArgumentError
    )
}

/// Whether a name stands for a class.
fn is_some_class(named: Option<Named>) -> bool
    ensures { result ≡ is_class_named named }
{
    matches!(named, Some(Named::Class(_) | Named::Host(_)))
}

/// Whether a name stands for a final class, or a class of the host that may be no base.
fn is_final_base(abc: &Abc, named: Option<Named>) -> bool
    ensures { result ≡ is_final_named abc.now named }
{
    match named {
        Some(Named::Class(class)) => is_final(abc, class),
        Some(Named::Host(host)) => !may_be_base(host),
        _ => false,
    }
}

/// Whether a name stands for an interface of the file.
pub(crate) fn is_interface_named(abc: &Abc, named: Option<Named>) -> bool
    ensures { result ≡ is_interface_of abc.now named }
{
    match named {
        Some(Named::Class(class)) => is_interface(abc, class),
        _ => false,
    }
}

/// What the name of a class's base stands for.
pub(crate) fn base_of(meanings: &Meanings<'_>, class: u32) -> Option<Named>
    ensures { result ≡ base_named meanings.now.abc.now class }
{
    meanings.resolve(super_name(meanings.abc, class))
}

/// Every base resolves to a class.
#[derive(Clone, Copy)]
pub(crate) struct UnknownBase<'a> {
    pub meanings: Meanings<'a>,
}

impl UnknownBase<'_> {
    fn breaks(&self, class: u32) -> bool
        ensures { result ≡ breaks_unknown_base self.now.meanings.abc.now class }
    {
        super_name(self.meanings.abc, class) != 0 && !is_some_class(base_of(&self.meanings, class))
    }
}

impl Rule for UnknownBase<'_> {
    ghost file = { λ r. r.meanings.abc.now };

    ghost rule = { λ _. rules.UnknownBase };

    fn rule(&self) -> LinkRule {
        LinkRule::UnknownBase
    }

    fn abc(&self) -> &Abc {
        self.meanings.abc
    }

    fn is_broken(&self, _alloc: Global, item: Item) -> Result<bool, NoMemory> {
        match item.kind {
            ItemKind::Class => Ok(self.breaks(item.index)),
            _ => Ok(false),
        }
    }
}

/// No base is final, or a class of the host that may be no base.
#[derive(Clone, Copy)]
pub(crate) struct FinalBase<'a> {
    pub meanings: Meanings<'a>,
}

impl Rule for FinalBase<'_> {
    ghost file = { λ r. r.meanings.abc.now };

    ghost rule = { λ _. rules.FinalBase };

    fn rule(&self) -> LinkRule {
        LinkRule::FinalBase
    }

    fn abc(&self) -> &Abc {
        self.meanings.abc
    }

    fn is_broken(&self, _alloc: Global, item: Item) -> Result<bool, NoMemory> {
        match item.kind {
            ItemKind::Class => Ok(is_final_base(
                self.meanings.abc,
                base_of(&self.meanings, item.index),
            )),
            _ => Ok(false),
        }
    }
}

/// No base is an interface.
#[derive(Clone, Copy)]
pub(crate) struct BaseIsInterface<'a> {
    pub meanings: Meanings<'a>,
}

impl Rule for BaseIsInterface<'_> {
    ghost file = { λ r. r.meanings.abc.now };

    ghost rule = { λ _. rules.BaseIsInterface };

    fn rule(&self) -> LinkRule {
        LinkRule::BaseIsInterface
    }

    fn abc(&self) -> &Abc {
        self.meanings.abc
    }

    fn is_broken(&self, _alloc: Global, item: Item) -> Result<bool, NoMemory> {
        match item.kind {
            ItemKind::Class => Ok(is_interface_named(
                self.meanings.abc,
                base_of(&self.meanings, item.index),
            )),
            _ => Ok(false),
        }
    }
}

/// Every interface name resolves to an interface of the file.
#[derive(Clone, Copy)]
pub(crate) struct UnknownInterface<'a> {
    pub meanings: Meanings<'a>,
}

impl UnknownInterface<'_> {
    /// Whether one of several names stands for no interface of the file.
    fn any_unknown(&self, names: &[u32]) -> bool
        ensures { result
            ≡ list_any
            (λ n. not (is_interface_of self.now.meanings.abc.now (resolve self.now.meanings.abc.now n)))
            names.now }
    {
        for name in names {
            if !is_interface_named(self.meanings.abc, self.meanings.resolve(*name)) {
                return true;
            }
        }
        false
    }

    fn breaks(&self, class: u32) -> bool
        ensures { result ≡ breaks_unknown_interface self.now.meanings.abc.now class }
    {
        self.any_unknown(interface_names(self.meanings.abc, class))
    }
}

impl Rule for UnknownInterface<'_> {
    ghost file = { λ r. r.meanings.abc.now };

    ghost rule = { λ _. rules.UnknownInterface };

    fn rule(&self) -> LinkRule {
        LinkRule::UnknownInterface
    }

    fn abc(&self) -> &Abc {
        self.meanings.abc
    }

    fn is_broken(&self, _alloc: Global, item: Item) -> Result<bool, NoMemory> {
        match item.kind {
            ItemKind::Class => Ok(self.breaks(item.index)),
            _ => Ok(false),
        }
    }
}
