ghost use Rattle.std.specs.Prelude.{◌≡◌, ◌<◌, length};
ghost use Rattle.abc_link_names.specs.Methods.{breaks_no_body, breaks_owned_twice, methods_named as named_in, methods_run as run_in, methods_with_bodies as bodies_in};
ghost use Rattle.abc_link_rules.specs.Times.{AreTimes};
ghost use Rattle.abc_link_names.specs.declared.items.LinkRule.TheVariants as rules;

use abc_base::NoMemory;
use abc_file_types::Abc;
use abc_link_names::{Item, ItemKind, LinkRule, Rule};
use std::alloc::Global;

/// No method is named twice.
#[derive(Clone, Copy, Debug)]
pub(crate) struct OwnedTwice<'a> {
    pub abc: &'a Abc,
    /// How often each method is named.
    pub named: &'a [u32],
    ghost counted: { AreTimes named.now (named_in abc.now) (length abc.now.methods) },
}

impl OwnedTwice<'_> {
    fn breaks(&self, method: u32) -> bool
        requires { method < length self.now.abc.now.methods }
        ensures { result ≡ breaks_owned_twice self.now.abc.now method }
    {
        self.named[method as usize] > 1
    }
}

impl Rule for OwnedTwice<'_> {
    ghost file = { λ r. r.abc.now };

    ghost rule = { λ _. rules.OwnedTwice };

    fn rule(&self) -> LinkRule {
        LinkRule::OwnedTwice
    }

    fn abc(&self) -> &Abc {
        self.abc
    }

    fn is_broken(&self, _alloc: Global, item: Item) -> Result<bool, NoMemory> {
        match item.kind {
            ItemKind::Method => Ok(self.breaks(item.index)),
            _ => Ok(false),
        }
    }
}

/// Every method that is run has a body.
#[derive(Clone, Copy, Debug)]
pub(crate) struct NoBody<'a> {
    pub abc: &'a Abc,
    /// How often each method is named where it is run.
    pub run: &'a [u32],
    /// How many bodies each method has.
    pub bodies: &'a [u32],
    ghost run_counted: { AreTimes run.now (run_in abc.now) (length abc.now.methods) },
    ghost bodies_counted: { AreTimes bodies.now (bodies_in abc.now) (length abc.now.methods) },
}

impl NoBody<'_> {
    fn breaks(&self, method: u32) -> bool
        requires { method < length self.now.abc.now.methods }
        ensures { result ≡ breaks_no_body self.now.abc.now method }
    {
        self.run[method as usize] > 0 && self.bodies[method as usize] == 0
    }
}

impl Rule for NoBody<'_> {
    ghost file = { λ r. r.abc.now };

    ghost rule = { λ _. rules.NoBody };

    fn rule(&self) -> LinkRule {
        LinkRule::NoBody
    }

    fn abc(&self) -> &Abc {
        self.abc
    }

    fn is_broken(&self, _alloc: Global, item: Item) -> Result<bool, NoMemory> {
        match item.kind {
            ItemKind::Method => Ok(self.breaks(item.index)),
            _ => Ok(false),
        }
    }
}
