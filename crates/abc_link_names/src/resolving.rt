ghost use Rattle.std.specs.Prelude.{◌≡◌, None, find};
ghost use Rattle.abc_base_graphs.specs.Index.{first};
ghost use Rattle.abc_link_names.specs.Instances.{instance_at};
ghost use Rattle.abc_link_names.specs.Meaning.{class_name_of, class_or_host, is_definite_name, holds_public, is_class_named, resolve};
ghost use Rattle.abc_link_names.specs.Numbers.{classes_of};

use crate::hosts::host_named;
use crate::named::{DefiniteName, Named, PlainName};
use crate::names::Names;
use crate::pool::{definite_name_at, plain_name_at, text_at};

impl Names<'_> {
    /// The name of a class.
    #[tactic(auto, using(abc_base::proofs::Past::past_end))]
    fn class_name(&self, class: u32) -> Option<DefiniteName>
        ensures { result ≡ class_name_of self.now.abc.now (instance_at self.now.abc.now class) }
    {
        match self.abc.instances.find(class as usize) {
            Some(instance) => definite_name_at(self.abc, instance.name),
            None => definite_name_at(self.abc, 0),
        }
    }

    /// Whether a name names a class that has a definite name.
    fn names(&self, name: PlainName, class_name: Option<DefiniteName>) -> bool
        ensures { result ≡ is_definite_name self.now.abc.now name class_name }
    {
        match class_name {
            Some(definite) => {
                self.number(name.string) == self.number(definite.string)
                    && self.holds(name.spaces, definite.ns)
            }
            None => false,
        }
    }

    /// The first of some classes that a name names.
    fn first_among(&self, name: PlainName, classes: &[u32]) -> Option<u32>
        ensures { result
            ≡ find (λ i. is_class_named self.now.abc.now name (instance_at self.now.abc.now i)) classes.now }
    {
        for class in classes {
            if self.names(name, self.class_name(*class)) {
                return Some(*class);
            }
        }
        None
    }

    /// The classes of the file whose names have the text of a number, in order.
    #[tactic(auto, using(crate::proofs::InGroups::group_found, crate::proofs::InGroups::group_missing))]
    #[inline(always)]
    pub fn classes_of(&self, text: u32) -> &[u32]
        ensures { result.now ≡ classes_of self.now.abc.now self.now.tables.now.numbers text }
    {
        match self.tables.classes.get(&text) {
            Some(classes) => classes.as_slice(),
            None => &[],
        }
    }

    /// The first class of the file that a name names.
    fn class_named(&self, name: PlainName) -> Option<u32>
        ensures { result ≡ first (is_class_named self.now.abc.now name) self.now.abc.now.instances }
    {
        self.first_among(name, self.classes_of(self.number(name.string)))
    }

    /// What the host has under a name, of which is known whether one of its namespaces is public.
    #[inline(always)]
    pub fn host_class(&self, name: PlainName, public: bool) -> Option<Named>
        requires { public ≡ holds_public self.now.abc.now name.spaces }
        ensures { result ≡ class_or_host self.now.abc.now name None }
    {
        if public {
            host_named(text_at(self.abc, name.string))
        } else {
            None
        }
    }

    /// What a name stands for: the first class of the file that it names, else what the host has under its text.
    #[inline(always)]
    pub fn resolve(&self, name: u32) -> Option<Named>
        ensures { result ≡ resolve self.now.abc.now name }
    {
        let plain = plain_name_at(self.abc, name)?;
        match self.class_named(plain) {
            Some(class) => Some(Named::Class(class)),
            None => self.host_class(plain, self.holds_public(plain.spaces)),
        }
    }
}
