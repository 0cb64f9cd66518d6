ghost use Rattle.std.specs.Prelude.{◌≡◌};
ghost use Rattle.abc_link_names.specs.Instances.{instance_at};
ghost use Rattle.abc_link_names.specs.Pool.{same_space};
ghost use Rattle.abc_link_names.specs.Linked.{IsLayout};
ghost use Rattle.abc_objects.specs.Spaces.{above_zero as above_none, holds_trait_space as does_hold, holds_pooled as does_hold_pooled, name_holds_public as does_hold_public, is_protected as does_protect, protected_of as protected_in};

use abc_file_types::Abc;
use abc_link::Linked;
use abc_link_names::{LayoutId, Part};
use abc_objects::{Spaces, TraitSpace};

/// Whether a name holds the public namespace or any.
#[inline(always)]
pub fn holds_public(l: &Linked, spaces: Spaces) -> bool
    ensures { result ≡ does_hold_public l.now spaces }
{
    match spaces {
        Spaces::Any | Spaces::Public => true,
        Spaces::One(space) => l.is_public(space),
        Spaces::Set(index) => l.set_holds_public(index),
    }
}

/// Whether two namespaces of the pool are equal, as most often one is asked for itself.
#[inline(always)]
fn is_same_space(l: &Linked, a: u32, b: u32) -> bool
    ensures { result ≡ same_space l.now.file a b }
{
    if a == b {
        return true;
    }
    l.is_same_space(a, b)
}

/// Whether a name holds a namespace of the pool.
#[inline(always)]
pub fn holds_pooled(l: &Linked, spaces: Spaces, space: u32) -> bool
    ensures { result ≡ does_hold_pooled l.now spaces space }
{
    match spaces {
        Spaces::Any => true,
        Spaces::Public => l.is_public(space),
        Spaces::One(one) => is_same_space(l, space, one),
        Spaces::Set(index) => l.set_holds(index, space),
    }
}

/// Whether a name holds the namespace of a trait.
pub fn holds(l: &Linked, spaces: Spaces, space: TraitSpace) -> bool
    ensures { result ≡ does_hold l.now spaces space }
{
    match space {
        TraitSpace::Public => holds_public(l, spaces),
        TraitSpace::Pool(space) => holds_pooled(l, spaces, space),
    }
}

/// A namespace, where index 0 is none.
fn above_zero(space: Option<u32>) -> Option<u32>
    ensures { result ≡ above_none space }
{
    match space {
        Some(0) | None => None,
        Some(space) => Some(space),
    }
}

/// The protected namespace of a class of the file, as the file has it.
#[tactic(auto, using(abc_base::proofs::Past::past_end))]
fn protected_ns(abc: &Abc, class: u32) -> Option<u32>
    ensures { result ≡ (instance_at abc.now class).protected_ns }
{
    match abc.instances.find(class as usize) {
        Some(instance) => instance.protected_ns,
        None => None,
    }
}

/// The protected namespace of a layout's class, which a class of the file may have for its instances.
pub fn protected_of(l: &Linked, x: LayoutId) -> Option<u32>
    requires { IsLayout l.now x }
    ensures { result ≡ protected_in l.now x.0 }
{
    match l.part_of(x) {
        Part::Instance(class) => above_zero(protected_ns(l.abc(), class)),
        _ => None,
    }
}

/// Whether the namespace of a trait is the protected one of its layout's class.
pub fn is_protected(l: &Linked, x: LayoutId, space: TraitSpace) -> bool
    requires { IsLayout l.now x }
    ensures { result ≡ does_protect l.now x.0 space }
{
    match protected_of(l, x) {
        Some(protected) => match space {
            TraitSpace::Public => l.is_public(protected),
            TraitSpace::Pool(space) => l.is_same_space(protected, space),
        },
        None => false,
    }
}
