ghost use Rattle.std.specs.Prelude.{◌≡◌, ◌<◌, ◌↔◌, IsTrue, get_or, length};
ghost use Rattle.abc_link_names.specs.declared.types.Kind.TheVariants as kinds;
ghost use Rattle.abc_verify_typing.specs.Lists.{Each2};
ghost use Rattle.abc_verify_typing.specs.Typing.{HasOneFlag, HasOneShape};
ghost use Rattle.abc_verify_states.specs.Triples.{no_scope};

use abc_base::Table;
use abc_link_names::Kind;
use abc_verify_typing::{Scope, Stack, State};

/// A scope that stands where none is.
pub(crate) const NO_SCOPE: Scope = Scope {
    kind: Kind::Any,
    is_with: false,
};

/// The value at a place, or another where the list ends before it.
#[tactic(auto, using(abc_base::proofs::Past::past_end, crate::proofs::Pairs::found))]
pub(crate) fn at_or<T: Copy + Drop>(items: &Table<T>, place: usize, other: T) -> T
    ensures { result ≡ get_or items.now place other }
{
    match items.fetch(place) {
        Some(item) => item,
        None => other,
    }
}

/// The local at a place.
#[inline]
#[tactic(auto, using(crate::proofs::Pairs::there))]
pub(crate) fn local_at(locals: &Table<Kind>, place: usize) -> Kind
    requires { place < length locals.now }
    ensures { result ≡ get_or locals.now place kinds.Any }
{
    *locals.get(place)
}

/// Whether two scopes have one flag.
pub(crate) fn is_same_flag(a: Scope, b: Scope) -> bool
    ensures { IsTrue result ↔ HasOneFlag a b }
{
    a.is_with == b.is_with
}

/// Whether the scopes at a place have one flag.
fn has_same_flag(a: &Table<Scope>, b: &Table<Scope>, place: usize) -> bool
    ensures { IsTrue result ↔ HasOneFlag (get_or a.now place no_scope) (get_or b.now place no_scope) }
{
    let x = at_or(a, place, NO_SCOPE);
    let y = at_or(b, place, NO_SCOPE);
    is_same_flag(x, y)
}

/// Whether the scopes of two lists of one length have the same flags.
fn have_flags(a: &Table<Scope>, b: &Table<Scope>) -> bool
    requires { length a.now ≡ length b.now }
    ensures { IsTrue result ↔ Each2 HasOneFlag a.now b.now }
{
    for place in 0..a.len() {
        if !has_same_flag(a, b, place) {
            return false;
        }
    }
    true
}

/// Whether two lists are of one length.
fn has_same_count<T: Drop>(a: &Table<T>, b: &Table<T>) -> bool
    ensures { IsTrue result ↔ (length a.now ≡ length b.now) }
{
    a.len() == b.len()
}

/// Whether two stacks are of one depth.
fn has_same_depth(a: &Stack<Kind>, b: &Stack<Kind>) -> bool
    ensures { IsTrue result ↔ (length a.now ≡ length b.now) }
{
    a.len() == b.len()
}

/// Whether there are as many scopes, with the same flags.
fn have_same_flags(a: &Table<Scope>, b: &Table<Scope>) -> bool
    ensures { IsTrue result ↔ Each2 HasOneFlag a.now b.now }
{
    if !has_same_count(a, b) {
        return false;
    }
    have_flags(a, b)
}

/// Whether two states have one shape.
pub(crate) fn have_one_shape(a: &State, b: &State) -> bool
    ensures { IsTrue result ↔ HasOneShape a.now b.now }
{
    if !has_same_depth(&a.stack, &b.stack) {
        return false;
    }
    if !has_same_count(&a.locals, &b.locals) {
        return false;
    }
    have_same_flags(&a.scopes, &b.scopes)
}
