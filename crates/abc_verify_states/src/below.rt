ghost use Rattle.std.specs.Prelude.{◌≡◌, ◌<◌, ◌↔◌, IsTrue, get_or, length};
ghost use Rattle.abc_link_names.specs.Kinds.{IsAtMost};
ghost use Rattle.abc_link_names.specs.declared.types.Kind.TheVariants as kinds;
ghost use Rattle.abc_verify_typing.specs.Lists.{Each2};
ghost use Rattle.abc_verify_typing.specs.Typing.{HasOneShape, ScopeLe, StateLe};
ghost use Rattle.abc_verify_states.specs.Triples.{no_scope};

use crate::shape::{NO_SCOPE, at_or, is_same_flag};
use abc_base::Table;
use abc_kinds::{Tree, at_most};
use abc_link_names::Kind;
use abc_verify_typing::{Scope, Stack, State};

/// Whether a kind that stands in a list is another or below it. Mostly it is the other: then nothing is asked of the layouts, and only
/// what tells that is read.
#[inline]
#[tactic(auto, using(abc_link_names::proofs::Order::kind_self))]
fn is_kind_at_most<T: Tree>(tree: &T, a: &Kind, b: &Kind) -> bool
    ensures { IsTrue result ↔ IsAtMost (T.file tree.now) a.now b.now }
{
    if *a == *b {
        return true;
    }
    at_most(tree, *a, *b)
}

/// Whether a kind is another or below it.
#[inline]
fn is_at_most<T: Tree>(tree: &T, a: Kind, b: Kind) -> bool
    ensures { IsTrue result ↔ IsAtMost (T.file tree.now) a b }
{
    is_kind_at_most(tree, &a, &b)
}

/// Whether the operand at a depth is at most another.
fn is_operand_at_most<T: Tree>(tree: &T, a: &Stack<Kind>, b: &Stack<Kind>, depth: usize) -> bool
    ensures { IsTrue result
        ↔ IsAtMost (T.file tree.now) (get_or a.now depth kinds.Any) (get_or b.now depth kinds.Any) }
{
    let x = a.get_or(depth, Kind::Any);
    let y = b.get_or(depth, Kind::Any);
    is_at_most(tree, x, y)
}

/// Whether each operand is at most another.
#[inline(never)]
fn is_stack_at_most<T: Tree>(tree: &T, a: &Stack<Kind>, b: &Stack<Kind>) -> bool
    requires { length a.now ≡ length b.now }
    ensures { IsTrue result ↔ Each2 (IsAtMost (T.file tree.now)) a.now b.now }
{
    for depth in 0..a.len() {
        if !is_operand_at_most(tree, a, b, depth) {
            return false;
        }
    }
    true
}

/// Whether the local at a place is at most another.
fn is_local_at_most<T: Tree>(tree: &T, a: &Table<Kind>, b: &Table<Kind>, place: usize) -> bool
    requires first { place < length a.now }
    requires second { place < length b.now }
    ensures { IsTrue result
        ↔ IsAtMost (T.file tree.now) (get_or a.now place kinds.Any) (get_or b.now place kinds.Any) }
{
    let x = a.get(place);
    let y = b.get(place);
    is_kind_at_most(tree, x, y)
}

/// Whether each local is at most another.
#[inline(never)]
fn are_locals_at_most<T: Tree>(tree: &T, a: &Table<Kind>, b: &Table<Kind>) -> bool
    requires { length a.now ≡ length b.now }
    ensures { IsTrue result ↔ Each2 (IsAtMost (T.file tree.now)) a.now b.now }
{
    for place in 0..a.len() {
        if !is_local_at_most(tree, a, b, place) {
            return false;
        }
    }
    true
}

/// Whether a scope is at most another.
fn is_scope_at_most<T: Tree>(tree: &T, a: Scope, b: Scope) -> bool
    ensures { IsTrue result ↔ ScopeLe (T.file tree.now) a b }
{
    if !is_same_flag(a, b) {
        return false;
    }
    is_at_most(tree, a.kind, b.kind)
}

/// Whether the scope at a place is at most another.
fn is_scope_at_most_at<T: Tree>(tree: &T, a: &Table<Scope>, b: &Table<Scope>, place: usize) -> bool
    ensures { IsTrue result
        ↔ ScopeLe (T.file tree.now) (get_or a.now place no_scope) (get_or b.now place no_scope) }
{
    let x = at_or(a, place, NO_SCOPE);
    let y = at_or(b, place, NO_SCOPE);
    is_scope_at_most(tree, x, y)
}

/// Whether each scope is at most another.
#[inline(never)]
fn are_scopes_at_most<T: Tree>(tree: &T, a: &Table<Scope>, b: &Table<Scope>) -> bool
    requires { length a.now ≡ length b.now }
    ensures { IsTrue result ↔ Each2 (ScopeLe (T.file tree.now)) a.now b.now }
{
    for place in 0..a.len() {
        if !is_scope_at_most_at(tree, a, b, place) {
            return false;
        }
    }
    true
}

/// Whether a state is at most another of its shape.
pub(crate) fn is_state_at_most<T: Tree>(tree: &T, a: &State, b: &State) -> bool
    requires { HasOneShape a.now b.now }
    ensures { IsTrue result ↔ StateLe (T.file tree.now) a.now b.now }
{
    if !is_stack_at_most(tree, &a.stack, &b.stack) {
        return false;
    }
    if !are_scopes_at_most(tree, &a.scopes, &b.scopes) {
        return false;
    }
    are_locals_at_most(tree, &a.locals, &b.locals)
}
