ghost use Rattle.std.specs.Prelude.{◌≡◌, ◌<◌, Some, length, slice_get, IsTrue};
ghost use Rattle.abc_link_names.specs.Kinds.{IsAtMost};
ghost use Rattle.abc_link_names.specs.Linked.{IsLinkedFile};
ghost use Rattle.abc_verify_typing.specs.Lists.{Each2};
ghost use Rattle.abc_verify_typing.specs.Typing.{ScopeLe};

use crate::flow::Flow;
use abc_link_names::Kind;
use abc_verify_typing::{Scope, Stack};

/// Whether a kind is seen by the join of both to be at most another.
#[inline(never)]
#[tactic(auto, using(crate::proofs::Lists::joined_below))]
fn is_joined_below<F: Flow>(flow: &F, a: Kind, b: Kind) -> bool
    requires { IsLinkedFile (F.file flow.now) }
    ensures { IsTrue result → IsAtMost (F.file flow.now) a b }
{
    flow.join(b, a) == b
}

/// Whether a kind is seen to be another or below it. Mostly it is the other, and nothing is asked of the layouts.
#[inline]
#[tactic(auto, using(abc_link_names::proofs::Order::kind_self))]
fn is_below<F: Flow>(flow: &F, a: &Kind, b: &Kind) -> bool
    requires { IsLinkedFile (F.file flow.now) }
    ensures { IsTrue result → IsAtMost (F.file flow.now) a.now b.now }
{
    if *a == *b {
        return true;
    }
    is_joined_below(flow, *a, *b)
}

/// The value at a place.
#[inline]
fn value_at<T>(list: &[T], place: usize) -> &T
    requires { place < length list.now }
    ensures { slice_get list.now place ≡ Some result.now }
{
    &list[place]
}

/// Whether a scope is seen to be at most another.
#[inline]
fn is_scope_below<F: Flow>(flow: &F, a: &Scope, b: &Scope) -> bool
    requires { IsLinkedFile (F.file flow.now) }
    ensures { IsTrue result → ScopeLe (F.file flow.now) a.now b.now }
{
    if a.is_with != b.is_with {
        return false;
    }
    is_below(flow, &a.kind, &b.kind)
}

/// Whether a kind is another.
#[inline]
fn is_same(a: &Kind, b: &Kind) -> bool
    ensures { IsTrue result → a.now ≡ b.now }
{
    *a == *b
}

/// Whether kinds are others.
pub(crate) fn are_same(kinds: &[Kind], others: &[Kind]) -> bool
    ensures { IsTrue result → kinds.now ≡ others.now }
{
    if kinds.len() != others.len() {
        return false;
    }
    for place in 0..kinds.len() {
        if !is_same(value_at(kinds, place), value_at(others, place)) {
            return false;
        }
    }
    true
}

/// Whether kinds are seen to be others or below them.
pub(crate) fn are_below<F: Flow>(flow: &F, kinds: &[Kind], others: &[Kind]) -> bool
    requires { IsLinkedFile (F.file flow.now) }
    ensures { IsTrue result → Each2 (IsAtMost (F.file flow.now)) kinds.now others.now }
{
    if kinds.len() != others.len() {
        return false;
    }
    for place in 0..kinds.len() {
        if !is_below(flow, value_at(kinds, place), value_at(others, place)) {
            return false;
        }
    }
    true
}

/// Whether scopes are seen to be at most others.
pub(crate) fn are_scopes_below<F: Flow>(flow: &F, scopes: &[Scope], others: &[Scope]) -> bool
    requires { IsLinkedFile (F.file flow.now) }
    ensures { IsTrue result → Each2 (ScopeLe (F.file flow.now)) scopes.now others.now }
{
    if scopes.len() != others.len() {
        return false;
    }
    for place in 0..scopes.len() {
        if !is_scope_below(flow, value_at(scopes, place), value_at(others, place)) {
            return false;
        }
    }
    true
}

/// Whether the operands on a stack are seen to be others or below them, which lie in a list, the top first.
pub(crate) fn are_operands_below<F: Flow>(flow: &F, stack: &Stack<Kind>, others: &[Kind]) -> bool
    requires { IsLinkedFile (F.file flow.now) }
    ensures { IsTrue result → Each2 (IsAtMost (F.file flow.now)) stack.now others.now }
{
    if stack.len() != others.len() {
        return false;
    }
    for depth in 0..others.len() {
        let operand = stack.get_or(depth, Kind::Any);
        if !is_below(flow, &operand, value_at(others, depth)) {
            return false;
        }
    }
    true
}
