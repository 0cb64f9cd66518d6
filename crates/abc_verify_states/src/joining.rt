ghost use Rattle.std.specs.Prelude.{◌≡◌, ◌<◌, IfOk, OnOk, get_or, length};
ghost use Rattle.abc_link_names.specs.Kinds.{IsJoin};
ghost use Rattle.abc_link_names.specs.declared.types.Kind.TheVariants as kinds;
ghost use Rattle.abc_verify_typing.specs.Lists.{Each2};
ghost use Rattle.abc_verify_typing.specs.Typing.{HasOneFlag, HasOneShape};
ghost use Rattle.abc_verify_flow.specs.Walking.{MergesTo};
ghost use Rattle.abc_verify_states.specs.Triples.{Each3, IsJoinScope, JoinsState, no_scope};

use crate::below::is_state_at_most;
use crate::shape::{NO_SCOPE, at_or, have_one_shape, local_at};
use abc_base::{NoMemory, Table};
use abc_kinds::{Tree, join};
use abc_link_names::Kind;
use abc_verify_flow::Merged;
use abc_verify_typing::{Scope, Stack, State};

/// The join of two kinds. Mostly they are equal, and nothing is asked of the layouts.
#[inline]
#[tactic(auto, using(crate::proofs::Threes::join_self))]
fn join_kinds<T: Tree>(tree: &T, x: Kind, y: Kind) -> Kind
    ensures { IsJoin (T.file tree.now) x y result }
{
    if x == y {
        return x;
    }
    join(tree, x, y)
}

/// The join of the operands at a depth.
fn join_operands<T: Tree>(tree: &T, a: &Stack<Kind>, b: &Stack<Kind>, depth: usize) -> Kind
    ensures { IsJoin (T.file tree.now) (get_or a.now depth kinds.Any) (get_or b.now depth kinds.Any) result }
{
    let x = a.get_or(depth, Kind::Any);
    let y = b.get_or(depth, Kind::Any);
    join_kinds(tree, x, y)
}

/// The joins of the operands, in place of what stood in another stack.
fn join_stacks<T: Tree>(
    tree: &T,
    a: &Stack<Kind>,
    b: &Stack<Kind>,
    stack: &mut Stack<Kind>,
) -> Result<(), NoMemory>
    requires { length a.now ≡ length b.now }
    ensures { OnOk result (Each3 (IsJoin (T.file tree.now)) a.now b.now stack.new) }
{
    stack.clear();
    let mut depth = a.len();
    while depth > 0 {
        depth -= 1;
        let joined = join_operands(tree, a, b, depth);
        stack.push(joined)?;
    }
    Ok(())
}

/// The join of the locals at a place.
fn join_locals_at<T: Tree>(tree: &T, a: &Table<Kind>, b: &Table<Kind>, place: usize) -> Kind
    requires first { place < length a.now }
    requires second { place < length b.now }
    ensures { IsJoin (T.file tree.now) (get_or a.now place kinds.Any) (get_or b.now place kinds.Any) result }
{
    let x = local_at(a, place);
    let y = local_at(b, place);
    join_kinds(tree, x, y)
}

/// The joins of the locals, in place of what stood in another list.
fn join_locals<T: Tree>(
    tree: &T,
    a: &Table<Kind>,
    b: &Table<Kind>,
    locals: &mut Table<Kind>,
) -> Result<(), NoMemory>
    requires { length a.now ≡ length b.now }
    ensures { OnOk result (Each3 (IsJoin (T.file tree.now)) a.now b.now locals.new) }
{
    locals.truncate(0);
    for place in 0..a.len() {
        let joined = join_locals_at(tree, a, b, place);
        locals.push(joined)?;
    }
    Ok(())
}

/// The join of two scopes of one flag.
fn join_scope<T: Tree>(tree: &T, a: Scope, b: Scope) -> Scope
    requires { HasOneFlag a b }
    ensures { IsJoinScope (T.file tree.now) a b result }
{
    let kind = join_kinds(tree, a.kind, b.kind);
    Scope {
        kind,
        is_with: a.is_with,
    }
}

/// The join of the scopes at a place.
fn join_scopes_at<T: Tree>(tree: &T, a: &Table<Scope>, b: &Table<Scope>, place: usize) -> Scope
    requires { HasOneFlag (get_or a.now place no_scope) (get_or b.now place no_scope) }
    ensures { IsJoinScope (T.file tree.now) (get_or a.now place no_scope) (get_or b.now place no_scope)
        result }
{
    let x = at_or(a, place, NO_SCOPE);
    let y = at_or(b, place, NO_SCOPE);
    join_scope(tree, x, y)
}

/// The joins of the scopes, in place of what stood in another list.
fn join_scopes<T: Tree>(
    tree: &T,
    a: &Table<Scope>,
    b: &Table<Scope>,
    scopes: &mut Table<Scope>,
) -> Result<(), NoMemory>
    requires sized { length a.now ≡ length b.now }
    requires flags { Each2 HasOneFlag a.now b.now }
    ensures { OnOk result (Each3 (IsJoinScope (T.file tree.now)) a.now b.now scopes.new) }
{
    scopes.truncate(0);
    for place in 0..a.len() {
        let joined = join_scopes_at(tree, a, b, place);
        scopes.push(joined)?;
    }
    Ok(())
}

/// The joins of two states of one shape, in place of what stood in another state.
fn join_states<T: Tree>(tree: &T, a: &State, b: &State, joined: &mut State) -> Result<(), NoMemory>
    requires { HasOneShape a.now b.now }
    ensures { OnOk result (JoinsState (T.file tree.now) a.now b.now joined.new) }
{
    join_stacks(tree, &a.stack, &b.stack, &mut joined.stack)?;
    join_scopes(tree, &a.scopes, &b.scopes, &mut joined.scopes)?;
    join_locals(tree, &a.locals, &b.locals, &mut joined.locals)?;
    Ok(())
}

/// Two states of one place together: whether the second is at most the first; else, where they have one shape, the least state
/// above both takes the place of another, whose memory is used again.
pub fn merge<T: Tree>(
    tree: &T,
    old: &State,
    next: &State,
    joined: &mut State,
) -> Result<Merged, NoMemory>
    ensures { IfOk result (λ m. MergesTo (T.file tree.now) old.now next.now joined.new m) }
{
    tree.linked_law();
    if !have_one_shape(old, next) {
        return Ok(Merged::Unequal);
    }
    if is_state_at_most(tree, next, old) {
        return Ok(Merged::Same);
    }
    join_states(tree, old, next, joined)?;
    Ok(Merged::Joined)
}
