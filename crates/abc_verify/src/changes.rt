ghost use Rattle.std.specs.Prelude.{◌≡◌, ◌++◌, OnOk, drop, get_or, set};
ghost use Rattle.abc_link_names.specs.declared.types.Kind.TheVariants as kinds;
ghost use Rattle.abc_verify_typing.specs.Effects.{scope_kind};
ghost use Rattle.abc_verify.specs.Visits.{given_kinds, scopes_after_row};

use abc_base::{NoMemory, Table};
use abc_link::Linked;
use abc_link_names::Kind;
use abc_verify_states::kind_of_scope;
use abc_verify_typing::{Scope, Scoping, Stack};

/// The kinds of the values that are pushed, the top first.
#[derive(Clone, Copy, Debug)]
pub(crate) enum Given {
    Nothing,
    One(Kind),
    Two(Kind, Kind),
}

/// Takes so many values, and pushes others.
#[inline]
pub(crate) fn change_stack(
    stack: &mut Stack<Kind>,
    depth: usize,
    given: Given,
) -> Result<(), NoMemory>
    ensures { OnOk result (stack.new ≡ given_kinds given ++ drop depth stack.old) }
{
    stack.drop_top(depth);
    match given {
        Given::Nothing => Ok(()),
        Given::One(a) => {
            stack.push(a)?;
            Ok(())
        }
        Given::Two(a, b) => {
            stack.push(b)?;
            stack.push(a)?;
            Ok(())
        }
    }
}

/// Replaces the kind at a place, if there is one.
#[inline]
#[tactic(auto, using(crate::proofs::Asking::set_past))]
pub(crate) fn set_kind(kinds: &mut Table<Kind>, place: u32, kind: Kind)
    ensures { kinds.new ≡ set kinds.old place kind }
{
    if (place as usize) < kinds.len() {
        kinds.set(place as usize, kind);
    }
}

/// Pushes the value so deep as a scope, or pops a scope.
#[inline]
pub(crate) fn change_scopes(
    linked: &Linked,
    scopes: &mut Table<Scope>,
    scoping: Scoping,
    stack: &Stack<Kind>,
    depth: usize,
) -> Result<(), NoMemory>
    ensures { OnOk result (scopes.new
        ≡ scopes_after_row scoping (scope_kind linked.now (get_or stack.now depth kinds.Any))
        scopes.old) }
{
    match scoping {
        Scoping::Stays => Ok(()),
        Scoping::Pushes(is_with) => {
            let kind = kind_of_scope(linked, stack.get_or(depth, Kind::Any));
            scopes.push(Scope { kind, is_with })?;
            Ok(())
        }
        Scoping::Pops => {
            scopes.truncate(scopes.len().saturating_sub(1));
            Ok(())
        }
    }
}
