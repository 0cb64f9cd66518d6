ghost use Rattle.std.specs.Prelude.{◌≡◌, IsSome, Some, slice_get};
ghost use Rattle.abc_link_names.specs.Owners.{body_of};
ghost use Rattle.abc_run_state.specs.Outer.{Outer, setting_in};
ghost use Rattle.abc_run_state.specs.Turns.{size_of_routine};
ghost use Rattle.abc_verify_typing.specs.Routines.{takes_array as takes_array_so};
ghost use Rattle.abc_meaning.specs.Setting.{may_take_arguments as may_take_so, routine_of};
ghost use Rattle.abc_run_calls.specs.Entering.{entry_for, place_in_meaning};

use abc_file_types::{Method, has_flag};
use abc_frames::{Entry, Size};
use abc_link::Linked;
use abc_run_state::Place;

/// The flag of a method that takes an array of all arguments.
pub(crate) const ARGUMENTS: u8 = 0x01;

/// The flag of a method that takes an array of the arguments behind its parameters.
pub(crate) const REST: u8 = 0x04;

/// A method of the file.
pub fn method_at(linked: &Linked, method: u32) -> &Method
    requires { IsSome (slice_get linked.now.file.methods method) }
    ensures { slice_get linked.now.file.methods method ≡ Some result.now }
{
    match linked.abc().methods.find(method as usize) {
        Some(found) => found,
        None => unreachable!(),
    }
}

/// Whether a method takes an array.
pub(crate) fn takes_array(flags: u8) -> bool
    ensures { result ≡ takes_array_so flags }
{
    has_flag(flags, ARGUMENTS) || has_flag(flags, REST)
}

/// Whether a method takes so many arguments: those that are missing have options, and there are too many only where an array
/// takes them.
pub fn may_take(method: &Method, count: u32) -> bool
    ensures { result ≡ may_take_so method.now count }
{
    let params = method.params.len();
    let least = params.saturating_sub(method.options.len());
    let count = count as usize;
    least <= count && (count <= params || takes_array(method.flags))
}

/// What the frame of a method may keep.
fn size_of(linked: &Linked, method: u32) -> Size
    requires { IsSome (body_of linked.now.file method) }
    ensures { (out : Outer) → result ≡ size_of_routine (routine_of (setting_in linked.now out) method) }
{
    let Some(number) = linked.body_of(method) else {
        unreachable!()
    };
    let body = linked.abc().bodies.get(number as usize);
    Size {
        locals: body.local_count,
        stack: body.max_stack,
        scopes: body.max_scope.saturating_sub(body.init_scope),
    }
}

/// What a method that is entered brings: where it runs, and what its frame may keep.
pub fn entry_of(linked: &Linked, method: u32, at: Place) -> Entry
    requires { IsSome (body_of linked.now.file method) }
    ensures { (out : Outer) → result ≡ entry_for (setting_in linked.now out) method (place_in_meaning at) }
{
    Entry {
        method,
        home: at.home,
        saved: at.saved,
        size: size_of(linked, method),
    }
}
