ghost use Rattle.std.specs.Prelude.{◌≡◌};
ghost use Rattle.abc_link_names.specs.Slots.{handler_at, traits_of as traits_in};

use abc_file_types::{Abc, TraitInfo};
use abc_link_names::{Part, body_traits, class_traits, handlers, instance_traits, script_traits};

/// The own table of traits of a part; those of the host and catch objects have none.
#[inline(always)]
pub fn traits_of(abc: &Abc, part: Part) -> &[TraitInfo]
    ensures { result.now ≡ traits_in abc.now part }
{
    match part {
        Part::Instance(class) => instance_traits(abc, class),
        Part::ClassObject(class) => class_traits(abc, class),
        Part::Global(script) => script_traits(abc, script),
        Part::Activation(body) => body_traits(abc, body),
        Part::Host(_) | Part::HostClassObject(_) | Part::Catch(_, _) => &[],
    }
}

/// The type of an exception, as the name of it.
#[tactic(auto, using(abc_base::proofs::Past::past_end))]
pub(crate) fn exception_type(abc: &Abc, body: u32, exception: u32) -> u32
    ensures { result ≡ (handler_at abc.now body exception).exc_type }
{
    match handlers(abc, body).get(exception as usize) {
        Some(handler) => handler.exc_type,
        None => 0,
    }
}
