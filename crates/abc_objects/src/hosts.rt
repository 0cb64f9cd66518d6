ghost use Rattle.std.specs.Prelude.{◌≡◌};
ghost use Rattle.abc_link_names.specs.Places.{host_number};

use abc_base::HostClass;
use abc_link_names::{Part, part_key};

/// The position of a host class among the fourteen.
pub(crate) fn class_number(class: HostClass) -> u32
    ensures { result ≡ host_number class }
{
    part_key(Part::Host(class)).number
}
