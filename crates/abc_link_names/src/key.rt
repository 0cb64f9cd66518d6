ghost use Rattle.std.specs.Prelude.{◌≡◌};
ghost use Rattle.abc_link_names.specs.Places.{host_number as number_of_host, key_with, part_key as key_of};

use crate::part::Part;
use abc_base::HostClass;

/// A part as numbers, by which it is found.
#[derive(Clone, Copy, Debug, PartialEq, Eq, Hash)]
pub struct PartKey {
    pub kind: u32,
    pub number: u32,
    pub exception: u32,
}

fn host_number(host: HostClass) -> u32
    ensures { result ≡ number_of_host host }
{
    match host {
        HostClass::Object => 0,
        HostClass::Class => 1,
        HostClass::Function => 2,
        HostClass::Namespace => 3,
        HostClass::Str => 4,
        HostClass::Int => 5,
        HostClass::UInt => 6,
        HostClass::Number => 7,
        HostClass::Boolean => 8,
        HostClass::Error => 9,
        HostClass::TypeError => 10,
        HostClass::ReferenceError => 11,
        HostClass::ArgumentError => 12,
        HostClass::Array => 13,
    }
}

fn with(kind: u32, number: u32, exception: u32) -> PartKey
    ensures { result ≡ key_with kind number exception }
{
    PartKey {
        kind,
        number,
        exception,
    }
}

/// The numbers of a part.
pub fn part_key(part: Part) -> PartKey
    ensures { result ≡ key_of part }
{
    match part {
        Part::Host(host) => with(0, host_number(host), 0),
        Part::Instance(class) => with(1, class, 0),
        Part::ClassObject(class) => with(2, class, 0),
        Part::HostClassObject(host) => with(3, host_number(host), 0),
        Part::Global(script) => with(4, script, 0),
        Part::Activation(body) => with(5, body, 0),
        Part::Catch(body, exception) => with(6, body, exception),
    }
}
