ghost use Rattle.std.specs.Prelude.{◌≡◌, ◌↔◌, IsTrue, Any, Contains, codes};
ghost use Rattle.abc_base.specs.Hosts.{taken_names};
ghost use Rattle.abc_base.specs.Names.{class_name};

use crate::entry::Entry;
use abc_base::{HOST_CLASSES, HostClass};

/// Whether a class of the host has this name.
fn is_class_named(class: &HostClass, name: &[u8]) -> bool
    ensures { IsTrue result ↔ (class_name class.now ≡ name.now) }
{
    class.name() == name
}

/// Whether one of the classes has this name.
fn is_class_among(classes: &[HostClass], name: &[u8]) -> bool
    ensures { IsTrue result ↔ Any (λ class. class_name class ≡ name.now) classes.now }
{
    classes.iter().any(|class| is_class_named(class, name))
}

/// Whether a name is `trace`.
fn is_trace(name: &[u8]) -> bool
    ensures { IsTrue result ↔ (codes "trace" ≡ name.now) }
{
    name == b"trace".as_slice()
}

/// Whether the host object has a property of this name beside the formulas.
pub fn is_name_of_host(name: &[u8]) -> bool
    ensures { IsTrue result ↔ Contains taken_names name.now }
{
    is_trace(name) || is_class_among(&HOST_CLASSES, name)
}

/// Whether one of the entries has this name.
pub fn is_name_among(name: &[u8], entries: &[Entry]) -> bool
    ensures { IsTrue result ↔ Any (λ entry. entry.formula.name ≡ name.now) entries.now }
{
    for entry in entries {
        if entry.is_named(name) {
            return true;
        }
    }
    false
}
