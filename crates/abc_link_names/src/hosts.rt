ghost use Rattle.std.specs.Prelude.{◌≡◌};
ghost use Rattle.abc_link_names.specs.Meaning.{host_among as among, host_named as host_of};

use crate::named::Named;
use abc_base::{HOST_CLASSES, HostClass};

/// What there is under a text, where the host has these classes.
fn host_among(hosts: &[HostClass], text: &[u8]) -> Option<Named>
    ensures { result ≡ among hosts.now text.now }
{
    for host in hosts {
        if text == host.name() {
            return Some(Named::Host(*host));
        }
    }
    if text == b"void".as_slice() {
        Some(Named::Void)
    } else {
        None
    }
}

/// What the host has under a text.
pub(crate) fn host_named(text: &[u8]) -> Option<Named>
    ensures { result ≡ host_of text.now }
{
    host_among(HOST_CLASSES.as_slice(), text)
}
