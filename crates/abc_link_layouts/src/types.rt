ghost use Rattle.std.specs.Prelude.{◌≡◌};
ghost use Rattle.abc_link_layouts.specs.Laid.{HasPartPlaces};
ghost use Rattle.abc_link_names.specs.Types.{host_type as type_of_host, type_in as type_of_named};
ghost use Rattle.abc_link_layouts.specs.Files.{linked_file};

use crate::layouts::Layouts;
use abc_base::HostClass;
use abc_file_types::Abc;
use abc_link_names::{Named, Part, Ty, is_interface};

/// The type of a class of the host.
#[inline(always)]
fn host_type(abc: &Abc, layouts: &Layouts, host: HostClass) -> Ty
    requires { HasPartPlaces layouts.now }
    ensures { result ≡ type_of_host (linked_file abc.now layouts.now) host }
{
    let _file = abc;
    match host {
        HostClass::Object => Ty::Object,
        HostClass::Int => Ty::Int,
        HostClass::UInt => Ty::UInt,
        HostClass::Number => Ty::Number,
        HostClass::Boolean => Ty::Boolean,
        HostClass::Str => Ty::Text,
        HostClass::Namespace => Ty::Space,
        _ => Ty::Of(layouts.layout_of(Part::Host(host))),
    }
}

/// The type of a class of the file.
fn class_type(abc: &Abc, layouts: &Layouts, class: u32) -> Ty
    requires { HasPartPlaces layouts.now }
    ensures { result ≡ type_of_named (linked_file abc.now layouts.now) (Named.Class class) }
{
    if is_interface(abc, class) {
        Ty::Interface(class)
    } else {
        Ty::Of(layouts.layout_of(Part::Instance(class)))
    }
}

/// The type of what a name stands for.
#[inline(always)]
pub fn type_in(abc: &Abc, layouts: &Layouts, named: Named) -> Ty
    requires { HasPartPlaces layouts.now }
    ensures { result ≡ type_of_named (linked_file abc.now layouts.now) named }
{
    match named {
        Named::Any => Ty::Any,
        Named::Void => Ty::Void,
        Named::Host(host) => host_type(abc, layouts, host),
        Named::Class(class) => class_type(abc, layouts, class),
    }
}
