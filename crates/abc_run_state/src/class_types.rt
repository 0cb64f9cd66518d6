ghost use Rattle.std.specs.Prelude.{◌≡◌};
ghost use Rattle.abc_link_names.specs.Bases.{is_interface as is_interface_class};
ghost use Rattle.abc_link_names.specs.declared.named.Named.TheVariants as named;
ghost use Rattle.abc_link_names.specs.Types.{type_in};

use abc_base::HostClass;
use abc_file_types::has_flag;
use abc_link::Linked;
use abc_link_names::{Part, Ty, class_flags};

/// Whether a class of the file is an interface.
pub fn is_interface(linked: &Linked, class: u32) -> bool
    ensures { result ≡ is_interface_class linked.now.file class }
{
    has_flag(class_flags(linked.abc(), class), 0x04)
}

/// The type of a class of the file.
pub fn class_type(linked: &Linked, class: u32) -> Ty
    ensures { result ≡ type_in linked.now (named.Class class) }
{
    if is_interface(linked, class) {
        Ty::Interface(class)
    } else {
        Ty::Of(linked.layout_of(Part::Instance(class)))
    }
}

/// The type of a class of the host.
pub fn host_type(linked: &Linked, class: HostClass) -> Ty
    ensures { result ≡ type_in linked.now (named.Host class) }
{
    match class {
        HostClass::Object => Ty::Object,
        HostClass::Int => Ty::Int,
        HostClass::UInt => Ty::UInt,
        HostClass::Number => Ty::Number,
        HostClass::Boolean => Ty::Boolean,
        HostClass::Str => Ty::Text,
        HostClass::Namespace => Ty::Space,
        _ => Ty::Of(linked.layout_of(Part::Host(class))),
    }
}
