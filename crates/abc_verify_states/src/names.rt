ghost use Rattle.std.specs.Prelude.{◌≡◌, Some};
ghost use Rattle.abc_verify_typing.specs.Effects.{multiname_at, runtime};
ghost use Rattle.abc_verify_typing.specs.Rules.{has_form, is_static_name, is_plain_multiname};
ghost use Rattle.abc_verify_states.specs.Needs.{parts_of};

use crate::lookup::type_kind;
use abc_file_types::Multiname;
use abc_link::Linked;
use abc_verify_typing::Operand;

/// Which parts a name takes at run time.
#[derive(Clone, Copy, Debug)]
pub struct Parts {
    pub name: bool,
    pub space: bool,
}

/// A name without parts at run time, with a text and no attribute.
fn is_plain_one(name: &Multiname) -> bool
    ensures { result ≡ is_plain_multiname (Some name.now) }
{
    match name {
        Multiname::QName { attr, ns: _, name } => !*attr && *name > 0,
        Multiname::Multi { attr, name, set: _ } => !*attr && *name > 0,
        Multiname::Rt { .. } => false,
        Multiname::RtL { .. } => false,
        Multiname::MultiL { .. } => false,
        Multiname::TypeName { .. } => false,
    }
}

/// A name that is no attribute, has no parameters, and has a text where it needs one.
fn is_good_one(name: &Multiname) -> bool
    ensures { result ≡ is_static_name (Some name.now) }
{
    match name {
        Multiname::Rt { attr, name } => !*attr && *name > 0,
        Multiname::RtL { attr } => !*attr,
        Multiname::MultiL { attr, set: _ } => !*attr,
        Multiname::QName { .. } => is_plain_one(name),
        Multiname::Multi { .. } => is_plain_one(name),
        Multiname::TypeName { .. } => false,
    }
}

/// The parts that a name takes at run time.
fn parts_of_one(name: &Multiname) -> Parts
    ensures { parts_of result ≡ runtime (Some name.now) }
{
    match name {
        Multiname::Rt { .. } => Parts {
            name: false,
            space: true,
        },
        Multiname::RtL { .. } => Parts {
            name: true,
            space: true,
        },
        Multiname::MultiL { .. } => Parts {
            name: true,
            space: false,
        },
        Multiname::QName { .. } => Parts {
            name: false,
            space: false,
        },
        Multiname::Multi { .. } => Parts {
            name: false,
            space: false,
        },
        Multiname::TypeName { .. } => Parts {
            name: false,
            space: false,
        },
    }
}

/// Whether a number names a name without parts at run time.
fn is_plain_name(linked: &Linked, name: u32) -> bool
    ensures { result ≡ is_plain_multiname (multiname_at linked.now name) }
{
    if name == 0 {
        return false;
    }
    match linked.abc().names.find((name - 1) as usize) {
        Some(name) => is_plain_one(name),
        None => false,
    }
}

/// Whether a number names a name that code may use.
fn is_good_name(linked: &Linked, name: u32) -> bool
    ensures { result ≡ is_static_name (multiname_at linked.now name) }
{
    if name == 0 {
        return false;
    }
    match linked.abc().names.find((name - 1) as usize) {
        Some(name) => is_good_one(name),
        None => false,
    }
}

/// The parts that a name takes at run time; none where the number names nothing.
#[inline(never)]
pub fn parts_of_name(linked: &Linked, name: u32) -> Parts
    ensures { parts_of result ≡ runtime (multiname_at linked.now name) }
{
    if name == 0 {
        return Parts {
            name: false,
            space: false,
        };
    }
    match linked.abc().names.find((name - 1) as usize) {
        Some(name) => parts_of_one(name),
        None => Parts {
            name: false,
            space: false,
        },
    }
}

/// Whether the name that is named has a form that the instruction takes.
#[inline(never)]
pub fn has_good_form(linked: &Linked, operand: Operand, name: u32) -> bool
    ensures { result ≡ has_form linked.now operand name }
{
    match operand {
        Operand::NameAt => is_good_name(linked, name),
        Operand::PlainNameAt => is_plain_name(linked, name),
        Operand::TypeAt => type_kind(linked, name).is_some(),
        Operand::TypeOrAny => type_kind(linked, name).is_some(),
        _ => true,
    }
}
