ghost use Rattle.std.specs.Prelude.{◌≡◌, ◌++◌, IfOk, OnOk, map};
ghost use Rattle.abc_link_names.specs.Owners.{owner_of};
ghost use Rattle.abc_link_names.specs.PartsByNumber.{method_at};
ghost use Rattle.abc_verify_typing.specs.Routines.{arrays, filled_by, kind_of_part, or_any, takes_array as takes_array_by, this_kind, type_at};

use crate::lookup::type_or_any;
use abc_base::{HostClass, NoMemory, Table};
use abc_file_types::has_flag;
use abc_link::Linked;
use abc_link_names::{Kind, Owner, Part};
use std::alloc::Global;

/// The kind of the objects of a part's layout.
fn part_kind(linked: &Linked, part: Part) -> Kind
    ensures { result ≡ kind_of_part linked.now part }
{
    Kind::Obj(linked.layout_of(part))
}

/// The kind of `this` in a method of an owner.
fn kind_of_this(linked: &Linked, owner: Owner) -> Kind
    ensures { result ≡ this_kind linked.now owner }
{
    match owner {
        Owner::Free => Kind::Any,
        Owner::ScriptInit(script) => part_kind(linked, Part::Global(script)),
        Owner::ScriptMethod(script) => part_kind(linked, Part::Global(script)),
        Owner::ClassInit(class) => part_kind(linked, Part::ClassObject(class)),
        Owner::Static(class) => part_kind(linked, Part::ClassObject(class)),
        Owner::Iinit(class) => part_kind(linked, Part::Instance(class)),
        Owner::Instance(class) => part_kind(linked, Part::Instance(class)),
    }
}

/// The flags of a method.
#[tactic(auto, using(abc_base::proofs::Past::past_end))]
pub(crate) fn flags_of(linked: &Linked, method: u32) -> u8
    ensures { result ≡ (method_at linked.now.file method).flags }
{
    match linked.abc().methods.find(method as usize) {
        Some(method) => method.flags,
        None => 0,
    }
}

/// The types of a method's parameters.
#[tactic(auto, using(abc_base::proofs::Past::past_end))]
fn parameters_of(linked: &Linked, method: u32) -> &[u32]
    ensures { result.now ≡ (method_at linked.now.file method).params }
{
    match linked.abc().methods.find(method as usize) {
        Some(method) => method.params.as_slice(),
        None => &[],
    }
}

/// Adds the kinds of types.
fn push_types(filled: &mut Table<Kind>, linked: &Linked, names: &[u32]) -> Result<(), NoMemory>
    ensures { OnOk result (filled.new ≡ filled.old ++ map (λ t. or_any (type_at linked.now t)) names.now) }
{
    for name in names {
        let kind = type_or_any(linked, *name);
        filled.push(kind)?;
    }
    Ok(())
}

/// Whether flags ask for an array of arguments.
fn takes_array(flags: u8) -> bool
    ensures { result ≡ takes_array_by flags }
{
    has_flag(flags, 0x01) || has_flag(flags, 0x04)
}

/// Adds the array that the flags ask for.
fn push_array(filled: &mut Table<Kind>, linked: &Linked, flags: u8) -> Result<(), NoMemory>
    ensures { OnOk result (filled.new ≡ filled.old ++ arrays linked.now flags) }
{
    if !takes_array(flags) {
        return Ok(());
    }
    let kind = part_kind(linked, Part::Host(HostClass::Array));
    filled.push(kind)?;
    Ok(())
}

/// What a call of a method fills: `this`, the parameters, and the array that the flags ask for.
pub(crate) fn filled_of(
    alloc: Global,
    linked: &Linked,
    method: u32,
) -> Result<Table<Kind>, NoMemory>
    ensures { IfOk result
        (λ t. t ≡ filled_by linked.now (owner_of linked.now.file method) (method_at linked.now.file method)) }
{
    let whose = linked.owner(method);
    let this = kind_of_this(linked, whose);
    let types = parameters_of(linked, method);
    let flags = flags_of(linked, method);
    let mut filled = Table::new(alloc);
    filled.push(this)?;
    push_types(&mut filled, linked, types)?;
    push_array(&mut filled, linked, flags)?;
    Ok(filled)
}
