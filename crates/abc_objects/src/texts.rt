ghost use Rattle.std.specs.Prelude.{◌≡◌, ◌++◌, map, IfOk, OnOk};
ghost use Rattle.std.specs.List.{concat};
ghost use Rattle.abc_base.specs.Names.{class_name};
ghost use Rattle.abc_objects.specs.Fixed.{fixed_bytes};
ghost use Rattle.abc_objects.specs.Opening.{formula_names as names_of, property_names as names_with};

use abc_base::{Bytes, HOST_CLASSES, Host, HostClass, NoMemory, Table};
use std::alloc::Global;

/// The names of the formulas of a host, in order.
pub(crate) fn formula_names<H: Host>(alloc: Global, host: &H) -> Result<Table<Bytes>, NoMemory>
    ensures { IfOk result (λ t. t ≡ names_of (H.formulas host.now)) }
{
    let mut names = Table::new(alloc);
    for id in 0..host.count() {
        names.push(Bytes::from_slice(alloc, host.name(id))?)?;
    }
    Ok(names)
}

/// Adds the names of some classes of the host.
fn push_class_names(
    alloc: Global,
    names: &mut Table<Bytes>,
    classes: &[HostClass],
) -> Result<(), NoMemory>
    ensures { OnOk result (names.new ≡ names.old ++ map class_name classes.now) }
{
    for class in classes {
        names.push(Bytes::from_slice(alloc, class.name())?)?;
    }
    Ok(())
}

/// Adds copies of some names.
fn push_copies(alloc: Global, names: &mut Table<Bytes>, more: &[Bytes]) -> Result<(), NoMemory>
    ensures { OnOk result (names.new ≡ names.old ++ more.now) }
{
    for name in more {
        names.push(Bytes::from_slice(alloc, name.as_slice())?)?;
    }
    Ok(())
}

/// The names of the host object's properties, in order: its classes, `trace`, and the formulas of the given names.
pub(crate) fn property_names(
    alloc: Global,
    formulas: &Table<Bytes>,
) -> Result<Table<Bytes>, NoMemory>
    ensures { IfOk result (λ t. t ≡ names_with formulas.now) }
{
    let mut names = Table::new(alloc);
    push_class_names(alloc, &mut names, HOST_CLASSES.as_slice())?;
    names.push(Bytes::from_slice(alloc, b"trace")?)?;
    push_copies(alloc, &mut names, formulas.as_slice())?;
    Ok(names)
}

/// The bytes of part 0: the fixed texts, and then some names, one after the other.
pub(crate) fn part_zero(alloc: Global, names: &[Bytes]) -> Result<Bytes, NoMemory>
    ensures { IfOk result (λ b. b ≡ fixed_bytes ++ concat names.now) }
{
    let mut bytes = Bytes::from_slice(
        alloc,
        b"undefinednulltruefalsenumberbooleanstringobjectfunctionmessage",
    )?;
    for name in names {
        bytes.extend_from_slice(name.as_slice())?;
    }
    Ok(bytes)
}
