ghost use Rattle.std.specs.Prelude.{◌≡◌, ◌++◌, IfOk, OnOk};
ghost use Rattle.std.specs.List.{flat_map};
ghost use Rattle.abc_link_names.specs.Meaning.{resolve};
ghost use Rattle.abc_link_names.specs.Interfaces.{above_class as above_class_of, class_graph as class_graph_of};
ghost use Rattle.abc_link_names.specs.Bases.{classes_named, interfaces_named};

use abc_base::{NoMemory, Table};
use abc_file_types::{Abc, Instance, has_flag};
use abc_link_names::{Meanings, Named, is_interface};
use std::alloc::Global;

/// Adds the interface of the file that a name stands for, if it is one.
fn push_interface(list: &mut Table<u32>, abc: &Abc, named: Option<Named>) -> Result<(), NoMemory>
    ensures { OnOk result (list.new ≡ list.old ++ interfaces_named abc.now named) }
{
    match named {
        Some(Named::Class(class)) if is_interface(abc, class) => list.push(class),
        _ => Ok(()),
    }
}

/// The interfaces of the file that names stand for.
fn interfaces_of(
    alloc: Global,
    meanings: &Meanings<'_>,
    names: &[u32],
) -> Result<Table<u32>, NoMemory>
    ensures { IfOk result (λ t. t
        ≡ flat_map (λ n. interfaces_named meanings.now.abc.now (resolve meanings.now.abc.now n))
        names.now) }
{
    let mut list = Table::new(alloc);
    for name in names {
        push_interface(&mut list, meanings.abc, meanings.resolve(*name))?;
    }
    Ok(list)
}

/// Adds the class of the file that a name stands for, if it is one.
fn push_class(list: &mut Table<u32>, named: Option<Named>) -> Result<(), NoMemory>
    ensures { OnOk result (list.new ≡ list.old ++ classes_named named) }
{
    match named {
        Some(Named::Class(class)) => list.push(class),
        _ => Ok(()),
    }
}

/// The interfaces of a class's own list, and its base, unless it is an interface.
fn above_class(
    alloc: Global,
    meanings: &Meanings<'_>,
    instance: &Instance,
) -> Result<Table<u32>, NoMemory>
    ensures { IfOk result (λ t. t ≡ above_class_of meanings.now.abc.now instance.now) }
{
    let mut list = interfaces_of(alloc, meanings, instance.interfaces.as_slice())?;
    if !has_flag(instance.flags, 0x04) {
        push_class(&mut list, meanings.resolve(instance.super_name))?;
    }
    Ok(list)
}

/// For each class what it has its interfaces of.
pub(crate) fn class_graph(
    alloc: Global,
    meanings: &Meanings<'_>,
) -> Result<Table<Table<u32>>, NoMemory>
    ensures { IfOk result (λ g. g ≡ class_graph_of meanings.now.abc.now) }
{
    let mut graph = Table::new(alloc);
    for instance in meanings.abc.instances.as_slice() {
        let targets = above_class(alloc, meanings, instance)?;
        graph.push(targets)?;
    }
    Ok(graph)
}
