ghost use Rattle.std.specs.Prelude.{◌≡◌, ◌++◌, IfOk, OnOk};
ghost use Rattle.std.specs.List.{flat_map};
ghost use Rattle.abc_link_names.specs.Meaning.{resolve};
ghost use Rattle.abc_link_names.specs.Bases.{base_graph as base_graph_of, classes_named as classes_of, interface_graph as interface_graph_of, interfaces_named as interfaces_in, targets_of as targets_in};

use abc_base::{NoMemory, Table};
use abc_file_types::{Abc, Instance, has_flag};
use abc_link_names::{Meanings, Named, is_interface};
use std::alloc::Global;

/// The class of the file that a name stands for, if it is one.
fn classes_named(alloc: Global, named: Option<Named>) -> Result<Table<u32>, NoMemory>
    ensures { IfOk result (λ t. t ≡ classes_of named) }
{
    let mut list = Table::new(alloc);
    if let Some(Named::Class(class)) = named {
        list.push(class)?;
    }
    Ok(list)
}

/// For each class its base, if it is a class of the file.
pub(crate) fn base_graph(
    alloc: Global,
    meanings: &Meanings<'_>,
) -> Result<Table<Table<u32>>, NoMemory>
    ensures { IfOk result (λ g. g ≡ base_graph_of meanings.now.abc.now) }
{
    let mut graph = Table::new(alloc);
    for instance in meanings.abc.instances.as_slice() {
        let targets = classes_named(alloc, meanings.resolve(instance.super_name))?;
        graph.push(targets)?;
    }
    Ok(graph)
}

/// Adds the interface of the file that a name stands for, if it is one.
fn push_interface(list: &mut Table<u32>, abc: &Abc, named: Option<Named>) -> Result<(), NoMemory>
    ensures { OnOk result (list.new ≡ list.old ++ interfaces_in abc.now named) }
{
    match named {
        Some(Named::Class(class)) if is_interface(abc, class) => list.push(class),
        _ => Ok(()),
    }
}

/// The interfaces of the file that names stand for.
fn interfaces_of(
    alloc: Global,
    meanings: &Meanings<'_>,
    names: &[u32],
) -> Result<Table<u32>, NoMemory>
    ensures { IfOk result (λ t. t
        ≡ flat_map (λ n. interfaces_in meanings.now.abc.now (resolve meanings.now.abc.now n)) names.now) }
{
    let mut list = Table::new(alloc);
    for name in names {
        push_interface(&mut list, meanings.abc, meanings.resolve(*name))?;
    }
    Ok(list)
}

/// The interfaces that an interface names; a class is not followed from.
fn targets_of(
    alloc: Global,
    meanings: &Meanings<'_>,
    instance: &Instance,
) -> Result<Table<u32>, NoMemory>
    ensures { IfOk result (λ t. t ≡ targets_in meanings.now.abc.now instance.now) }
{
    if has_flag(instance.flags, 0x04) {
        interfaces_of(alloc, meanings, instance.interfaces.as_slice())
    } else {
        Ok(Table::new(alloc))
    }
}

/// For each interface the interfaces that it names.
pub(crate) fn interface_graph(
    alloc: Global,
    meanings: &Meanings<'_>,
) -> Result<Table<Table<u32>>, NoMemory>
    ensures { IfOk result (λ g. g ≡ interface_graph_of meanings.now.abc.now) }
{
    let mut graph = Table::new(alloc);
    for instance in meanings.abc.instances.as_slice() {
        let targets = targets_of(alloc, meanings, instance)?;
        graph.push(targets)?;
    }
    Ok(graph)
}
