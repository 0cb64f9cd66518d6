ghost use Rattle.std.specs.Prelude.{◌≡◌, ◌++◌, ◌∷◌, [], length, map, IfOk, OnOk};
ghost use Rattle.std.specs.List.{flat_map};
ghost use Rattle.abc_link_names.specs.Methods.{methods_among, methods_in, methods_named as all_named, methods_run as all_run, methods_with_bodies as all_with_bodies, of_body, methods_of_class, methods_of_instance, methods_of_script, run_of_instance};

use abc_base::NoMemory;
use abc_file_types::{Abc, Instance, TraitBody, TraitInfo, has_flag};
use std::alloc::Global;

/// Adds the method that a trait names, if it names one.
fn push_trait(list: &mut Vec<u32>, body: TraitBody) -> Result<(), NoMemory>
    ensures { OnOk result (list.new.items ≡ list.old.items ++ methods_in body) }
{
    match body {
        TraitBody::Method { method, .. }
        | TraitBody::Getter { method, .. }
        | TraitBody::Setter { method, .. }
        | TraitBody::Function { method, .. } => {
            list.push(method)?;
            Ok(())
        }
        TraitBody::Slot { .. } | TraitBody::Class { .. } => Ok(()),
    }
}

/// Adds the methods that a table names.
fn push_table(list: &mut Vec<u32>, table: &[TraitInfo]) -> Result<(), NoMemory>
    ensures { OnOk result (list.new.items ≡ list.old.items ++ methods_among table.now) }
{
    for info in table {
        push_trait(list, info.body)?;
    }
    Ok(())
}

/// Adds a method, and those that a table names.
fn push_part(list: &mut Vec<u32>, first: u32, table: &[TraitInfo]) -> Result<(), NoMemory>
    ensures { OnOk result (list.new.items ≡ list.old.items ++ (first ∷ methods_among table.now)) }
{
    list.push(first)?;
    push_table(list, table)
}

/// Adds the methods of an instance that are run; those of an interface are not.
fn push_run(list: &mut Vec<u32>, instance: &Instance) -> Result<(), NoMemory>
    ensures { OnOk result (list.new.items ≡ list.old.items ++ run_of_instance instance.now) }
{
    if has_flag(instance.flags, 0x04) {
        return Ok(());
    }
    push_part(list, instance.iinit, instance.traits.as_slice())
}

fn push_instances(list: &mut Vec<u32>, abc: &Abc) -> Result<(), NoMemory>
    ensures { OnOk result
        (list.new.items ≡ list.old.items ++ flat_map methods_of_instance abc.now.instances) }
{
    for instance in abc.instances.as_slice() {
        push_part(list, instance.iinit, instance.traits.as_slice())?;
    }
    Ok(())
}

fn push_run_instances(list: &mut Vec<u32>, abc: &Abc) -> Result<(), NoMemory>
    ensures { OnOk result (list.new.items ≡ list.old.items ++ flat_map run_of_instance abc.now.instances) }
{
    for instance in abc.instances.as_slice() {
        push_run(list, instance)?;
    }
    Ok(())
}

fn push_classes(list: &mut Vec<u32>, abc: &Abc) -> Result<(), NoMemory>
    ensures { OnOk result (list.new.items ≡ list.old.items ++ flat_map methods_of_class abc.now.classes) }
{
    for class in abc.classes.as_slice() {
        push_part(list, class.cinit, class.traits.as_slice())?;
    }
    Ok(())
}

fn push_scripts(list: &mut Vec<u32>, abc: &Abc) -> Result<(), NoMemory>
    ensures { OnOk result (list.new.items ≡ list.old.items ++ flat_map methods_of_script abc.now.scripts) }
{
    for script in abc.scripts.as_slice() {
        push_part(list, script.init, script.traits.as_slice())?;
    }
    Ok(())
}

fn push_bodies(list: &mut Vec<u32>, abc: &Abc) -> Result<(), NoMemory>
    ensures { OnOk result (list.new.items ≡ list.old.items ++ flat_map of_body abc.now.bodies) }
{
    for body in abc.bodies.as_slice() {
        push_table(list, body.traits.as_slice())?;
    }
    Ok(())
}

/// Every method that a file names, as often as it names it.
pub(crate) fn methods_named(alloc: Global, abc: &Abc) -> Result<Vec<u32>, NoMemory>
    ensures { IfOk result (λ methods. methods.items ≡ all_named abc.now) }
{
    let mut list = Vec::new(alloc);
    push_instances(&mut list, abc)?;
    push_classes(&mut list, abc)?;
    push_scripts(&mut list, abc)?;
    push_bodies(&mut list, abc)?;
    Ok(list)
}

/// The same, of methods that are run.
pub(crate) fn methods_run(alloc: Global, abc: &Abc) -> Result<Vec<u32>, NoMemory>
    ensures { IfOk result (λ methods. methods.items ≡ all_run abc.now) }
{
    let mut list = Vec::new(alloc);
    push_run_instances(&mut list, abc)?;
    push_classes(&mut list, abc)?;
    push_scripts(&mut list, abc)?;
    push_bodies(&mut list, abc)?;
    Ok(list)
}

/// The methods that have bodies.
pub(crate) fn methods_with_bodies(alloc: Global, abc: &Abc) -> Result<Vec<u32>, NoMemory>
    ensures { IfOk result (λ methods. methods.items ≡ all_with_bodies abc.now) }
{
    let mut list = Vec::new(alloc);
    for body in abc.bodies.as_slice() {
        list.push(body.method)?;
    }
    Ok(list)
}
