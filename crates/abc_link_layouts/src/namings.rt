ghost use Rattle.std.specs.Prelude.{◌≡◌, ◌++◌, ◌∷◌, ◌<◌, ◌^◌, [], length, IfOk, IsTrue, OnOk};
ghost use Rattle.abc_link_names.specs.Owners.{naming, namings as namings_in_file, namings_among, namings_from, namings_in, namings_of, of_class, of_instance, of_script};

use abc_base::{NoMemory, Table};
use abc_file_types::{Abc, TraitBody, TraitInfo};
use abc_link_names::{Naming, Owner};
use std::alloc::Global;

/// Adds a method, and what names it.
fn push_naming(list: &mut Table<Naming>, owner: Owner, method: u32) -> Result<(), NoMemory>
    ensures { OnOk result (list.new ≡ list.old ++ naming owner method ∷ []) }
{
    list.push(Naming { method, owner })?;
    Ok(())
}

/// Adds the method that a trait names, if it names one.
fn push_trait(list: &mut Table<Naming>, owner: Owner, body: TraitBody) -> Result<(), NoMemory>
    ensures { OnOk result (list.new ≡ list.old ++ namings_in owner body) }
{
    match body {
        TraitBody::Method { method, .. }
        | TraitBody::Getter { method, .. }
        | TraitBody::Setter { method, .. }
        | TraitBody::Function { method, .. } => push_naming(list, owner, method),
        TraitBody::Slot { .. } | TraitBody::Class { .. } => Ok(()),
    }
}

/// Adds the methods that a table names.
fn push_table(list: &mut Table<Naming>, owner: Owner, table: &[TraitInfo]) -> Result<(), NoMemory>
    ensures { OnOk result (list.new ≡ list.old ++ namings_among owner table.now) }
{
    for info in table {
        push_trait(list, owner, info.body)?;
    }
    Ok(())
}

/// Adds an initializer, and the methods that a table names.
fn push_part(
    list: &mut Table<Naming>,
    first: Owner,
    init: u32,
    other: Owner,
    table: &Table<TraitInfo>,
) -> Result<(), NoMemory>
    ensures { OnOk result (list.new ≡ list.old ++ namings_of first init other table.now) }
{
    push_naming(list, first, init)?;
    push_table(list, other, table.as_slice())
}

/// The methods that the instances of all classes name.
fn push_instances(list: &mut Table<Naming>, abc: &Abc, count: u32) -> Result<(), NoMemory>
    requires { count ≡ length abc.now.instances }
    ensures { OnOk result (list.new ≡ list.old ++ namings_from of_instance 0 abc.now.instances) }
{
    for k in 0..count {
        let instance = abc.instances.get(k as usize);
        push_part(
            list,
            Owner::Iinit(k),
            instance.iinit,
            Owner::Instance(k),
            &instance.traits,
        )?;
    }
    Ok(())
}

/// The methods that all class objects name.
fn push_classes(list: &mut Table<Naming>, abc: &Abc, count: u32) -> Result<(), NoMemory>
    requires { count ≡ length abc.now.classes }
    ensures { OnOk result (list.new ≡ list.old ++ namings_from of_class 0 abc.now.classes) }
{
    for k in 0..count {
        let class = abc.classes.get(k as usize);
        push_part(
            list,
            Owner::ClassInit(k),
            class.cinit,
            Owner::Static(k),
            &class.traits,
        )?;
    }
    Ok(())
}

/// The methods that all scripts name.
fn push_scripts(list: &mut Table<Naming>, abc: &Abc, count: u32) -> Result<(), NoMemory>
    requires { count ≡ length abc.now.scripts }
    ensures { OnOk result (list.new ≡ list.old ++ namings_from of_script 0 abc.now.scripts) }
{
    for s in 0..count {
        let script = abc.scripts.get(s as usize);
        push_part(
            list,
            Owner::ScriptInit(s),
            script.init,
            Owner::ScriptMethod(s),
            &script.traits,
        )?;
    }
    Ok(())
}

/// Whether the tables that name methods can be counted by 32 bits.
fn are_few(abc: &Abc) -> bool
    ensures { IsTrue result
        → (length abc.now.instances < 2 ^ 32) × (length abc.now.classes < 2 ^ 32)
        × (length abc.now.scripts < 2 ^ 32) }
{
    abc.instances.len() <= u32::MAX as usize
        && abc.classes.len() <= u32::MAX as usize
        && abc.scripts.len() <= u32::MAX as usize
}

/// All methods that instances, class objects and scripts name, with what names them.
pub(crate) fn namings(alloc: Global, abc: &Abc) -> Result<Table<Naming>, NoMemory>
    ensures { IfOk result (λ t. t ≡ namings_in_file abc.now) }
{
    if !are_few(abc) {
        return Err(NoMemory);
    }
    let mut list = Table::new(alloc);
    push_instances(&mut list, abc, abc.instances.len() as u32)?;
    push_classes(&mut list, abc, abc.classes.len() as u32)?;
    push_scripts(&mut list, abc, abc.scripts.len() as u32)?;
    Ok(list)
}
