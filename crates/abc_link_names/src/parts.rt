ghost use Rattle.std.specs.Prelude.{◌≡◌};
ghost use Rattle.abc_link_names.specs.Instances.{instance_at};
ghost use Rattle.abc_link_names.specs.Bases.{is_interface as is_interface_class};
ghost use Rattle.abc_link_names.specs.PartsByNumber.{body_at, class_at, instance_table as instance_table_of, method_at, own_table as own_table_of, script_at};

use crate::items::{Item, ItemKind};
use abc_file_types::{Abc, Handler, TraitInfo, has_flag};

/// The flag of an interface.
const INTERFACE: u8 = 0x04;

/// The name of a class.
#[tactic(auto, using(abc_base::proofs::Past::past_end))]
pub fn class_name(abc: &Abc, class: u32) -> u32
    ensures { result ≡ (instance_at abc.now class).name }
{
    match abc.instances.find(class as usize) {
        Some(instance) => instance.name,
        None => 0,
    }
}

/// The name of a class's base; 0 is none.
#[tactic(auto, using(abc_base::proofs::Past::past_end))]
pub fn super_name(abc: &Abc, class: u32) -> u32
    ensures { result ≡ (instance_at abc.now class).super_name }
{
    match abc.instances.find(class as usize) {
        Some(instance) => instance.super_name,
        None => 0,
    }
}

/// The flags of a class.
#[tactic(auto, using(abc_base::proofs::Past::past_end))]
pub fn class_flags(abc: &Abc, class: u32) -> u8
    ensures { result ≡ (instance_at abc.now class).flags }
{
    match abc.instances.find(class as usize) {
        Some(instance) => instance.flags,
        None => 0,
    }
}

/// Whether a class is an interface.
pub fn is_interface(abc: &Abc, class: u32) -> bool
    ensures { result ≡ is_interface_class abc.now class }
{
    has_flag(class_flags(abc, class), INTERFACE)
}

/// The names of a class's interfaces.
#[tactic(auto, using(abc_base::proofs::Past::past_end))]
pub fn interface_names(abc: &Abc, class: u32) -> &[u32]
    ensures { result.now ≡ (instance_at abc.now class).interfaces }
{
    match abc.instances.find(class as usize) {
        Some(instance) => instance.interfaces.as_slice(),
        None => &[],
    }
}

/// The traits of a class's instances.
#[tactic(auto, using(abc_base::proofs::Past::past_end))]
pub fn instance_traits(abc: &Abc, class: u32) -> &[TraitInfo]
    ensures { result.now ≡ (instance_at abc.now class).traits }
{
    match abc.instances.find(class as usize) {
        Some(instance) => instance.traits.as_slice(),
        None => &[],
    }
}

/// The traits of a class itself.
#[tactic(auto, using(abc_base::proofs::Past::past_end))]
pub fn class_traits(abc: &Abc, class: u32) -> &[TraitInfo]
    ensures { result.now ≡ (class_at abc.now class).traits }
{
    match abc.classes.find(class as usize) {
        Some(class) => class.traits.as_slice(),
        None => &[],
    }
}

/// The traits of a script.
#[tactic(auto, using(abc_base::proofs::Past::past_end))]
pub fn script_traits(abc: &Abc, script: u32) -> &[TraitInfo]
    ensures { result.now ≡ (script_at abc.now script).traits }
{
    match abc.scripts.find(script as usize) {
        Some(script) => script.traits.as_slice(),
        None => &[],
    }
}

/// The traits of a body's activation.
#[tactic(auto, using(abc_base::proofs::Past::past_end))]
pub fn body_traits(abc: &Abc, body: u32) -> &[TraitInfo]
    ensures { result.now ≡ (body_at abc.now body).traits }
{
    match abc.bodies.find(body as usize) {
        Some(body) => body.traits.as_slice(),
        None => &[],
    }
}

/// The exceptions of a body.
#[tactic(auto, using(abc_base::proofs::Past::past_end))]
pub fn handlers(abc: &Abc, body: u32) -> &[Handler]
    ensures { result.now ≡ (body_at abc.now body).handlers }
{
    match abc.bodies.find(body as usize) {
        Some(body) => body.handlers.as_slice(),
        None => &[],
    }
}

/// The return type of a method; 0 is any type.
#[tactic(auto, using(abc_base::proofs::Past::past_end))]
pub fn return_type(abc: &Abc, method: u32) -> u32
    ensures { result ≡ (method_at abc.now method).ret }
{
    match abc.methods.find(method as usize) {
        Some(method) => method.ret,
        None => 0,
    }
}

/// The types of a method's parameters.
#[tactic(auto, using(abc_base::proofs::Past::past_end))]
pub fn parameters(abc: &Abc, method: u32) -> &[u32]
    ensures { result.now ≡ (method_at abc.now method).params }
{
    match abc.methods.find(method as usize) {
        Some(method) => method.params.as_slice(),
        None => &[],
    }
}

/// The table of traits of an item: of a class that of the class itself.
pub fn own_table(abc: &Abc, item: Item) -> &[TraitInfo]
    ensures { result.now ≡ own_table_of abc.now item.kind item.index }
{
    match item.kind {
        ItemKind::File | ItemKind::Method => &[],
        ItemKind::Class => class_traits(abc, item.index),
        ItemKind::Script => script_traits(abc, item.index),
        ItemKind::Body => body_traits(abc, item.index),
    }
}

/// The table of traits of a class's instances; other items have none.
pub fn instance_table(abc: &Abc, item: Item) -> &[TraitInfo]
    ensures { result.now ≡ instance_table_of abc.now item.kind item.index }
{
    match item.kind {
        ItemKind::Class => instance_traits(abc, item.index),
        _ => &[],
    }
}
