ghost use Rattle.std.specs.Prelude.{◌≡◌, ◌<◌, ◌++◌, ◌^◌, length, map, IfOk, IsTrue, OnOk};
ghost use Rattle.std.specs.List.{flat_map, range_with_len};
ghost use Rattle.abc_base_graphs.specs.Orders.{IsOrder};
ghost use Rattle.abc_link_layouts.specs.Forest.{class_bases};
ghost use Rattle.abc_link_layouts.specs.Numbering.{activation_in, numbering, parts_in};
ghost use Rattle.abc_link_names.specs.Numbering.{IsNumbering};
ghost use Rattle.abc_link_names.specs.Parts.{has_activation as activates};
ghost use Rattle.abc_link_names.specs.PartsByNumber.{body_at, method_at};
ghost use Rattle.abc_link_names.specs.Rules.{AllHold};

use crate::forest::class_order;
use abc_base::{HOST_CLASSES, HostClass, NoMemory, Table};
use abc_base_graphs::Order;
use abc_file_types::{Abc, has_flag};
use abc_link_names::{Meanings, Part, handlers};
use std::alloc::Global;

/// The instances of the classes of the host.
fn push_hosts(parts: &mut Table<Part>, hosts: &[HostClass]) -> Result<(), NoMemory>
    ensures { OnOk result (parts.new ≡ parts.old ++ map (λ h. Part.Host h) hosts.now) }
{
    for host in hosts {
        parts.push(Part::Host(*host))?;
    }
    Ok(())
}

/// The class objects of the host.
fn push_host_objects(parts: &mut Table<Part>, hosts: &[HostClass]) -> Result<(), NoMemory>
    ensures { OnOk result (parts.new ≡ parts.old ++ map (λ h. Part.HostClassObject h) hosts.now) }
{
    for host in hosts {
        parts.push(Part::HostClassObject(*host))?;
    }
    Ok(())
}

/// The instances of some classes of the file.
fn push_instances(parts: &mut Table<Part>, classes: &[u32]) -> Result<(), NoMemory>
    ensures { OnOk result (parts.new ≡ parts.old ++ map (λ k. Part.Instance k) classes.now) }
{
    for class in classes {
        parts.push(Part::Instance(*class))?;
    }
    Ok(())
}

/// The class objects of so many classes of the file.
#[tactic(auto, using(crate::proofs::Pushing::row_none, crate::proofs::Pushing::row_next))]
fn push_class_objects(parts: &mut Table<Part>, count: u32) -> Result<(), NoMemory>
    ensures { OnOk result (parts.new ≡ parts.old ++ map (λ k. Part.ClassObject k) (range_with_len 0 count)) }
{
    for class in 0..count {
        parts.push(Part::ClassObject(class))?;
    }
    Ok(())
}

/// The global objects of so many scripts.
#[tactic(auto, using(crate::proofs::Pushing::row_none, crate::proofs::Pushing::row_next))]
fn push_globals(parts: &mut Table<Part>, count: u32) -> Result<(), NoMemory>
    ensures { OnOk result (parts.new ≡ parts.old ++ map (λ s. Part.Global s) (range_with_len 0 count)) }
{
    for script in 0..count {
        parts.push(Part::Global(script))?;
    }
    Ok(())
}

/// So many catch objects of a body.
#[tactic(auto, using(crate::proofs::Pushing::row_none, crate::proofs::Pushing::row_next))]
fn push_catches(parts: &mut Table<Part>, body: u32, count: u32) -> Result<(), NoMemory>
    ensures { OnOk result (parts.new ≡ parts.old ++ map (λ e. Part.Catch body e) (range_with_len 0 count)) }
{
    for exception in 0..count {
        parts.push(Part::Catch(body, exception))?;
    }
    Ok(())
}

/// The method of a body.
#[tactic(auto, using(abc_base::proofs::Past::past_end))]
fn body_method(abc: &Abc, body: u32) -> u32
    ensures { result ≡ (body_at abc.now body).method }
{
    match abc.bodies.find(body as usize) {
        Some(body) => body.method,
        None => 0,
    }
}

/// How many exceptions a body has.
fn handler_count(abc: &Abc, body: u32) -> usize
    ensures { result ≡ length (body_at abc.now body).handlers }
{
    handlers(abc, body).len()
}

/// The flags of a method.
#[tactic(auto, using(abc_base::proofs::Past::past_end))]
fn method_flags(abc: &Abc, method: u32) -> u8
    ensures { result ≡ (method_at abc.now method).flags }
{
    match abc.methods.find(method as usize) {
        Some(method) => method.flags,
        None => 0,
    }
}

/// Whether a body makes an activation.
fn has_activation(abc: &Abc, body: u32) -> bool
    ensures { result ≡ activates abc.now body }
{
    has_flag(method_flags(abc, body_method(abc, body)), 0x02)
}

/// The activation of a body, if it makes one.
#[tactic(auto, using(crate::proofs::Pushing::no_activation, crate::proofs::Pushing::one_activation))]
fn push_activation(abc: &Abc, parts: &mut Table<Part>, body: u32) -> Result<(), NoMemory>
    ensures { OnOk result (parts.new ≡ parts.old ++ activation_in abc.now body) }
{
    if has_activation(abc, body) {
        parts.push(Part::Activation(body))?;
    }
    Ok(())
}

/// The activation and the catch objects of a body.
#[tactic(auto, using(crate::proofs::Pushing::body_pushed))]
fn push_body(abc: &Abc, parts: &mut Table<Part>, body: u32) -> Result<(), NoMemory>
    ensures { OnOk result (parts.new ≡ parts.old ++ parts_in abc.now body) }
{
    let count = handler_count(abc, body);
    if count > u32::MAX as usize {
        return Err(NoMemory);
    }
    push_activation(abc, parts, body)?;
    push_catches(parts, body, count as u32)?;
    Ok(())
}

/// The activations and the catch objects of so many bodies.
#[tactic(auto, using(crate::proofs::Pushing::bodies_none, crate::proofs::Pushing::bodies_next))]
fn push_bodies(abc: &Abc, parts: &mut Table<Part>, count: u32) -> Result<(), NoMemory>
    ensures { OnOk result (parts.new ≡ parts.old ++ flat_map (parts_in abc.now) (range_with_len 0 count)) }
{
    for body in 0..count {
        push_body(abc, parts, body)?;
    }
    Ok(())
}

/// Whether the tables of a file can be counted by 32 bits.
fn are_few(abc: &Abc) -> bool
    ensures { IsTrue result
        → (length abc.now.instances < 2 ^ 32) × (length abc.now.scripts < 2 ^ 32)
        × (length abc.now.bodies < 2 ^ 32) }
{
    abc.instances.len() <= u32::MAX as usize
        && abc.scripts.len() <= u32::MAX as usize
        && abc.bodies.len() <= u32::MAX as usize
}

/// All parts that have layouts, by their numbers.
fn parts_in_order(alloc: Global, abc: &Abc, order: &Order) -> Result<Table<Part>, NoMemory>
    requires { IsOrder (class_bases abc.now) order.now.nodes order.now.places }
    ensures is { IfOk result (λ parts. parts ≡ numbering abc.now) }
    ensures numbering { IfOk result (λ parts. IsNumbering abc.now parts) }
{
    if !are_few(abc) {
        return Err(NoMemory);
    }
    let mut parts = Table::new(alloc);
    push_hosts(&mut parts, HOST_CLASSES.as_slice())?;
    push_host_objects(&mut parts, HOST_CLASSES.as_slice())?;
    push_instances(&mut parts, order.nodes.as_slice())?;
    push_class_objects(&mut parts, abc.instances.len() as u32)?;
    push_globals(&mut parts, abc.scripts.len() as u32)?;
    push_bodies(abc, &mut parts, abc.bodies.len() as u32)?;
    Ok(parts)
}

/// All parts of a file that have layouts; a part's place is the number of its layout. The classes of the host have the first
/// numbers, the classes of the file each a higher one than its base.
pub fn number_parts(alloc: Global, meanings: &Meanings<'_>) -> Result<Table<Part>, NoMemory>
    requires { AllHold meanings.now.abc.now }
    ensures is { IfOk result (λ parts. parts ≡ numbering meanings.now.abc.now) }
    ensures numbering { IfOk result (λ parts. IsNumbering meanings.now.abc.now parts) }
{
    let order = class_order(alloc, meanings)?;
    parts_in_order(alloc, meanings.abc, &order)
}
