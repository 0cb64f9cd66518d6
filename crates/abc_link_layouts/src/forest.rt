ghost use Rattle.std.specs.Prelude.{◌≡◌, ◌<◌, ◌^◌, length, IfOk};
ghost use Rattle.abc_base_graphs.specs.Orders.{IsOrder};
ghost use Rattle.abc_link_layouts.specs.Forest.{class_bases as bases_of, class_in as class_named};
ghost use Rattle.abc_link_names.specs.Rules.{AllHold};

use abc_base::{NoMemory, Table};
use abc_base_graphs::{Order, order_of};
use abc_link_names::{Meanings, Named};
use std::alloc::Global;

/// The class of the file that a name stands for, if it is one.
fn class_in(named: Option<Named>) -> Option<u32>
    ensures { result ≡ class_named named }
{
    match named {
        Some(Named::Class(class)) => Some(class),
        _ => None,
    }
}

/// The base of each class, where it is a class of the file.
fn class_bases(alloc: Global, meanings: &Meanings<'_>) -> Result<Table<Option<u32>>, NoMemory>
    ensures { IfOk result (λ t. t ≡ bases_of meanings.now.abc.now) }
{
    let mut bases = Table::new(alloc);
    for instance in meanings.abc.instances.as_slice() {
        bases.push(class_in(meanings.resolve(instance.super_name)))?;
    }
    Ok(bases)
}

/// The classes of the file in an order in which each stands behind its base.
#[tactic(auto, using(crate::proofs::Rooted::is_forest, crate::proofs::Rooted::few_bases, crate::proofs::Rooted::order_of_bases))]
pub(crate) fn class_order(alloc: Global, meanings: &Meanings<'_>) -> Result<Order, NoMemory>
    requires { AllHold meanings.now.abc.now }
    ensures { IfOk result (λ o. IsOrder (bases_of meanings.now.abc.now) o.nodes o.places) }
{
    if meanings.abc.instances.len() > u32::MAX as usize {
        return Err(NoMemory);
    }
    let bases = class_bases(alloc, meanings)?;
    order_of(alloc, &bases)
}
