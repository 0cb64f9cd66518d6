ghost use Rattle.std.specs.Prelude.{◌≡◌, ◌^◌, ◌<◌, length, MatchResult};
ghost use Rattle.abc_base_graphs.specs.Graph.{IsGraph};
ghost use Rattle.abc_link_rules.specs.Cycles.{earlier_class as earlier_of};
ghost use Rattle.abc_link_names.specs.Bases.{base_graph, interface_graph};
ghost use Rattle.abc_link_names.specs.Rules.{AllHoldBefore};
ghost use Rattle.abc_link_names.specs.Firsts.{IsLinkRefusal, IsFew};

use abc_base::Table;
use abc_base_graphs::first_return;
use abc_file_types::Abc;
use abc_link_names::{Item, ItemKind, LinkError, LinkRule};
use std::alloc::Global;

/// The lower of two numbers, as far as there are two.
fn earlier(a: Option<u32>, b: Option<u32>) -> Option<u32>
    ensures { result ≡ earlier_of a b }
{
    match (a, b) {
        (Some(x), Some(y)) => Some(x.min(y)),
        (Some(x), None) => Some(x),
        (None, y) => y,
    }
}

/// Tries that following bases, or interfaces of interfaces, returns to no class. Both graphs are over the classes.
#[tactic(auto, using(crate::proofs::Cyclic::refuses, crate::proofs::Cyclic::holds))]
pub(crate) fn check_cycles(
    alloc: Global,
    _abc: &Abc,
    bases: &Table<Table<u32>>,
    interfaces: &Table<Table<u32>>,
) -> Result<(), LinkError>
    requires few { length bases.now < 2 ^ 32 }
    requires few_interfaces { length interfaces.now < 2 ^ 32 }
    requires bases { bases.now ≡ base_graph _abc.now }
    requires interfaces { interfaces.now ≡ interface_graph _abc.now }
    requires bases_known { IsGraph bases.now }
    requires interfaces_known { IsGraph interfaces.now }
    requires before { AllHoldBefore _abc.now 4 }
    ensures { MatchResult result (λ _. AllHoldBefore _abc.now 5) (IsLinkRefusal _abc.now) }
{
    let base = first_return(alloc, bases)?;
    let interface = first_return(alloc, interfaces)?;
    match earlier(base, interface) {
        Some(index) => Err(LinkError::Refused {
            rule: LinkRule::BaseCycle,
            item: Item {
                kind: ItemKind::Class,
                index,
            },
        }),
        None => Ok(()),
    }
}
