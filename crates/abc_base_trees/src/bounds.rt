ghost use Rattle.std.specs.Prelude.{◌≡◌, ◌*◌, length, IfOk};
ghost use Rattle.std.specs.List.Sorted.{IsNonDecreasing};
ghost use Rattle.abc_base_trees.specs.Pieces.{AreBounds, piece};

use crate::hang::Range;
use abc_base::NoMemory;
use std::alloc::Global;

/// Where ranges begin or end, in their order.
#[tactic(auto, using(crate::proofs::Pieces::no_bounds, crate::proofs::Pieces::more_bounds, crate::proofs::Pieces::all_bounds))]
fn ends_of(alloc: Global, ranges: &[Range]) -> Result<Vec<u32>, NoMemory>
    ensures bounds { IfOk result (λ v. AreBounds ranges.now v.items) }
    ensures few { IfOk result (λ v. length v.items ≡ 2 * length ranges.now) }
{
    let mut ends = Vec::new(alloc);
    for range in ranges {
        ends.push(range.from)?;
        ends.push(range.to)?;
    }
    Ok(ends)
}

/// Where ranges begin or end, in order.
pub(crate) fn bounds_of(alloc: Global, ranges: &[Range]) -> Result<Vec<u32>, NoMemory>
    ensures bounds { IfOk result (λ v. AreBounds ranges.now v.items) }
    ensures few { IfOk result (λ v. length v.items ≡ 2 * length ranges.now) }
    ensures sorted { IfOk result (λ v. IsNonDecreasing v.items) }
{
    let mut bounds = ends_of(alloc, ranges)?;
    bounds.sort_unstable();
    Ok(bounds)
}

/// How many bounds are at most a place.
pub(crate) fn piece_of(bounds: &[u32], place: u32) -> usize
    requires { IsNonDecreasing bounds.now }
    ensures { result ≡ piece bounds.now place }
{
    bounds.partition_point(|bound| *bound <= place)
}
