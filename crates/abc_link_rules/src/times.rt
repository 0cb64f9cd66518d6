ghost use Rattle.std.specs.Prelude.{◌≡◌, ◌<◌, ◌+◌, ◌^◌, [], length, replicate, set, slice_index, IfOk, take};
ghost use Rattle.abc_link_names.specs.Methods.{times_named};
ghost use Rattle.abc_link_rules.specs.Times.{AreTimes};

use abc_base::NoMemory;
use std::alloc::Global;

/// Counts a method once more, if it is in the table.
#[tactic(auto, using(crate::proofs::Counting::counted, crate::proofs::Counting::few_times, crate::proofs::Counting::not_counted))]
fn count_one(times: &mut Vec<u32>, methods: &[u32], place: usize)
    requires within { place < length methods.now }
    requires few { length methods.now < 2 ^ 32 }
    requires before { AreTimes times.old.items (take place methods.now) (length times.old.items) }
    ensures { AreTimes times.new.items (take (place + 1) methods.now) (length times.old.items) }
{
    let method = methods[place] as usize;
    if method < times.len() {
        times[method] += 1;
    }
}

/// How often each of so many methods is named. A file that names 2^32 methods finds no memory.
#[tactic(auto, using(crate::proofs::Counting::none_counted, crate::proofs::Counting::all_counted))]
pub(crate) fn times_of(alloc: Global, methods: &[u32], count: usize) -> Result<Vec<u32>, NoMemory>
    ensures { IfOk result (λ times. AreTimes times.items methods.now count) }
{
    if methods.len() > u32::MAX as usize {
        return Err(NoMemory);
    }
    let mut times = vec![in alloc; 0; count]?;
    for place in 0..methods.len() {
        count_one(&mut times, methods, place);
    }
    Ok(times)
}
