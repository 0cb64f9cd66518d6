ghost use Rattle.std.specs.Prelude.{◌≡◌, ◌+◌, ◌-◌, ◌^◌, length, min};
ghost use Rattle.abc_tables.specs.Lengths.{definitions_len, file_len, pools_len};
ghost use Rattle.abc_file_types.specs.CodeBytes.{number_len};

use crate::definition_lengths::len_of_definitions;
use crate::lengths::len_of_all;
use crate::pool_lengths::len_of_pools;
use abc_file_types::{Abc, count_len};

/// The canonical bytes of all that stands before the bodies, and of how many bodies there are, where the definitions have so many.
#[tactic(auto, using(crate::proofs::Capped::both_capped))]
pub fn len_before_bodies(abc: &Abc, definitions: u64) -> u64
    requires { definitions ≡ min (definitions_len abc.now) (2 ^ 64 - 1) }
    ensures { result
        ≡ min (4 + pools_len abc.now + definitions_len abc.now + number_len (length (abc.now).bodies))
        (2 ^ 64 - 1) }
{
    len_of_pools(abc)
        .saturating_add(4)
        .saturating_add(definitions)
        .saturating_add(count_len(abc.bodies.len()))
}

/// How many bytes the canonical bytes of a file have: the sum over all its fields, with the fewest bytes of each number,
/// where a number of 2^30 or more counts five. It is 2^64 - 1 where that is greater. It takes no memory, and time that
/// grows with the size of the value alone.
#[tactic(auto, unfolding(crate::specs::Lengths::file_len), using(crate::proofs::Capped::both_capped))]
pub fn canon_len(a: &Abc) -> u64
    ensures { result ≡ min (file_len a.now) (2 ^ 64 - 1) }
{
    len_before_bodies(a, len_of_definitions(a)).saturating_add(len_of_all(&a.bodies))
}
