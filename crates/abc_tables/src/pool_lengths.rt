ghost use Rattle.std.specs.Prelude.{◌≡◌, ◌-◌, ◌^◌, min};
ghost use Rattle.abc_tables.specs.Lengths.{namespace_len, multiname_len, pools_len};

use crate::lengths::{Measured, len_of_counted, len_of_number, len_of_pool};
use abc_file_types::{Abc, Multiname, Namespace};

impl Measured for Namespace {
    ghost len = { namespace_len };

    fn canonical_len(&self) -> u64 {
        1 + len_of_number(self.name)
    }
}

impl Measured for Multiname {
    ghost len = { multiname_len };

    fn canonical_len(&self) -> u64 {
        match self {
            Multiname::QName { ns, name, .. } => 1 + len_of_number(*ns) + len_of_number(*name),
            Multiname::Rt { name, .. } => 1 + len_of_number(*name),
            Multiname::RtL { .. } => 1,
            Multiname::Multi { name, set, .. } => 1 + len_of_number(*name) + len_of_number(*set),
            Multiname::MultiL { set, .. } => 1 + len_of_number(*set),
            Multiname::TypeName { base, params } => {
                (1 + len_of_number(*base)).saturating_add(len_of_counted(params.list()))
            }
        }
    }
}

/// The canonical bytes of all pools.
#[tactic(auto, unfolding(crate::specs::Lengths::pools_len), using(crate::proofs::Capped::both_capped))]
pub fn len_of_pools(abc: &Abc) -> u64
    ensures { result ≡ min (pools_len abc.now) (2 ^ 64 - 1) }
{
    len_of_pool(&abc.ints)
        .saturating_add(len_of_pool(&abc.uints))
        .saturating_add(len_of_pool(&abc.doubles))
        .saturating_add(len_of_pool(&abc.strings))
        .saturating_add(len_of_pool(&abc.namespaces))
        .saturating_add(len_of_pool(&abc.sets))
        .saturating_add(len_of_pool(&abc.names))
}
