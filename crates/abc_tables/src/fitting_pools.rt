ghost use Rattle.std.specs.Prelude.{◌≡◌, ◌↔◌, All, IsTrue, length};
ghost use Rattle.abc_tables.specs.Fitting.{FitsDouble, FitsInt, FitDoubles, FitInts, FitMultinames, FitNamespaces, FitNamespaceSets, FitPools, FitTexts, FitUints, FitsMultiname, FitsNamespace, FitsNamespaceSet, FitsText};
ghost use Rattle.abc_file_types.specs.Classes.{sizes_of as all_sizes};

use crate::indices::{
    are_entry_indices, are_pool_indices, is_count, is_entry_index, is_pool_count, is_pool_index,
};
use abc_base::{Bytes, Table};
use abc_file_types::{Abc, Eight, Multiname, Namespace, Sizes};

/// Whether some bytes spell the number, as they do every one.
#[tactic(auto, using(crate::proofs::PoolsFit::int_fits))]
fn is_int(_number: i32) -> bool
    ensures { IsTrue result ↔ FitsInt _number }
{
    true
}

#[tactic(auto, using(crate::proofs::PoolsFit::ints_fit))]
fn are_ints(ints: &[i32]) -> bool
    ensures { IsTrue result ↔ FitInts ints.now }
{
    is_pool_count(ints.len()) && ints.iter().all(|number| is_int(*number))
}

/// Whether some bytes spell a pool of numbers: each of its numbers is spelled by some.
#[tactic(auto, using(crate::proofs::PoolsFit::uints_fit))]
fn are_uints(uints: &[u32]) -> bool
    ensures { IsTrue result ↔ FitUints uints.now }
{
    is_pool_count(uints.len())
}

#[tactic(auto, using(crate::proofs::PoolsFit::double_fits))]
fn is_double(double: &Eight) -> bool
    ensures { IsTrue result ↔ FitsDouble double.now }
{
    let bytes: &[u8] = &double.0;
    bytes.len() == 8
}

#[tactic(auto, using(crate::proofs::PoolsFit::doubles_fit))]
fn are_doubles(doubles: &[Eight]) -> bool
    ensures { IsTrue result ↔ FitDoubles doubles.now }
{
    is_pool_count(doubles.len()) && doubles.iter().all(is_double)
}

#[tactic(auto, using(crate::proofs::Combined::text_fits))]
fn is_text(bytes: &Bytes) -> bool
    ensures { IsTrue result ↔ FitsText bytes.now }
{
    is_count(bytes.len())
}

#[tactic(auto, using(crate::proofs::PoolsFit::texts_fit))]
fn are_texts(texts: &[Bytes]) -> bool
    ensures { IsTrue result ↔ FitTexts texts.now }
{
    is_pool_count(texts.len()) && texts.iter().all(is_text)
}

#[tactic(auto, using(crate::proofs::PoolsFit::namespace_fits))]
fn is_namespace(space: &Namespace, strings: u32) -> bool
    ensures { IsTrue result ↔ FitsNamespace strings space.now }
{
    is_pool_index(space.name, strings)
}

#[tactic(auto, using(crate::proofs::PoolsFit::namespaces_fit))]
fn are_namespaces(spaces: &[Namespace], strings: u32) -> bool
    ensures { IsTrue result ↔ FitNamespaces strings spaces.now }
{
    is_pool_count(spaces.len()) && spaces.iter().all(|space| is_namespace(space, strings))
}

#[tactic(auto, using(crate::proofs::PoolsFit::namespace_set_fits))]
fn is_namespace_set(set: &Table<u32>, spaces: u32) -> bool
    ensures { IsTrue result ↔ FitsNamespaceSet spaces set.now }
{
    is_count(set.len()) && are_entry_indices(set.as_slice(), spaces)
}

#[tactic(auto, using(crate::proofs::PoolsFit::namespace_sets_fit))]
fn are_namespace_sets(sets: &[Table<u32>], spaces: u32) -> bool
    ensures { IsTrue result ↔ FitNamespaceSets spaces sets.now }
{
    is_pool_count(sets.len()) && sets.iter().all(|set| is_namespace_set(set, spaces))
}

#[tactic(auto, using(crate::proofs::PoolsFit::multiname_fits))]
fn is_multiname(name: &Multiname, sizes: &Sizes) -> bool
    ensures { IsTrue result ↔ FitsMultiname sizes.now name.now }
{
    match name {
        Multiname::QName { ns, name, .. } => {
            is_pool_index(*ns, sizes.namespaces) && is_pool_index(*name, sizes.strings)
        }
        Multiname::Rt { name, .. } => is_pool_index(*name, sizes.strings),
        Multiname::RtL { .. } => true,
        Multiname::Multi { name, set, .. } => {
            is_pool_index(*name, sizes.strings) && is_entry_index(*set, sizes.sets)
        }
        Multiname::MultiL { set, .. } => is_entry_index(*set, sizes.sets),
        Multiname::TypeName { base, params } => {
            is_entry_index(*base, sizes.names)
                && is_count(params.len())
                && are_pool_indices(params.as_slice(), sizes.names)
        }
    }
}

#[tactic(auto, using(crate::proofs::PoolsFit::multinames_fit))]
fn are_multinames(names: &[Multiname], sizes: &Sizes) -> bool
    requires { sizes.now.names ≡ length names.now }
    ensures { IsTrue result ↔ FitMultinames sizes.now names.now }
{
    is_pool_count(names.len()) && names.iter().all(|name| is_multiname(name, sizes))
}

/// Whether some bytes spell the pools.
#[tactic(auto, using(crate::proofs::PoolsFit::pools_fit))]
pub fn fit_pools(abc: &Abc, sizes: &Sizes) -> bool
    requires { sizes.now ≡ all_sizes abc.now }
    ensures { IsTrue result ↔ FitPools abc.now }
{
    are_ints(abc.ints.as_slice())
        && are_uints(abc.uints.as_slice())
        && are_doubles(abc.doubles.as_slice())
        && are_texts(abc.strings.as_slice())
        && are_namespaces(abc.namespaces.as_slice(), sizes.strings)
        && are_namespace_sets(abc.sets.as_slice(), sizes.namespaces)
        && are_multinames(abc.names.as_slice(), sizes)
}
