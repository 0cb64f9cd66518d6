ghost use Rattle.std.specs.Prelude.{◌≡◌, ◌↔◌, ◌-◌, ◌^◌, IsTrue, min};
ghost use Rattle.abc_tables.specs.Fitting.{AreFew, FitDefinitions, FitPools};
ghost use Rattle.abc_tables.specs.Lengths.{definitions_len};
ghost use Rattle.abc_file_types.specs.Classes.{sizes_of as all_sizes};
ghost use Rattle.abc_file_types.specs.Files.{Fits};

use crate::fitting_bodies::{fit_bodies, walk};
use crate::fitting_definitions::len_of_fitting;
use crate::fitting_pools::fit_pools;
use crate::indices::is_count;
use crate::total::len_before_bodies;
use abc_file_types::{Abc, Sizes, sizes_of};

/// The greatest length of a file.
const LONGEST: u64 = 1 << 24;

/// Whether the tables that indices name are small enough for their sizes to be told.
fn are_few(abc: &Abc) -> bool
    ensures { IsTrue result ↔ AreFew abc.now }
{
    is_count(abc.ints.len())
        && is_count(abc.uints.len())
        && is_count(abc.doubles.len())
        && is_count(abc.strings.len())
        && is_count(abc.namespaces.len())
        && is_count(abc.sets.len())
        && is_count(abc.names.len())
        && is_count(abc.methods.len())
        && is_count(abc.metadata.len())
        && is_count(abc.classes.len())
}

/// Whether some bytes of at most 2^24 spell a file, some bytes spell whose pools and definitions; the latter have so many. The
/// bodies are gone over once for both, and it is tried that no two have one method only where there are not too many methods for that.
fn fit_rest(abc: &Abc, sizes: &Sizes, definitions: u64) -> bool
    requires sizes { sizes.now ≡ all_sizes abc.now }
    requires pools { FitPools abc.now }
    requires definitions { FitDefinitions abc.now }
    requires len { definitions ≡ min (definitions_len abc.now) (2 ^ 64 - 1) }
    ensures { IsTrue result ↔ Fits abc.now }
{
    let Some(walked) = walk(abc.bodies.as_slice(), sizes) else {
        return false;
    };
    if len_before_bodies(abc, definitions).saturating_add(walked.len) > LONGEST {
        return false;
    }
    fit_bodies(abc, sizes, walked.rise)
}

/// Whether some bytes of at most 2^24 spell a file whose tables are small enough.
#[tactic(auto, using(crate::proofs::FileFits::few_told, crate::proofs::FileFits::parts_in))]
fn fit_parts(abc: &Abc) -> bool
    requires { AreFew abc.now }
    ensures { IsTrue result ↔ Fits abc.now }
{
    let sizes = sizes_of(abc);
    if !fit_pools(abc, &sizes) {
        return false;
    }
    let Some(definitions) = len_of_fitting(abc, &sizes) else {
        return false;
    };
    fit_rest(abc, &sizes, definitions)
}

/// Whether some bytes of at most 2^24 spell the file. It takes no memory. Its time grows with the size of the value
/// alone, but for one thing: where bodies do not stand in the order of their methods they are gone through once for each
/// 65,536 methods, so that no two are found to have one method. A file has at most 2^22 methods, so that is at most 65 times.
#[tactic(auto, using(crate::proofs::FileFits::few_in))]
pub fn fits(a: &Abc) -> bool
    ensures { IsTrue result ↔ Fits a.now }
{
    are_few(a) && fit_parts(a)
}
