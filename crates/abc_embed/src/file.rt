ghost use Rattle.std.specs.Prelude.{IfOk};
ghost use Rattle.abc_file_types.specs.Files.{Fits};

use crate::fault::Fault;
use abc_base::Source;
use abc_file::read;
use abc_file_types::Abc;
use abc_link::{Linked, link};
use abc_verify::{Verified, verify};
use std::alloc::Global;

/// The file of a source, with nothing after it.
fn read_file<S: Source>(alloc: Global, source: &mut S) -> Result<Abc, Fault>
    ensures { IfOk result Fits }
{
    let (abc, _) = read(alloc, source)?;
    Ok(abc)
}

/// A file that keeps the rules of linking.
fn link_file(alloc: Global, abc: Abc) -> Result<Linked, Fault>
    requires { Fits abc }
{
    let linked = link(alloc, abc)?;
    Ok(linked)
}

/// The file of a source, linked and verified: only such a file can be opened.
pub fn verified_file<S: Source>(alloc: Global, source: &mut S) -> Result<Verified, Fault> {
    let abc = read_file(alloc, source)?;
    let linked = link_file(alloc, abc)?;
    let verified = verify(alloc, linked)?;
    Ok(verified)
}
