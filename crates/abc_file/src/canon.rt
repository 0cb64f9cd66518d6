ghost use Rattle.std.specs.Prelude.{◌≡◌, ◌≤◌, ◌+◌, ◌^◌, ◌++◌, [], Err, IfOk, IfErr, OnOk, None};
ghost use Rattle.abc_base.specs.Faults.{Rose};
ghost use Rattle.abc_base.specs.Taking.{TakesAtMost};
ghost use Rattle.abc_file.specs.Reading.{IsCanonicalOf, IsErrorOf, IsNew, IsUsedUp};
ghost use Rattle.abc_file_types.specs.Files.{file_bytes, file_read, version, version_bytes};
ghost use Rattle.abc_varint.specs.Passes.{Passes, PassesPart, nothing_told};
ghost use Rattle.abc_varint.specs.Reads.{IsInput, Reads, ReadsPart, known_input};
ghost use Rattle.abc_varint.specs.declared.error.ReadError.{ReadError};

use crate::reading::read_version;
use crate::rest::read_nothing_more;
use abc_base::Source;
use abc_bodies::pass_bodies;
use abc_pools::pass_pools;
use abc_traits::pass_definitions;
use abc_varint::{ReadError, Window, put_u16};
use std::alloc::Global;

/// Passes the version.
#[tactic(auto, using(std::proofs::Common::append_assoc))]
fn pass_version<S: Source>(
    w: &mut Window,
    source: &mut S,
    out: &mut Vec<u8>,
) -> Result<(), ReadError>
    ensures { PassesPart S.left S.faults version (λ _. version_bytes) nothing_told w.old source.old w.new
        source.new out.old.items out.new.items result }
{
    read_version(w, source)?;
    put_u16(16, out)?;
    put_u16(46, out)?;
    Ok(())
}

/// Passes the file, and not what follows it.
#[tactic(auto, unfolding(abc_file_types::specs::Files::file_read))]
fn pass_file<S: Source>(
    alloc: Global,
    w: &mut Window,
    source: &mut S,
    out: &mut Vec<u8>,
) -> Result<(), ReadError>
    ensures { PassesPart S.left S.faults file_read (λ x. file_bytes x.0) nothing_told w.old source.old w.new
        source.new out.old.items out.new.items result }
{
    pass_version(w, source, out)?;
    let pools = pass_pools(alloc, w, source, out)?;
    let sizes = pass_definitions(alloc, w, source, &pools, out)?;
    pass_bodies(alloc, w, source, &sizes, out)?;
    Ok(())
}

/// Passes the file, and nothing after it.
#[tactic(auto)]
fn pass_to_end<S: Source>(
    alloc: Global,
    w: &mut Window,
    source: &mut S,
    out: &mut Vec<u8>,
) -> Result<(), ReadError>
    requires window { IsNew w.old }
    requires bytes { out.old.items ≡ [] }
    ensures bytes { OnOk result (IsCanonicalOf (S.left source.old) out.new.items) }
    ensures fault { IfErr result (λ e. IsErrorOf (S.left source.old) e) }
    ensures input { IsInput w.old (S.left source.old) (known_input w.new (S.left source.new)) }
    ensures end { OnOk result (IsUsedUp (S.left source.old) (S.left source.new)) }
    ensures later { S.faults source.old ≤ S.faults source.new }
    ensures cause { result ≡ Err ReadError.ReadFault → Rose (S.faults source.old) (S.faults source.new) }
{
    pass_file(alloc, w, source, out)?;
    read_nothing_more(w, source)?;
    Ok(())
}

/// The canonical bytes of the file that the source gives up to its end, as `write` puts what `read` reads; each field is
/// put before the next is read. It is refused as by `read`. `ReadFault` comes only where the source's count of faults
/// rose, and `NoMemory` where memory ran out. At most 2^24 + 1 bytes are taken, whatever is answered.
pub fn canonical<S: Source>(alloc: Global, source: &mut S) -> Result<Vec<u8>, ReadError>
    ensures bytes { IfOk result (λ v. IsCanonicalOf (S.left source.old) v.items) }
    ensures fault { IfErr result (λ e. IsErrorOf (S.left source.old) e) }
    ensures taken { TakesAtMost (S.left source.old) (S.left source.new) (2 ^ 24 + 1) }
    ensures end { OnOk result (IsUsedUp (S.left source.old) (S.left source.new)) }
    ensures later { S.faults source.old ≤ S.faults source.new }
    ensures cause { result ≡ Err ReadError.ReadFault → Rose (S.faults source.old) (S.faults source.new) }
{
    let mut w = Window::new(alloc)?;
    let mut bytes = Vec::new(alloc);
    let done = pass_to_end(alloc, &mut w, source, &mut bytes);
    w.stays_small();
    done?;
    Ok(bytes)
}
