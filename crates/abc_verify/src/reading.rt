ghost use Rattle.std.specs.Prelude.{◌≡◌, ◌≤◌, ◌+◌, ◌^◌, Err, IfErr, IfOk};
ghost use Rattle.abc_base.specs.Faults.{Rose};
ghost use Rattle.abc_base.specs.Taking.{TakesAtMost};
ghost use Rattle.abc_bodies.specs.Places.{ArePlaces};
ghost use Rattle.abc_file.specs.Reading.{IsUsedUp, OfInput};
ghost use Rattle.abc_link_layouts.specs.Numbering.{HasLayoutNumbers};
ghost use Rattle.abc_link_names.specs.Linked.{IsLinkedFile};
ghost use Rattle.abc_file_types.specs.Files.{Fits};
ghost use Rattle.abc_verify.specs.FileRefusing.{IsRefusalPlaced, IsFileRefusedBy, IsUnverifiedBy, error_of_verify};
ghost use Rattle.abc_verify.specs.Verified.{IsReadVerified, IsVerifiedOf};

use crate::checked::Verified;
use crate::checking::verify;
use crate::verified_error::VerifiedError;
use crate::verify_error::VerifyError;
use abc_base::Source;
use abc_bodies::Places;
use abc_file::read;
use abc_file_types::Abc;
use abc_link::{Linked, link};
use std::alloc::Global;

/// Why a file that links isn't verified.
fn error_of(places: &Places, e: VerifyError) -> VerifiedError
    requires { IsRefusalPlaced places.now e }
    ensures { result ≡ error_of_verify places.now e }
{
    match e {
        VerifyError::Refused {
            method,
            body,
            index,
            rule,
        } => VerifiedError::Verify {
            method,
            offset: places.offset(body, index),
            rule,
        },
        VerifyError::NoMemory => VerifiedError::NoMemory,
    }
}

/// A linked file that is verified, or why it isn't.
fn verified_of(alloc: Global, linked: Linked, places: &Places) -> Result<Verified, VerifiedError>
    requires linked { IsLinkedFile linked }
    requires numbered { HasLayoutNumbers linked }
    requires places { ArePlaces linked.file.bodies places.now }
    ensures ok { IfOk result (λ l. IsVerifiedOf linked.file l) }
    ensures refused { IfErr result (IsUnverifiedBy linked.file places.now) }
{
    match verify(alloc, linked) {
        Ok(verified) => Ok(verified),
        Err(e) => Err(error_of(places, e)),
    }
}

/// A file, linked and verified, whose instructions are read at these places; or why it isn't: its first broken rule of linking, or else
/// the first method without a typing.
pub fn verified_file(alloc: Global, abc: Abc, places: &Places) -> Result<Verified, VerifiedError>
    requires fits { Fits abc }
    requires places { ArePlaces abc.bodies places.now }
    ensures ok { IfOk result (λ l. IsVerifiedOf abc l) }
    ensures refused { IfErr result (IsUnverifiedBy abc places.now) }
{
    let linked = link(alloc, abc)?;
    linked.numbering_law();
    verified_of(alloc, linked, places)
}

/// The file of the input, linked and verified, with the places of its instructions as they were read; or why there is none: the
/// input's first fault, or else the first broken rule of linking, or else the first method without a typing. `ReadFault` comes only
/// where the source's count of faults rose. At most 2^24 + 1 bytes are taken, whatever is answered.
pub fn read_verified<S: Source>(
    alloc: Global,
    source: &mut S,
) -> Result<(Verified, Places), VerifiedError>
    ensures ok { IfOk result (λ x. OfInput (S.left source.old) (IsReadVerified x.0 x.1)) }
    ensures places { IfOk result (λ x. ArePlaces (x.0).file.bodies x.1) }
    ensures taken { TakesAtMost (S.left source.old) (S.left source.new) (2 ^ 24 + 1) }
    ensures end { IfOk result (λ _. IsUsedUp (S.left source.old) (S.left source.new)) }
    ensures refused { IfErr result (λ e. OfInput (S.left source.old) (λ input. IsFileRefusedBy input e)) }
    ensures later { S.faults source.old ≤ S.faults source.new }
    ensures cause { result ≡ Err VerifiedError.ReadFault → Rose (S.faults source.old) (S.faults source.new) }
{
    let (abc, places) = read(alloc, source)?;
    let verified = verified_file(alloc, abc, &places)?;
    Ok((verified, places))
}
