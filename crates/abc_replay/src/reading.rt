ghost use Rattle.std.specs.Prelude.{◌≡◌, ◌≤◌, ◌<◌, ◌+◌, ◌^◌, Err, Ok, IfErr, IfOk, length};
ghost use Rattle.std.specs.Io.KnownBytes.{Consumes};
ghost use Rattle.abc_base.specs.Faults.{Rose};
ghost use Rattle.abc_base.specs.Taking.{TakesAtMost};
ghost use Rattle.abc_log.specs.Lines.{AreLimits, limits_line};
ghost use Rattle.abc_replay.specs.Prefaces.{HasFront, HasPreface, IsNoLine, IsVerifiedIn, RefusesAny, error_of_log};
ghost use Rattle.abc_replay.specs.declared.error.ReplayError.{ReplayError};
ghost use Rattle.abc_verify.specs.FileRefusing.{IsFileRefusedBy};
ghost use Rattle.abc_verify.specs.declared.verified_error.VerifiedError.{VerifiedError};

use crate::error::{ReplayError, ReplayReason};
use abc_base::{NoMemory, Source, SteadySource, release};
use abc_log::{LimitsError, LimitsLine, LogFault, read_head, read_limits, read_part};
use abc_verify::{Verified, VerifiedError, read_verified};
use std::alloc::Global;

/// How many bytes of a file are handed to its reader at a time.
const PIECE: usize = 4096;

/// How many bytes of a file are taken at most: one more than the greatest has.
const MOST: u32 = (1 << 24) + 1;

/// What stands before the log of an input: a file that is verified, the fuel and the limits, and the place where the log begins.
#[derive(Drop)]
pub struct Preface {
    pub verified: Verified,
    pub line: LimitsLine,
    pub place: u64,
}

/// The file that a source in memory gives, linked and verified, or why there is none.
fn verified_from(alloc: Global, source: &mut SteadySource) -> Result<Verified, VerifiedError>
    ensures ok { IfOk result (IsVerifiedIn source.old.left) }
    ensures refused { IfErr result (IsFileRefusedBy source.old.left) }
    ensures read { result ≡ Err VerifiedError.ReadFault → ⊥ }
{
    match read_verified(alloc, source) {
        Ok((verified, _places)) => Ok(verified),
        Err(e) => Err(e),
    }
}

/// The file that bytes spell, linked and verified, or why there is none.
fn verified_in(alloc: Global, bytes: &[u8]) -> Result<Verified, VerifiedError>
    ensures ok { IfOk result (IsVerifiedIn bytes.now) }
    ensures refused { IfErr result (IsFileRefusedBy bytes.now) }
    ensures read { result ≡ Err VerifiedError.ReadFault → ⊥ }
{
    match SteadySource::new(alloc, bytes, PIECE) {
        Ok(mut source) => verified_from(alloc, &mut source),
        Err(NoMemory) => Err(VerifiedError::NoMemory),
    }
}

/// The line of limits, which begins at this place.
fn read_line<S: Source>(source: &mut S, place: u64) -> Result<LimitsLine, ReplayError>
    ensures line { IfOk result
        (λ x. Consumes (S.left source.old) (S.left source.new) (limits_line x.fuel x.limits)) }
    ensures limits { IfOk result (λ x. AreLimits x.fuel x.limits) }
    ensures long { IfOk result (λ x. x.length ≡ length (limits_line x.fuel x.limits)) }
    ensures few { IfOk result (λ x. x.length ≤ 64) }
    ensures refused { IfErr result (IsNoLine (S.left source.old) place) }
    ensures taken { TakesAtMost (S.left source.old) (S.left source.new) 64 }
    ensures later { S.faults source.old ≤ S.faults source.new }
    ensures cause { result ≡ Err ReplayError.ReadFault → Rose (S.faults source.old) (S.faults source.new) }
{
    match read_limits(source) {
        Ok(line) => Ok(line),
        Err(LimitsError::Wrong) => Err(ReplayError::Refused {
            place,
            reason: ReplayReason::LogLimits,
        }),
        Err(LimitsError::ReadFault) => Err(ReplayError::ReadFault),
    }
}

/// A length, which 32 bits count.
fn counted(length: u32) -> u32
    ensures is { result ≡ length }
    ensures low { result < 2 ^ 32 }
{
    length
}

/// Reads the bytes of the file, with the line before them, which states how many there are. Of more than the greatest file has only
/// one more is taken, whatever is stated and answered: by these the file is refused as it is by all of its bytes.
pub fn read_file<S: Source>(alloc: Global, source: &mut S) -> Result<Vec<u8>, ReplayError>
    ensures file { IfOk result (λ bytes. HasFront (S.left source.old) (S.left source.new) bytes.items) }
    ensures few { IfOk result (λ bytes. length bytes.items ≤ 2 ^ 24 + 1) }
    ensures refused { IfErr result (RefusesAny (S.left source.old)) }
    ensures taken { TakesAtMost (S.left source.old) (S.left source.new) (2 ^ 24 + 10) }
    ensures later { S.faults source.old ≤ S.faults source.new }
    ensures cause { result ≡ Err ReplayError.ReadFault → Rose (S.faults source.old) (S.faults source.new) }
{
    let stated = counted(read_head(source)?);
    let bytes = read_part(alloc, source, stated.min(MOST))?;
    Ok(bytes)
}

/// A verified file with the line of limits, which begins at this place, or why there is none.
fn with_line(
    verified: Verified,
    line: Result<LimitsLine, ReplayError>,
    place: u64,
) -> Result<Preface, ReplayError>
    requires low { place < 2 ^ 33 }
    requires few { IfOk line (λ x. x.length ≤ 64) }
    ensures ok { IfOk line
        (λ x. result ≡ Ok (record { verified = verified; line = x; place = place + x.length })) }
    ensures err { IfErr line (λ e. result ≡ Err e) }
{
    match line {
        Ok(line) => Ok(Preface {
            verified,
            line,
            place: place + u64::from(line.length),
        }),
        Err(e) => {
            release(verified);
            Err(e)
        }
    }
}

/// Reads what stands before the log of an input, or says why the input is none, in its order: the line before the file is wrong, the
/// file is refused, linked or verified not, or there is no line of limits behind it. `ReadFault` comes only where the source's count
/// of faults rose. At most 2^24 + 74 bytes are taken, whatever is answered.
pub fn read_preface<S: Source>(alloc: Global, source: &mut S) -> Result<Preface, ReplayError>
    ensures preface { IfOk result
        (λ p. HasPreface (S.left source.old) (S.left source.new) p.verified p.line p.place) }
    ensures refused { IfErr result (RefusesAny (S.left source.old)) }
    ensures taken { TakesAtMost (S.left source.old) (S.left source.new) (2 ^ 24 + 74) }
    ensures later { S.faults source.old ≤ S.faults source.new }
    ensures cause { result ≡ Err ReplayError.ReadFault → Rose (S.faults source.old) (S.faults source.new) }
{
    let bytes = read_file(alloc, source)?;
    let verified = verified_in(alloc, &bytes)?;
    let behind = 9 + bytes.len() as u64;
    let line = read_line(source, behind);
    with_line(verified, line, behind)
}

/// Why an input is refused whose log begins at this place.
pub fn error_at(place: u64, fault: LogFault) -> ReplayError
    ensures { result ≡ error_of_log place fault }
{
    match fault {
        LogFault::Differs(agreed) => ReplayError::Refused {
            place: place.saturating_add(agreed),
            reason: ReplayReason::LogDiffers,
        },
        LogFault::ReadFault => ReplayError::ReadFault,
    }
}
