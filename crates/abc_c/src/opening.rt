ghost use Rattle.std.specs.Prelude.{◌≡◌, ℕ, List, MatchResult};
ghost use Rattle.abc_c.specs.Opening.{IsReadIn, IsUnopenedFor, IsUnread};
ghost use Rattle.abc_c.specs.declared.crossing.Bounds.{Bounds};
ghost use Rattle.abc_c.specs.Outcome.{IsOpenedFor, item_code, reason_of, refusal_of as refusal_in, no_refusal as none_refused};

use crate::crossing::{Bounds, Refusal};
use crate::kept::Kept;
use abc_base::SteadySource;
use abc_link_names::ItemKind;
use abc_verify::{Verified, VerifiedError, read_verified};
use std::alloc::Global;

/// How many bytes the source gives at once.
const PIECE: usize = 4096;

/// Why no session is opened.
#[derive(Clone, Copy, Debug)]
pub enum Unopened {
    /// The bytes are no file, or it isn't linked, or not verified.
    Refused(VerifiedError),
    /// What every run begins with passes a limit.
    TooSmall,
    /// Memory ran out.
    NoMemory,
}

/// The verified file that some bytes are.
fn read_in(alloc: Global, bytes: &[u8]) -> Result<Verified, VerifiedError>
    ensures { MatchResult result (IsReadIn bytes.now) (IsUnread bytes.now) }
{
    match SteadySource::new(alloc, bytes, PIECE) {
        Ok(mut source) => match read_verified(alloc, &mut source) {
            Ok((verified, _places)) => Ok(verified),
            Err(e) => Err(e),
        },
        Err(_) => Err(VerifiedError::NoMemory),
    }
}

/// Why no session is opened of bytes that are no verified file.
fn unopened_by(e: VerifiedError) -> Unopened
    ensures { (file : List ℕ) (bounds : Bounds) → IsUnread file e → IsUnopenedFor file bounds result }
{
    match e {
        VerifiedError::NoMemory => Unopened::NoMemory,
        _ => Unopened::Refused(e),
    }
}

/// The session of the file that some bytes are.
pub fn open(alloc: Global, bytes: &[u8], bounds: &Bounds) -> Result<Kept, Unopened>
    ensures { MatchResult result (λ kept. IsOpenedFor bytes.now bounds.now kept.session)
        (IsUnopenedFor bytes.now bounds.now) }
{
    match read_in(alloc, bytes) {
        Ok(verified) => Kept::open(alloc, verified, bounds),
        Err(e) => Err(unopened_by(e)),
    }
}

/// The number of a kind of item, in the order of the variants.
fn code_of_item(kind: ItemKind) -> u32
    ensures { result ≡ item_code kind }
{
    match kind {
        ItemKind::File => 0,
        ItemKind::Method => 1,
        ItemKind::Class => 2,
        ItemKind::Script => 3,
        ItemKind::Body => 4,
    }
}

/// A file that nothing refused.
pub fn unrefused() -> Refusal
    ensures { result ≡ none_refused }
{
    Refusal {
        by: 0,
        place: 0,
        offset: 0,
    }
}

/// Who refused a file, and where.
pub fn refusal_of(e: &VerifiedError) -> Refusal
    ensures { result ≡ refusal_in e.now }
{
    match e {
        VerifiedError::Refused { place, .. } => Refusal {
            by: 1,
            place: *place,
            offset: 0,
        },
        VerifiedError::Link { item, .. } => Refusal {
            by: 2,
            place: item.index,
            offset: code_of_item(item.kind),
        },
        VerifiedError::Verify { method, offset, .. } => Refusal {
            by: 3,
            place: *method,
            offset: *offset,
        },
        VerifiedError::ReadFault | VerifiedError::NoMemory => unrefused(),
    }
}

/// Why it is refused: the name of a reason or of a rule.
pub fn reason_for(e: &VerifiedError) -> &[u8]
    ensures { result.now ≡ reason_of e.now }
{
    match e {
        VerifiedError::Refused { reason, .. } => reason.name(),
        VerifiedError::Link { rule, .. } => rule.name(),
        VerifiedError::Verify { rule, .. } => rule.name(),
        VerifiedError::ReadFault | VerifiedError::NoMemory => b"",
    }
}
