ghost use Rattle.std.specs.Prelude.{◌≡◌, ◌⊎◌, ◌<◌, ◌≤◌, Err, IfOk, length};
ghost use Rattle.std.specs.Io.KnownBytes.{Consumes, IsAtEnd};
ghost use Rattle.abc_base.specs.Faults.{Rose};
ghost use Rattle.abc_base.specs.Taking.{MovesBytes, TakesAtMost};
ghost use Rattle.abc_log.specs.declared.log_part.PartError.{PartError};
ghost use Rattle.abc_log.specs.declared.log_part.PartError.TheVariants as errors;

use abc_base::{Failed, Source};
use std::alloc::{AllocError, Global};

/// Why the bytes of a part aren't held.
#[derive(Clone, Copy, Debug, PartialEq, Eq)]
pub enum PartError {
    /// A read failed.
    ReadFault,
    /// Memory ran out.
    NoMemory,
}

impl From<Failed> for PartError {
    ghost from_gives = { λ _ e. e ≡ errors.ReadFault };

    fn from(_e: Failed) -> PartError {
        PartError::ReadFault
    }
}

impl From<AllocError> for PartError {
    ghost from_gives = { λ _ e. e ≡ errors.NoMemory };

    fn from(_e: AllocError) -> PartError {
        PartError::NoMemory
    }
}

/// Appends the next bytes of the input, at most so many, and answers whether there were any.
fn read_more<S: Source>(source: &mut S, room: usize, bytes: &mut Vec<u8>) -> Result<bool, PartError>
    requires { 0 < room }
    ensures moves { MovesBytes (S.left source.old) (S.left source.new) room bytes.old.items bytes.new.items
        result }
    ensures later { S.faults source.old ≤ S.faults source.new }
    ensures cause { result ≡ Err PartError.ReadFault → Rose (S.faults source.old) (S.faults source.new) }
{
    let mut piece = [0; 4096];
    let count = source.read(&mut piece[..room.min(4096)])?;
    bytes.extend_from_slice(&piece[..count])?;
    Ok(count > 0)
}

/// Holds the next bytes of the input, at most so many, and fewer only where it has no more; whatever is answered, no more are taken.
/// Room is made as bytes come. `ReadFault` comes only where the source's count of faults rose.
pub fn read_part<S: Source>(alloc: Global, source: &mut S, most: u32) -> Result<Vec<u8>, PartError>
    ensures bytes { IfOk result (λ bytes. Consumes (S.left source.old) (S.left source.new) bytes.items) }
    ensures few { IfOk result (λ bytes. length bytes.items ≤ most) }
    ensures end { IfOk result (λ bytes. (length bytes.items ≡ most) ⊎ IsAtEnd (S.left source.new)) }
    ensures taken { TakesAtMost (S.left source.old) (S.left source.new) most }
    ensures later { S.faults source.old ≤ S.faults source.new }
    ensures cause { result ≡ Err PartError.ReadFault → Rose (S.faults source.old) (S.faults source.new) }
{
    let most = most as usize;
    let mut bytes = Vec::new(alloc);
    while bytes.len() < most {
        let room = most - bytes.len();
        if !read_more(source, room, &mut bytes)? {
            return Ok(bytes);
        }
    }
    Ok(bytes)
}
