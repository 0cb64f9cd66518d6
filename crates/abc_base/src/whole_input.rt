ghost use Rattle.std.specs.Prelude.{◌≡◌, ◌≤◌, ◌<◌, ◌+◌, ◌++◌, Err, IfOk, IfSome, OnOk, length};
ghost use Rattle.std.specs.Io.KnownBytes.{Consumes, IsAtEnd};
ghost use Rattle.abc_base.specs.Faults.{Rose};
ghost use Rattle.abc_base.specs.Taking.{MovesBytes, TakesAtMost};
ghost use Rattle.abc_base.specs.declared.input_error.InputError.{InputError};

use crate::input_error::InputError;
use crate::source::Source;
use std::alloc::Global;

/// Appends the next bytes of the input, at most so many, and answers whether there were any.
fn read_more<S: Source>(
    source: &mut S,
    room: usize,
    bytes: &mut Vec<u8>,
) -> Result<bool, InputError>
    requires { 0 < room }
    ensures moves { MovesBytes (S.left source.old) (S.left source.new) room bytes.old.items bytes.new.items
        result }
    ensures later { S.faults source.old ≤ S.faults source.new }
    ensures cause { result ≡ Err InputError.ReadFault → Rose (S.faults source.old) (S.faults source.new) }
    ensures fits { result ≡ Err InputError.TooLong → ⊥ }
{
    let mut piece = [0; 4096];
    let count = source.read(&mut piece[..room.min(4096)])?;
    bytes.extend_from_slice(&piece[..count])?;
    Ok(count > 0)
}

/// Reads the input to its end, where it has at most so many bytes; one more at most is taken. Room is made as bytes
/// come. `TooLong` comes exactly where the input has more, unless a read failed or memory ran out before, and `ReadFault`
/// only where the source's count of faults rose.
pub fn read_input<S: Source>(
    alloc: Global,
    source: &mut S,
    most: u32,
) -> Result<Vec<u8>, InputError>
    ensures bytes { IfOk result (λ bytes. Consumes (S.left source.old) (S.left source.new) bytes.items) }
    ensures short { IfOk result (λ bytes. length bytes.items ≤ most) }
    ensures end { OnOk result (IsAtEnd (S.left source.new)) }
    ensures long { result ≡ Err InputError.TooLong
        → IfSome (S.left source.old) (λ input. most < length input) }
    ensures taken { TakesAtMost (S.left source.old) (S.left source.new) (most + 1) }
    ensures later { S.faults source.old ≤ S.faults source.new }
    ensures cause { result ≡ Err InputError.ReadFault → Rose (S.faults source.old) (S.faults source.new) }
{
    let most = most as usize;
    let mut bytes = Vec::new(alloc);
    while bytes.len() <= most {
        let room = most + 1 - bytes.len();
        if !read_more(source, room, &mut bytes)? {
            return Ok(bytes);
        }
    }
    Err(InputError::TooLong)
}
