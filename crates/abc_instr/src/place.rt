ghost use Rattle.std.specs.Prelude.{◌≡◌, ◌≤◌, ◌<◌, ◌^◌, Err, IfOk, length};
ghost use Rattle.abc_file_types.specs.Places.{instruction_place};
ghost use Rattle.abc_file_types.specs.Starts.{IsRising};
ghost use Rattle.abc_varint.specs.Reads.{ReadsPart};
ghost use Rattle.abc_varint.specs.declared.error.ReadError.{ReadError};

use crate::starts::number_of;
use abc_base::Source;
use abc_file_types::Reason;
use abc_varint::{ReadError, Window, read_u30};

/// The number of the instruction that starts at a place in the code as it was read, or of the end, as an exception names
/// it. It is refused by `HandlerRange` at its first byte where no instruction starts there. It takes no memory.
#[tactic(auto, unfolding(abc_file_types::specs::Places::instruction_place))]
pub fn read_place<S: Source>(
    w: &mut Window,
    source: &mut S,
    offsets: &[u32],
) -> Result<u32, ReadError>
    requires rising { IsRising offsets.now }
    requires few { length offsets.now < 2 ^ 32 }
    ensures value { ReadsPart S.left S.faults (instruction_place offsets.now) w.old source.old w.new
        source.new result }
    ensures within { IfOk result (λ n. n < length offsets.now) }
    ensures no_memory { result ≡ Err ReadError.NoMemory → ⊥ }
{
    let place = w.place();
    let x = read_u30(w, source)?;
    match number_of(offsets, x) {
        Some(n) => Ok(n),
        None => Err(ReadError::Refused {
            place,
            reason: Reason::HandlerRange,
        }),
    }
}
