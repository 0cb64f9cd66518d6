//! Offsets that were copied as they stand, and wait for where their targets start.
ghost use Rattle.std.specs.Prelude.{◌≡◌, ◌≤◌, ◌<◌, ◌+◌, ◌^◌, ◌+ℤ◌, pos, All, IfOk, length};
ghost use Rattle.std.specs.List.{splice};
ghost use Rattle.abc_file_types.specs.Canonical.{FitsS24, low24, s24_bytes};
ghost use Rattle.abc_file_types.specs.Targets.{found_target};
ghost use Rattle.abc_varint.specs.Reads.{stored_value};
ghost use Rattle.abc_instr.specs.Marks.{mark_at};
ghost use Rattle.abc_instr.specs.Resolving.{Resolves};
ghost use Rattle.abc_instr.specs.Scanning.{IsHole, target_moved, mended};

use crate::marks::Marks;
use crate::resolve::Missed;

/// An offset in code that was copied.
#[derive(Clone, Copy, Debug)]
pub struct Hole {
    /// Where its first byte is in the code as it was read, and in the canonical code.
    pub place: u32,
    pub at: u32,
    /// From where it counts, in the code as it was read and in the canonical code.
    pub base: u32,
    pub moved: u32,
    /// The offset as it was read.
    pub offset: i32,
}

/// Where the offset's target starts in the canonical code.
#[inline(always)]
fn start_of(marks: &Marks, hole: &Hole) -> Result<u32, Missed>
    requires { hole.now.base ≤ 2 ^ 24 }
    ensures is { Resolves (found_target hole.now.place
        (target_moved (mark_at marks.now) (pos hole.now.base +ℤ hole.now.offset))) result }
    ensures bound { IfOk result (λ start. start < 2 ^ 23) }
{
    let target = hole.base as i64 + hole.offset as i64;
    if target < 0 {
        return Err(Missed::Target(hole.place));
    }
    match marks.get(target as u32) {
        Some(start) => Ok(start),
        None => Err(Missed::Target(hole.place)),
    }
}

/// The same 24 bits, unsigned.
#[inline(always)]
fn low_24(offset: i32) -> u32
    requires { FitsS24 offset }
    ensures is { result ≡ low24 offset }
    ensures bound { result < 2 ^ 24 }
{
    if offset < 0 {
        return (offset + (1 << 24)) as u32;
    }
    offset as u32
}

/// Writes an offset over three bytes.
#[inline(always)]
#[tactic(auto, unfolding(abc_file_types::specs::Canonical::s24_bytes))]
fn overwrite(code: &mut [u8], at: usize, offset: i32)
    requires within { at + 3 ≤ length code.old }
    requires fits { FitsS24 offset }
    ensures { code.new ≡ splice code.old at (at + 3) (s24_bytes offset) }
{
    let low = low_24(offset);
    code[at..at + 3].copy_from_slice(&[
        (low % 256) as u8,
        (low / 256 % 256) as u8,
        (low / 65536) as u8,
    ]);
}

/// Makes the offsets those of the canonical code, or gives the place of the first that leads nowhere.
pub(crate) fn mend(code: &mut [u8], holes: &[Hole], marks: &Marks) -> Result<(), Missed>
    requires { All (IsHole (length code.old)) holes.now }
    ensures { Resolves (mended (mark_at marks.now) code.old holes.now) (stored_value result code.new) }
{
    for hole in holes {
        let start = start_of(marks, hole)?;
        overwrite(code, hole.at as usize, start as i32 - hole.moved as i32);
    }
    Ok(())
}
