ghost use Rattle.std.specs.Prelude.{◌≡◌, ◌≤◌, ◌<◌, ◌+◌, ◌^◌, Err, IfOk, OnOk, length};
ghost use Rattle.abc_base.specs.Numbers.{number_bytes};
ghost use Rattle.abc_file_types.specs.Numbers.{u8 as octet, u16 as two_bytes, u30 as small, u32 as wide, s24 as offset, s32 as signed, index_below as below, pool_index as in_pool, entry_index as of_entry};
ghost use Rattle.abc_varint.specs.Answers.{AnswersPart};
ghost use Rattle.abc_varint.specs.Reads.{ReadsNumber, ReadsPart};
ghost use Rattle.abc_varint.specs.View.{GoesOver};
ghost use Rattle.abc_varint.specs.declared.error.ReadError.{ReadError};

use crate::error::ReadError;
use crate::number::{
    next_entry_index, next_index_below, next_pool_index, next_s24, next_s32, next_u16, next_u30,
    next_u32,
};
use crate::window::Window;
use abc_base::Source;

// Each read of a number answers an Err that the window keeps, and every later read answers that Err again. `ReadFault`
// comes only where the source's count of faults rose, and no read of a number takes memory.
//
// Whether the source tells its bytes or not, the window goes over no fewer bytes than the canonical spelling of a
// `read_u30` or a `read_u32` has, and every byte that is read stands before its end.

/// A byte, 0 to 255. It is refused at its place: by `CodeEnds` at the window's end or after it, else by `Short` where
/// the input has ended, else by `FileTooLong` at place 2^24.
#[inline(always)]
pub fn read_u8<S: Source>(w: &mut Window, source: &mut S) -> Result<u8, ReadError>
    ensures value { ReadsNumber S.left S.faults octet w.old source.old w.new source.new result }
    ensures answers { AnswersPart octet w.old (S.left source.old) w.new (S.left source.new) result }
    ensures moves { OnOk result (w.new.place ≡ w.old.place + 1) }
    ensures within { OnOk result (w.new.place ≤ w.old.end) }
{
    w.next_u8(source)
}

/// A number of two bytes, the low one first. Each byte is refused as by `read_u8`.
#[inline(always)]
pub fn read_u16<S: Source>(w: &mut Window, source: &mut S) -> Result<u16, ReadError>
    ensures value { ReadsNumber S.left S.faults two_bytes w.old source.old w.new source.new result }
    ensures answers { AnswersPart two_bytes w.old (S.left source.old) w.new (S.left source.new) result }
    ensures moves { OnOk result (w.new.place ≡ w.old.place + 2) }
{
    next_u16(w, source)
}

/// A number below 2^30, in one to five bytes. Each byte is refused as by `read_u8`; the number by `LongNumber` where
/// its fifth byte has the high bit set, and by `BigNumber` where it is 2^30 or more, both at its first byte.
#[inline(always)]
pub fn read_u30<S: Source>(w: &mut Window, source: &mut S) -> Result<u32, ReadError>
    ensures value { ReadsNumber S.left S.faults small w.old source.old w.new source.new result }
    ensures answers { AnswersPart small w.old (S.left source.old) w.new (S.left source.new) result }
    ensures bound { IfOk result (λ x. x < 2 ^ 30) }
    ensures rises { OnOk result (w.old.place < w.new.place) }
    ensures passes { IfOk result (λ x. GoesOver (length (number_bytes x)) w.old w.new) }
{
    next_u30(w, source)
}

/// The low 32 bits of a number in one to five bytes, which is refused as by `read_u30` but for `BigNumber`.
#[inline(always)]
pub fn read_u32<S: Source>(w: &mut Window, source: &mut S) -> Result<u32, ReadError>
    ensures value { ReadsNumber S.left S.faults wide w.old source.old w.new source.new result }
    ensures answers { AnswersPart wide w.old (S.left source.old) w.new (S.left source.new) result }
    ensures rises { OnOk result (w.old.place < w.new.place) }
    ensures passes { IfOk result (λ x. GoesOver (length (number_bytes x)) w.old w.new) }
{
    next_u32(w, source)
}

/// The same 32 bits as by `read_u32`, in two's complement.
#[inline(always)]
pub fn read_s32<S: Source>(w: &mut Window, source: &mut S) -> Result<i32, ReadError>
    ensures value { ReadsNumber S.left S.faults signed w.old source.old w.new source.new result }
    ensures answers { AnswersPart signed w.old (S.left source.old) w.new (S.left source.new) result }
    ensures rises { OnOk result (w.old.place < w.new.place) }
{
    next_s32(w, source)
}

/// Three bytes, the low one first, in two's complement: -2^23 to 2^23 - 1. Each byte is refused as by `read_u8`.
#[inline(always)]
pub fn read_s24<S: Source>(w: &mut Window, source: &mut S) -> Result<i32, ReadError>
    ensures value { ReadsNumber S.left S.faults offset w.old source.old w.new source.new result }
    ensures answers { AnswersPart offset w.old (S.left source.old) w.new (S.left source.new) result }
    ensures moves { OnOk result (w.new.place ≡ w.old.place + 3) }
    ensures within { OnOk result (w.new.place ≤ w.old.end) }
{
    next_s24(w, source)
}

/// A position in a table of n entries that counts from 0. It is refused as by `read_u30`, and then by `Index` where it
/// is n or more, at its first byte; the window does not keep that refusal.
#[inline(always)]
pub fn read_index_below<S: Source>(w: &mut Window, source: &mut S, n: u32) -> Result<u32, ReadError>
    ensures value { ReadsPart S.left S.faults (below n) w.old source.old w.new source.new result }
    ensures answers { AnswersPart (below n) w.old (S.left source.old) w.new (S.left source.new) result }
    ensures no_memory { result ≡ Err ReadError.NoMemory → ⊥ }
    ensures rises { OnOk result (w.old.place < w.new.place) }
{
    next_index_below(w, source, n)
}

/// An index into a pool of n entries that count from 1, or 0. It is refused as by `read_u30`, and then by `Index` where
/// it is above n, at its first byte; the window does not keep that refusal.
#[inline(always)]
pub fn read_pool_index<S: Source>(w: &mut Window, source: &mut S, n: u32) -> Result<u32, ReadError>
    ensures value { ReadsPart S.left S.faults (in_pool n) w.old source.old w.new source.new result }
    ensures answers { AnswersPart (in_pool n) w.old (S.left source.old) w.new (S.left source.new) result }
    ensures no_memory { result ≡ Err ReadError.NoMemory → ⊥ }
    ensures rises { OnOk result (w.old.place < w.new.place) }
{
    next_pool_index(w, source, n)
}

/// An index into a pool of n entries that count from 1. It is refused as by `read_u30`, and then by `Index` where it is
/// 0 or above n, at its first byte; the window does not keep that refusal.
#[inline(always)]
pub fn read_entry_index<S: Source>(w: &mut Window, source: &mut S, n: u32) -> Result<u32, ReadError>
    ensures value { ReadsPart S.left S.faults (of_entry n) w.old source.old w.new source.new result }
    ensures answers { AnswersPart (of_entry n) w.old (S.left source.old) w.new (S.left source.new) result }
    ensures no_memory { result ≡ Err ReadError.NoMemory → ⊥ }
    ensures rises { OnOk result (w.old.place < w.new.place) }
{
    next_entry_index(w, source, n)
}
