ghost use Rattle.std.specs.Prelude.{◌≡◌, ◌≤◌, ◌<◌, ◌*◌, ◌+◌, ◌%◌, ◌^◌, Some, Err, IfOk, IfErr, OnErr, OnOk, length, take};
ghost use Rattle.abc_base.specs.Numbers.{number_bytes, signed24};
ghost use Rattle.abc_file_types.specs.Numbers.{groups, number, u16 as two_bytes, u30 as small, u32 as wide, s24 as offset, s32 as signed, index_below as below, pool_index as in_pool, entry_index as of_entry};
ghost use Rattle.abc_varint.specs.Reads.{AnswersKeptErr, Blames, Reads, ReadsNumber, ReadsPart};
ghost use Rattle.abc_varint.specs.View.{IsKept, GoesOver};
ghost use Rattle.abc_varint.specs.declared.error.ReadError.{ReadError};

use crate::error::ReadError;
use crate::window::Window;
use abc_base::Source;
use abc_file_types::Reason;

/// At most `more` further bytes of a number that began at `start`.
#[tactic(auto, using(crate::proofs::Steps::groups_step, crate::proofs::Steps::bound_step, crate::proofs::Steps::bound_one, abc_base::proofs::Spelling::length_1))]
fn next_groups<S: Source>(
    w: &mut Window,
    source: &mut S,
    more: u32,
    start: u32,
) -> Result<u64, ReadError>
    requires { more ≤ 5 }
    ensures value { Reads (groups more start) w.old (S.left source.old) w.new (S.left source.new) result }
    ensures kept { 0 < more → AnswersKeptErr w.old source.old w.new source.new result }
    ensures no_memory { result ≡ Err ReadError.NoMemory → ⊥ }
    ensures keeps { IfErr result (λ e. IsKept e w.new) }
    ensures stays { OnErr result (w.new.end ≡ w.old.end) }
    ensures bound { IfOk result (λ x. x < 128 ^ more) }
    ensures later { S.faults source.old ≤ S.faults source.new }
    ensures cause { Blames w.old (S.faults source.old) (S.faults source.new) result }
    ensures rises { OnOk result (0 < more → w.old.place < w.new.place) }
    ensures passes { IfOk result (λ x. GoesOver (length (number_bytes x)) w.old w.new) }
{
    if more == 0 {
        return Err(w.refuse(start, Reason::LongNumber));
    }
    let x = w.next_u8(source)?;
    if x < 128 {
        return Ok(x as u64);
    }
    let high = next_groups(w, source, more - 1, start)?;
    Ok((x % 128) as u64 + 128 * high)
}

/// A raw value of up to 35 bits.
#[inline(always)]
#[tactic(auto, using(crate::proofs::Front::number_passes))]
fn next_number<S: Source>(w: &mut Window, source: &mut S) -> Result<u64, ReadError>
    ensures value { ReadsNumber S.left S.faults number w.old source.old w.new source.new result }
    ensures bound { IfOk result (λ x. x < 2 ^ 35) }
    ensures rises { OnOk result (w.old.place < w.new.place) }
    ensures passes { IfOk result (λ x. GoesOver (length (number_bytes x)) w.old w.new) }
    ensures room { w.old.place ≤ 2 ^ 24 }
{
    match w.take_number() {
        Some(x) => Ok(x),
        None => slow_number(w, source),
    }
}

/// A raw value of up to 35 bits, byte by byte.
#[cold]
#[inline(never)]
#[tactic(auto, using(crate::proofs::Steps::bound_all))]
fn slow_number<S: Source>(w: &mut Window, source: &mut S) -> Result<u64, ReadError>
    ensures value { ReadsNumber S.left S.faults number w.old source.old w.new source.new result }
    ensures bound { IfOk result (λ x. x < 2 ^ 35) }
    ensures rises { OnOk result (w.old.place < w.new.place) }
    ensures passes { IfOk result (λ x. GoesOver (length (number_bytes x)) w.old w.new) }
    ensures room { w.old.place ≤ 2 ^ 24 }
{
    let start = w.place();
    next_groups(w, source, 5, start)
}

/// A number below 2^30.
#[inline(always)]
#[tactic(auto, unfolding(abc_file_types::specs::Numbers::u30))]
pub fn next_u30<S: Source>(w: &mut Window, source: &mut S) -> Result<u32, ReadError>
    ensures value { ReadsNumber S.left S.faults small w.old source.old w.new source.new result }
    ensures bound { IfOk result (λ x. x < 2 ^ 30) }
    ensures rises { OnOk result (w.old.place < w.new.place) }
    ensures passes { IfOk result (λ x. GoesOver (length (number_bytes x)) w.old w.new) }
    ensures room { w.old.place ≤ 2 ^ 24 }
{
    let start = w.place();
    let x = next_number(w, source)?;
    if x >= 1 << 30 {
        return Err(w.refuse(start, Reason::BigNumber));
    }
    Ok(x as u32)
}

/// The low 32 bits of a raw value.
#[inline(always)]
#[tactic(auto, unfolding(abc_file_types::specs::Numbers::u32), using(abc_base::proofs::Spelling::number_grows))]
pub fn next_u32<S: Source>(w: &mut Window, source: &mut S) -> Result<u32, ReadError>
    ensures value { ReadsNumber S.left S.faults wide w.old source.old w.new source.new result }
    ensures rises { OnOk result (w.old.place < w.new.place) }
    ensures passes { IfOk result (λ x. GoesOver (length (number_bytes x)) w.old w.new) }
    ensures room { w.old.place ≤ 2 ^ 24 }
{
    let x = next_number(w, source)?;
    Ok((x % (1 << 32)) as u32)
}

/// The low 32 bits of a raw value, in two's complement.
#[inline(always)]
#[tactic(auto, unfolding(abc_file_types::specs::Numbers::s32))]
pub fn next_s32<S: Source>(w: &mut Window, source: &mut S) -> Result<i32, ReadError>
    ensures value { ReadsNumber S.left S.faults signed w.old source.old w.new source.new result }
    ensures rises { OnOk result (w.old.place < w.new.place) }
    ensures room { w.old.place ≤ 2 ^ 24 }
{
    let x = next_number(w, source)?;
    Ok(((x % (1 << 32)) as u32).cast_signed())
}

/// Two bytes, the low one first.
#[inline(always)]
#[tactic(auto, unfolding(abc_file_types::specs::Numbers::u16))]
pub fn next_u16<S: Source>(w: &mut Window, source: &mut S) -> Result<u16, ReadError>
    ensures value { ReadsNumber S.left S.faults two_bytes w.old source.old w.new source.new result }
    ensures moves { OnOk result (w.new.place ≡ w.old.place + 2) }
    ensures room { w.old.place ≤ 2 ^ 24 }
{
    let low = w.next_u8(source)?;
    let high = w.next_u8(source)?;
    Ok(low as u16 + 256 * high as u16)
}

/// 24 bits, in two's complement.
#[inline(always)]
fn signed_24(low: u8, middle: u8, high: u8) -> i32
    ensures { result ≡ signed24 (low % 256 + 256 * (middle % 256) + 65536 * (high % 256)) }
{
    let raw = low as u32 + 256 * middle as u32 + 65536 * high as u32;
    if raw < 1 << 23 {
        return raw as i32;
    }
    raw as i32 - (1 << 24)
}

/// The number that the first three bytes spell, the low one first, in two's complement.
#[inline(always)]
#[tactic(auto, using(crate::proofs::Front::three_bytes))]
pub fn front_s24(bytes: &[u8]) -> i32
    requires { 3 ≤ length bytes.now }
    ensures { offset.spells result (take 3 bytes.now) }
{
    signed_24(bytes[0], bytes[1], bytes[2])
}

/// Three bytes, the low one first, in two's complement.
#[tactic(auto, unfolding(abc_file_types::specs::Numbers::s24))]
pub fn next_s24<S: Source>(w: &mut Window, source: &mut S) -> Result<i32, ReadError>
    ensures value { ReadsNumber S.left S.faults offset w.old source.old w.new source.new result }
    ensures moves { OnOk result (w.new.place ≡ w.old.place + 3) }
    ensures within { OnOk result (w.new.place ≤ w.old.end) }
    ensures room { w.old.place ≤ 2 ^ 24 }
{
    let a = w.next_u8(source)?;
    let b = w.next_u8(source)?;
    let c = w.next_u8(source)?;
    Ok(signed_24(a, b, c))
}

/// A position in a table of n entries.
#[inline(always)]
#[tactic(auto, unfolding(abc_file_types::specs::Numbers::index_below))]
pub fn next_index_below<S: Source>(w: &mut Window, source: &mut S, n: u32) -> Result<u32, ReadError>
    ensures value { ReadsPart S.left S.faults (below n) w.old source.old w.new source.new result }
    ensures no_memory { result ≡ Err ReadError.NoMemory → ⊥ }
    ensures rises { OnOk result (w.old.place < w.new.place) }
    ensures room { w.old.place ≤ 2 ^ 24 }
{
    let place = w.place();
    let x = next_u30(w, source)?;
    if x >= n {
        return Err(ReadError::Refused {
            place,
            reason: Reason::Index,
        });
    }
    Ok(x)
}

/// An index into a pool of n entries, or 0.
#[inline(always)]
#[tactic(auto, unfolding(abc_file_types::specs::Numbers::pool_index))]
pub fn next_pool_index<S: Source>(w: &mut Window, source: &mut S, n: u32) -> Result<u32, ReadError>
    ensures value { ReadsPart S.left S.faults (in_pool n) w.old source.old w.new source.new result }
    ensures no_memory { result ≡ Err ReadError.NoMemory → ⊥ }
    ensures rises { OnOk result (w.old.place < w.new.place) }
    ensures room { w.old.place ≤ 2 ^ 24 }
{
    let place = w.place();
    let x = next_u30(w, source)?;
    if x > n {
        return Err(ReadError::Refused {
            place,
            reason: Reason::Index,
        });
    }
    Ok(x)
}

/// An index into a pool of n entries, not 0.
#[inline(always)]
#[tactic(auto, unfolding(abc_file_types::specs::Numbers::entry_index))]
pub fn next_entry_index<S: Source>(w: &mut Window, source: &mut S, n: u32) -> Result<u32, ReadError>
    ensures value { ReadsPart S.left S.faults (of_entry n) w.old source.old w.new source.new result }
    ensures no_memory { result ≡ Err ReadError.NoMemory → ⊥ }
    ensures rises { OnOk result (w.old.place < w.new.place) }
    ensures room { w.old.place ≤ 2 ^ 24 }
{
    let place = w.place();
    let x = next_u30(w, source)?;
    if x < 1 || x > n {
        return Err(ReadError::Refused {
            place,
            reason: Reason::Index,
        });
    }
    Ok(x)
}
