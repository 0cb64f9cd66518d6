ghost use Rattle.std.specs.Prelude.{◌≡◌, ◌≤◌, ◌<◌, ◌+◌, ◌%◌, ◌^◌, ◌∷◌, []};
ghost use Rattle.abc_base.specs.Numbers.{number_bytes};
ghost use Rattle.abc_file_types.specs.Canonical.{FitsS24, low24, s24_bytes, s32_bytes, text_bytes, u16_bytes};
ghost use Rattle.abc_varint.specs.Puts.{Puts, PutsWhole};

use abc_base::{Bytes, NoMemory};

// Each of these appends the shortest spelling of a value. Where memory runs out, the bytes stay as they were.

/// Appends a byte.
#[inline(always)]
pub fn put_u8(v: u8, out: &mut Vec<u8>) -> Result<(), NoMemory>
    ensures { PutsWhole out.old.items out.new.items result (v ∷ []) }
{
    out.push(v)?;
    Ok(())
}

/// Appends two bytes, the low one first.
#[inline(always)]
#[tactic(auto, unfolding(abc_file_types::specs::Canonical::u16_bytes))]
pub fn put_u16(v: u16, out: &mut Vec<u8>) -> Result<(), NoMemory>
    ensures { PutsWhole out.old.items out.new.items result (u16_bytes v) }
{
    out.extend_from_slice(&[(v % 256) as u8, (v / 256) as u8])?;
    Ok(())
}

/// Appends a number in as few bytes as it needs, one to five. `read_u30` takes it back where it is below 2^30.
#[inline(always)]
pub fn put_u30(v: u32, out: &mut Vec<u8>) -> Result<(), NoMemory>
    ensures { PutsWhole out.old.items out.new.items result (number_bytes v) }
{
    put_number(v as u64, out)
}

/// Appends a number in as few bytes as it needs, one to five.
#[inline(always)]
pub fn put_u32(v: u32, out: &mut Vec<u8>) -> Result<(), NoMemory>
    ensures { PutsWhole out.old.items out.new.items result (number_bytes v) }
{
    put_number(v as u64, out)
}

/// Appends a number as its 32 bits in two's complement, in as few bytes as they need, one to five.
#[inline(always)]
#[tactic(auto, unfolding(abc_file_types::specs::Canonical::s32_bytes))]
pub fn put_s32(v: i32, out: &mut Vec<u8>) -> Result<(), NoMemory>
    ensures { PutsWhole out.old.items out.new.items result (s32_bytes v) }
{
    put_number(v.cast_unsigned() as u64, out)
}

/// Appends a number from -2^23 to 2^23 - 1 as three bytes in two's complement, the low one first.
#[tactic(auto, unfolding(abc_file_types::specs::Canonical::s24_bytes))]
pub fn put_s24(v: i32, out: &mut Vec<u8>) -> Result<(), NoMemory>
    requires { FitsS24 v }
    ensures { PutsWhole out.old.items out.new.items result (s24_bytes v) }
{
    let low = low_24(v);
    out.extend_from_slice(&[
        (low % 256) as u8,
        (low / 256 % 256) as u8,
        (low / 65536) as u8,
    ])?;
    Ok(())
}

/// Appends how many there are of something, in as few bytes as the number needs. `read_u30` takes it back where it is
/// below 2^30.
#[inline(always)]
pub fn put_count(n: usize, out: &mut Vec<u8>) -> Result<(), NoMemory>
    ensures { PutsWhole out.old.items out.new.items result (number_bytes n) }
{
    put_number(n as u64, out)
}

/// Appends a text: the number of its bytes, and the bytes. Where memory runs out, the old bytes are still the front.
#[inline(always)]
#[tactic(auto, unfolding(abc_file_types::specs::Canonical::text_bytes), using(crate::proofs::Putting::stays, std::proofs::Common::append_assoc))]
pub fn put_text(bytes: &Bytes, out: &mut Vec<u8>) -> Result<(), NoMemory>
    ensures { Puts out.old.items out.new.items result (text_bytes bytes.now) }
{
    put_count(bytes.len(), out)?;
    out.extend_from_slice(bytes.as_slice())?;
    Ok(())
}

/// The same 24 bits, unsigned.
fn low_24(v: i32) -> u32
    requires { FitsS24 v }
    ensures is { result ≡ low24 v }
    ensures bound { result < 2 ^ 24 }
{
    if v < 0 {
        return (v + (1 << 24)) as u32;
    }
    v as u32
}

/// Seven bits, with the high bit set: another byte follows.
#[inline]
fn more(v: u64) -> u8
    ensures { result ≡ v % 128 + 128 }
{
    (v % 128 + 128) as u8
}

/// Appends groups of seven bits, the low ones first, as many as the number needs and at most five.
#[inline(always)]
#[tactic(auto, using(crate::proofs::Putting::bytes_1))]
pub fn put_number(v: u64, out: &mut Vec<u8>) -> Result<(), NoMemory>
    ensures { PutsWhole out.old.items out.new.items result (number_bytes v) }
{
    if v < 128 {
        out.push(v as u8)?;
        return Ok(());
    }
    put_longer(v, out)
}

/// Appends two groups or more.
#[inline(never)]
fn put_longer(v: u64, out: &mut Vec<u8>) -> Result<(), NoMemory>
    requires { 128 ≤ v }
    ensures { PutsWhole out.old.items out.new.items result (number_bytes v) }
{
    if out.capacity() - out.len() < 5 {
        return put_with_growth(v, out);
    }
    put_groups(v, out)
}

/// Appends two groups or more, where there may be no room for them yet.
#[cold]
#[inline(never)]
fn put_with_growth(v: u64, out: &mut Vec<u8>) -> Result<(), NoMemory>
    requires { 128 ≤ v }
    ensures { PutsWhole out.old.items out.new.items result (number_bytes v) }
{
    put_groups(v, out)
}

/// Appends two groups or more, the low ones first.
#[inline(always)]
#[tactic(auto, using(crate::proofs::Putting::bytes_2))]
fn put_groups(v: u64, out: &mut Vec<u8>) -> Result<(), NoMemory>
    requires { 128 ≤ v }
    ensures { PutsWhole out.old.items out.new.items result (number_bytes v) }
{
    let v1 = v / 128;
    let v2 = v1 / 128;
    let v3 = v2 / 128;
    let v4 = v3 / 128;
    if v1 < 128 {
        out.extend_from_slice(&[more(v), v1 as u8])?;
        return Ok(());
    }
    if v2 < 128 {
        out.extend_from_slice(&[more(v), more(v1), v2 as u8])?;
        return Ok(());
    }
    if v3 < 128 {
        out.extend_from_slice(&[more(v), more(v1), more(v2), v3 as u8])?;
        return Ok(());
    }
    if v4 < 128 {
        out.extend_from_slice(&[more(v), more(v1), more(v2), more(v3), v4 as u8])?;
        return Ok(());
    }
    out.extend_from_slice(&[more(v), more(v1), more(v2), more(v3), more(v4)])?;
    Ok(())
}
