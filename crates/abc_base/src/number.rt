ghost use Rattle.std.specs.Prelude.{◌≡◌, ◌<◌, ◌^◌, length};
ghost use Rattle.abc_base.specs.Numbers.{IsFewest, SpellsU30, SpellsU32, number_bytes};

/// How many bytes a u30 takes in its canonical spelling, 1 to 5. A number of 2^30 or more counts as a u32.
#[inline]
pub fn len_u30(v: u32) -> u32
    ensures is { result ≡ length (number_bytes v) }
    ensures fewest { v < 2 ^ 30 → IsFewest (SpellsU30 v) result }
{
    len_u32(v)
}

/// How many bytes a u32 takes in its canonical spelling, 1 to 5.
#[inline]
pub fn len_u32(v: u32) -> u32
    ensures is { result ≡ length (number_bytes v) }
    ensures fewest { IsFewest (SpellsU32 v) result }
{
    match v {
        0..0x80 => 1,
        0x80..0x4000 => 2,
        0x4000..0x20_0000 => 3,
        0x20_0000..0x1000_0000 => 4,
        _ => 5,
    }
}
