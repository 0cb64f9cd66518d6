ghost use Rattle.std.specs.Prelude.{◌≡◌, ◌↔◌, ◌∷◌, [], ◌%◌, ◌^◌, List, ℕ, ℤ};
ghost use Rattle.std.specs.Int.{cast_signed, w32};
ghost use Rattle.abc_base.specs.Numbers.{SpellsNumber, SpellsU30, SpellsU32, number_bytes};
ghost use Rattle.abc_file_types.specs.Canonical.{IsCanonical, s24_bytes, s32_bytes, text_bytes, u16_bytes};
ghost use Rattle.abc_file_types.specs.Law.{Exact};
ghost use Rattle.abc_file_types.specs.Lists.{count_and_items, pool, bytes_with_count, times};
ghost use Rattle.abc_file_types.specs.Numbers.{u8 as octet, u16 as two_bytes, u30 as small, u32 as wide, s24 as offset, s32 as signed, index_below as below, pool_index as in_pool, entry_index as of_entry};
ghost use Rattle.abc_varint.specs.Laws.{IsNumberForm};

use crate::codec::Codec;

/// What the reads and the puts of numbers stand on. A number is spelled by one to five bytes, and its raw value is the
/// sum of the low seven bits of each times 128 to the power of its position: that value itself, below 2^30; its low 32
/// bits; or the same bits in two's complement. Of each form, what reading answers is what a front of the bytes spells, or
/// their first fault; bytes begin with a number in exactly one way, or are refused at exactly one place for one reason,
/// and never both; what its put appends is a spelling wherever there is one, and none is shorter.
pub fn numbers_law()
    ensures u30 { (x : ℕ) → (b : List ℕ) → small.spells x b ↔ SpellsU30 x b }
    ensures u32 { (x : ℕ) → (b : List ℕ) → wide.spells x b ↔ SpellsU32 x b }
    ensures s32 { (z : ℤ) → (b : List ℕ) → signed.spells z b
        ↔ ((raw : ℕ) × SpellsNumber raw b × (z ≡ cast_signed w32 (raw % 2 ^ 32))) }
    ensures form_of_u30 { IsNumberForm small number_bytes }
    ensures form_of_u32 { IsNumberForm wide number_bytes }
    ensures form_of_s32 { IsNumberForm signed s32_bytes }
    ensures form_of_u8 { IsNumberForm octet (λ x. x ∷ []) }
    ensures form_of_u16 { IsNumberForm two_bytes u16_bytes }
    ensures form_of_s24 { IsNumberForm offset s24_bytes }
{}

/// What the reads of indices and texts stand on: what reading answers is what a front of the bytes spells, or their first
/// fault. The canonical bytes of a text spell it wherever any do, and no spelling is shorter.
pub fn texts_law()
    ensures index_below { (n : ℕ) → Exact (below n) }
    ensures pool_index { (n : ℕ) → Exact (in_pool n) }
    ensures entry_index { (n : ℕ) → Exact (of_entry n) }
    ensures text { Exact bytes_with_count }
    ensures shortest_text { IsCanonical bytes_with_count text_bytes }
{}

/// What the reads of lists stand on: where reading an item answers what its spellings and its faults say, so does reading
/// so many of them, a counted list, and a pool.
pub fn lists_law<C: Codec>(codec: &C)
    requires item { Exact (C.part codec.now) }
    ensures times { (n : ℕ) → Exact (times n (C.part codec.now)) }
    ensures counted { Exact (count_and_items (C.part codec.now)) }
    ensures pool { Exact (pool (C.part codec.now)) }
{}
