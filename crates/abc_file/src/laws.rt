ghost use Rattle.std.specs.Prelude.{◌≡◌, ◌↔◌, ◌≤◌, All, List, ℕ, length};
ghost use Rattle.abc_file.specs.Narrow.{IsNarrow, narrow_file};
ghost use Rattle.abc_file_types.specs.Canonical.{IsCanonical, IsLeast};
ghost use Rattle.abc_file_types.specs.declared.tables.Abc.{Abc};
ghost use Rattle.abc_file_types.specs.Bodies.{IsReadyBody};
ghost use Rattle.abc_file_types.specs.Files.{Fits, IsFile, IsFileRead, IsDecided, file, file_bytes, file_read, version};
ghost use Rattle.abc_file_types.specs.Law.{Exact};

/// Every list of bytes is spelled by exactly one file, or is bad at exactly one place for exactly one reason, and
/// never both.
pub fn one_reading()
    ensures { (b : List ℕ) → IsDecided b }
{}

/// What reading the version answers, or a file with the starts of its instructions or without, is what a front of the
/// bytes spells, or their first fault.
pub fn reading_is_exact()
    ensures version { Exact version }
    ensures file { Exact file }
    ensures file_read { Exact file_read }
{}

/// What is written spells the file, no spelling is shorter, and none as short has a lesser byte in any place; no other
/// bytes are so. Two files that can be spelled are written alike exactly where they are equal, which is what `same`
/// answers; so what is written, once it is read, is written again as it was.
pub fn canonical_form()
    ensures spelled { (v : Abc) → (b : List ℕ) → IsFile v b → IsFile v (file_bytes v) }
    ensures shortest { (v : Abc) → (b : List ℕ) → IsFile v b → length (file_bytes v) ≤ length b }
    ensures least { (v : Abc) → (b : List ℕ) → Fits v → (IsLeast file v b ↔ (b ≡ file_bytes v)) }
    ensures one_form { (v w : Abc) → Fits v → Fits w → ((file_bytes v ≡ file_bytes w) ↔ (v ≡ w)) }
    ensures once { (v w : Abc) → Fits v → IsFile w (file_bytes v) → file_bytes w ≡ file_bytes v }
{}

/// What is read beside the starts of instructions is the file, and each of its bodies can be written.
pub fn reading_gives_the_file()
    ensures file { (v : Abc) → (starts : List (List ℕ)) → (b : List ℕ) → IsFileRead (v, starts) b
        → IsFile v b }
    ensures ready { (v : Abc) → (b : List ℕ) → IsFile v b → All IsReadyBody v.bodies }
{}

/// The narrow format, which has no multinames of kind 1D and no opcode 53, spells just the files without them, by the same
/// bytes as the format does; so the same bytes are canonical of such a file in both.
pub fn widening()
    ensures same_values { (v : Abc) → (b : List ℕ)
        → (narrow_file.spells v b ↔ (file.spells v b × IsNarrow v)) }
    ensures canonical { IsCanonical narrow_file file_bytes }
    ensures same_bytes { (v : Abc) → (b : List ℕ) → IsNarrow v
        → (IsLeast narrow_file v b ↔ IsLeast file v b) }
{}
