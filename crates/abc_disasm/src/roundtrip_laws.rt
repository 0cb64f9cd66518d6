ghost use Rattle.std.specs.Prelude.{◌≡◌, ◌<◌, All, List, ℕ};
ghost use Rattle.abc_file.specs.Narrow.{IsNarrow};
ghost use Rattle.abc_text_lines.specs.Answers.{IsAssemblyFault, IsAssemblyOf};
ghost use Rattle.abc_text_lines.specs.Listing.{listing};
ghost use Rattle.abc_disasm.specs.Narrow.{narrow_listing};
ghost use Rattle.abc_text_lines.specs.Rows.{Fault};
ghost use Rattle.abc_file_types.specs.declared.tables.Abc.{Abc};
ghost use Rattle.abc_file_types.specs.Bodies.{IsReadyBody};
ghost use Rattle.abc_file_types.specs.Files.{IsFile};

/// Where bytes, each below 256 and at most 2^24 of them, spell a file, its listing is a text of that file, and of no
/// other; and it has no fault.
pub fn listing_is_read_back()
    ensures text { (v : Abc) → (b : List ℕ) → All (λ x. x < 256) b → IsFile v b → IsAssemblyOf (listing v) v }
    ensures no_other { (v w : Abc) → (b : List ℕ) → All (λ x. x < 256) b → IsFile v b
        → IsAssemblyOf (listing v) w → w ≡ v }
    ensures no_fault { (v : Abc) → (b : List ℕ) → (f : Fault) → All (λ x. x < 256) b → IsFile v b
        → IsAssemblyFault (listing v) f → ⊥ }
{}

/// A file without multinames of kind 1D and without opcode 53, whose bodies can be written, has the text that it has by
/// the tables without these two.
pub fn texts_widened()
    ensures { (v : Abc) → All IsReadyBody v.bodies → IsNarrow v → narrow_listing v ≡ listing v }
{}
