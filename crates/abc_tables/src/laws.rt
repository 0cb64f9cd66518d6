ghost use Rattle.std.specs.Prelude.{◌≡◌, length};
ghost use Rattle.abc_tables.specs.Lengths.{file_len};
ghost use Rattle.abc_file_types.specs.declared.tables.Abc.{Abc};
ghost use Rattle.abc_file_types.specs.Files.{file_bytes};

/// The sum over the fields of a value is the length of its canonical bytes.
pub fn canonical_length()
    ensures { (v : Abc) → length (file_bytes v) ≡ file_len v }
{}
