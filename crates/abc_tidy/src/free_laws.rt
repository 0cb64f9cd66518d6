ghost use Rattle.std.specs.Prelude.{◌≡◌};
ghost use Rattle.abc_tidy.specs.Free.{Free, IsFreeForm};
ghost use Rattle.abc_file_types.specs.declared.tables.Abc.{Abc};
ghost use Rattle.abc_tidy_entries.specs.Rules.{IsTidied};

/// A file has at most one free form, and an accepted file has one.
pub fn free_forms()
    ensures one { (v : Abc) → (free other : Free) → IsFreeForm v free → IsFreeForm v other → free ≡ other }
    ensures accepted { (v t : Abc) → IsTidied v t → (free : Free) × IsFreeForm v free }
{}
