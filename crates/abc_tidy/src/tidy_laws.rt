ghost use Rattle.std.specs.Prelude.{◌≡◌, ◌↔◌, MatchResult, Result};
ghost use Rattle.abc_tidy.specs.Answers.{HasOneTidying};
ghost use Rattle.abc_tidy.specs.Free.{HaveOneFree};
ghost use Rattle.abc_file_types.specs.declared.tables.Abc.{Abc};
ghost use Rattle.abc_file_types.specs.Files.{file_bytes};
ghost use Rattle.abc_tidy_entries.specs.declared.error.TidyError.{TidyError};
ghost use Rattle.abc_tidy_entries.specs.declared.error.TidyError.TheVariants as errors;
ghost use Rattle.abc_tidy_entries.specs.Rules.{IsTidied, IsTidyError};

/// A tidied file has the free form of the file, and is told by that form: two files have one free form exactly where their
/// tidied files are equal, and so exactly where these have equal canonical bytes. A file has one tidied file.
pub fn tidying_by_free_forms()
    ensures kept { (v t : Abc) → IsTidied v t → HaveOneFree v t }
    ensures values { (v t w u : Abc) → IsTidied v t → IsTidied w u → ((t ≡ u) ↔ HaveOneFree v w) }
    ensures bytes { (v t w u : Abc) → IsTidied v t → IsTidied w u
        → ((file_bytes t ≡ file_bytes u) ↔ HaveOneFree v w) }
    ensures one { (v t u : Abc) → IsTidied v t → IsTidied v u → t ≡ u }
{}

/// What `tidy` answers of a tidied file is that file, or that there was no memory.
pub fn tidied_once()
    ensures { (v t : Abc) → (answer : Result Abc TidyError) → IsTidied v t
        → MatchResult answer (IsTidied t) (IsTidyError t)
        → MatchResult answer (λ u. u ≡ t) (λ e. e ≡ errors.NoMemory) }
{}

/// A file has one tidied file, or one rule is the first that is broken, at one index, and never both; and it can't be that
/// there is neither.
pub fn tidying_has_one_answer()
    ensures { (v : Abc) → HasOneTidying v }
{}
