ghost use Rattle.std.specs.Prelude.{◌↔◌, ◌≡◌, ◌++◌, List, Bool, ℕ, false};
ghost use Rattle.abc_text_lines.specs.Tokens.{Token, HasTokens};
ghost use Rattle.abc_text_lines.specs.Scanning.{Between, scan, scan_of};
ghost use Rattle.abc_text_lines.specs.Writing.{AreWritable, IsComment, written_line};

/// The bytes of a line have just the tokens, and are broken after them or not, that going over them once gives: so they
/// have exactly one list of tokens.
pub fn line_has_one_reading()
    ensures { (bytes : List ℕ) (tokens : List Token) (broken : Bool) → HasTokens broken bytes tokens
        ↔ (scan bytes Between ≡ scan_of broken tokens) }
{}

/// A line as it is written has the tokens that it was written from, with or without a comment.
pub fn written_line_is_read()
    ensures { (tokens : List Token) (comment : List ℕ) → AreWritable tokens → IsComment comment
        → HasTokens false (written_line tokens ++ comment) tokens }
{}
