ghost use Rattle.std.specs.Prelude.{List, ℕ};
ghost use Rattle.abc_file_types.specs.declared.tables.Sizes.{Sizes};
ghost use Rattle.abc_text_lines.specs.Answers.{HasOneAnswer};
ghost use Rattle.abc_text_lines.specs.Lines.{Row};
ghost use Rattle.abc_text_lines.specs.LongCode.{TellsLongCode};
ghost use Rattle.abc_text_lines.specs.Repeats.{HasRows};

/// A text is one of exactly one file, or has exactly one fault: the first reason at the least line at which one holds, or
/// that the file is too long. Never both.
pub fn text_has_one_answer()
    ensures { (text : List ℕ) → HasOneAnswer text }
{}

/// Each line of a text with tokens has one row, which has the labels of its body's lines, and is a repeat exactly where it
/// sets a label that a line of its body before it sets, or begins a body of a method whose numeral an earlier body's line
/// has.
pub fn rows_are_of_lines()
    ensures { (text : List ℕ) → HasRows text }
{}

/// Where nothing else is told of a line, CodeTooLong is told of it exactly where it is a body's, and the lines up to the
/// next body's or to the end are those of code of 2^23 bytes or more, of handlers and of traits.
pub fn long_code_is_of_lines()
    ensures { (v : Sizes) (instances : ℕ) (row : Row) (after : List Row)
        → TellsLongCode v instances row after }
{}
