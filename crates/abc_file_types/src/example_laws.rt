ghost use Rattle.abc_file_types.specs.Examples.{RefusedExamples, SpelledExamples};

/// The definitions of the format say of small files what can be counted by hand: which file the bytes spell, what its
/// canonical bytes are, and for each reason where bytes are refused for it.
pub fn examples_hold()
    ensures spelled { SpelledExamples }
    ensures refused { RefusedExamples }
{}
