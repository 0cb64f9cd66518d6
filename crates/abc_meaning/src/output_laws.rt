ghost use Rattle.abc_meaning.specs.OutputLaws.{RunsAppend, StepsAppend, StepsChangeOnce};

/// What was written before a step stays in front of what is written after it.
pub fn steps_append()
    ensures { StepsAppend }
{}

/// What was written stays in front of what a run writes, with any fuel.
pub fn runs_append()
    ensures { RunsAppend }
{}

/// A step that starts a script starts no other, and writes nothing.
pub fn steps_change_once()
    ensures { StepsChangeOnce }
{}
