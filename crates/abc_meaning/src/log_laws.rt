ghost use Rattle.abc_meaning.specs.LogLaws.{ARunHasFewSteps, TooSmallIsOneLine};

/// Where an opening count passes its limit, the log is its end line alone, and no step was taken.
pub fn too_small_is_one_line()
    ensures { TooSmallIsOneLine }
{}

/// A run takes no more steps than there is fuel for.
pub fn a_run_has_few_steps()
    ensures { ARunHasFewSteps }
{}
