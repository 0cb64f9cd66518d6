ghost use Rattle.abc_meaning_sound.specs.ObjectLaws.{RunsNeverStick, StepsStaySound};

/// A step from a sound state leaves a sound state, or an end that is not Stuck.
pub fn acts_stay_sound()
    ensures { StepsStaySound }
{}

/// No run from a sound state is stuck.
pub fn runs_never_stick()
    ensures { RunsNeverStick }
{}
