ghost use Rattle.abc_meaning_sound.specs.StepLaws.{StepsBySoundActs};

/// Where the acts of the instructions are sound, a step from a sound state leaves one.
pub fn steps_by_sound_acts()
    ensures { StepsBySoundActs }
{}
