ghost use Rattle.abc_meaning_sound.specs.Premise.{FirstByNames, SoundFramesRun, VerifiedHaveTypings};

/// In a sound state of a verified file, what the newest frame names is there, and an instruction stands at its place, of which
/// no test fails.
pub fn sound_frames_run()
    ensures { SoundFramesRun }
{}

/// A verified file has a typing for each method that has a body.
pub fn verified_have_typings()
    ensures { VerifiedHaveTypings }
{}

/// Two hosts whose formulas have the same names, in the same order, begin a run alike.
pub fn first_by_names()
    ensures { FirstByNames }
{}
