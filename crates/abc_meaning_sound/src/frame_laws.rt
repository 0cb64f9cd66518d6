ghost use Rattle.abc_meaning_sound.specs.FrameLaws.{FramesStaySound};

/// Frames stay sound in a heap that grew.
pub fn frames_stay_sound()
    ensures { FramesStaySound }
{}
