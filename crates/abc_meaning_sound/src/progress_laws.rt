ghost use Rattle.abc_meaning_sound.specs.ProgressLaws.{ActsAreFair, NewsAreFair, StartsAreFair, WaitingFramesAreThere};

/// What the newest frame of a sound state does leaves the limits and the frame's method as they are, and what it returns or
/// throws is there.
pub fn acts_are_fair()
    ensures { ActsAreFair }
{}

/// So it is where the last script is started.
pub fn starts_are_fair()
    ensures { StartsAreFair }
{}

/// What a frame that waits names is there, and there is room for what returns.
pub fn waiting_frames_are_there()
    ensures { WaitingFramesAreThere }
{}

/// So it is where something is made of what returns.
pub fn news_are_fair()
    ensures { NewsAreFair }
{}
