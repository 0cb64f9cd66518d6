ghost use Rattle.abc_meaning.specs.ThrowLaws.{ThrowsStaySound};

/// A throw from a sound state of a verified file leaves a sound state, or ends as Uncaught.
pub fn throws_stay_sound()
    ensures { ThrowsStaySound }
{}
