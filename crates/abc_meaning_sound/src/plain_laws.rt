ghost use Rattle.abc_meaning_sound.specs.PlainLaws.{PlainActsHold};

/// The acts that jump, those that move values alone, and operations are sound.
pub fn plain_acts_hold()
    ensures { PlainActsHold }
{}
