ghost use Rattle.abc_replay.specs.Laws.{HasOneNumber, IsNeverBoth};

/// Of one input no two answers hold: a log has one number of steps, and isn't refused.
pub fn one_replay()
    ensures one_number { HasOneNumber }
    ensures never_both { IsNeverBoth }
{}
