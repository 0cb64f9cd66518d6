ghost use Rattle.abc_meaning_sound.specs.CallLaws.{CallsAppend, CallsAreFair, CallsBeginSound, CallsGiveThere, CallsLeaveSound, NamesAloneMatter, RunsLeaveSound};

/// A run of a verified file leaves a sound world, however it ends.
pub fn runs_leave_sound()
    ensures { RunsLeaveSound }
{}

/// A call on a sound world begins in a sound state, or ends without being stuck.
pub fn calls_begin_sound()
    ensures { CallsBeginSound }
{}

/// A call on a sound world leaves one, and is never stuck.
pub fn calls_leave_sound()
    ensures { CallsLeaveSound }
{}

/// To enter a call on a sound world leaves the limits as they are, and what is thrown there is there.
pub fn calls_are_fair()
    ensures { CallsAreFair }
{}

/// A value that a call on a sound world gives is there, in the world that the call leaves.
pub fn calls_give_there()
    ensures { CallsGiveThere }
{}

/// What was written in a call stays in front of what it writes.
pub fn calls_append()
    ensures { CallsAppend }
{}

/// A sound world stays sound beside another host, whose formulas have the same names in the same order.
pub fn names_alone_matter()
    ensures { NamesAloneMatter }
{}
