ghost use Rattle.abc_machine.specs.ReachedLaws.{RunsBeginReached, SomeRunsBegin, StepsStayReached};

/// Every run of a verified file begins in a state whose step can be done, with any host and limits within which it begins.
pub fn runs_begin_reached()
    ensures { RunsBeginReached }
{}

/// So it is of a state that a step leaves, whatever the step wrote.
pub fn steps_stay_reached()
    ensures { StepsStayReached }
{}

/// There is a verified file with a host and limits within which its run begins: all that a step asks can be met together.
pub fn some_runs_begin()
    ensures { SomeRunsBegin }
{}
