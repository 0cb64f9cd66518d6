ghost use Rattle.abc_meaning.specs.Examples.{RunExamples, WaitExamples};
ghost use Rattle.abc_meaning.specs.StuckExamples.{StuckExamples};

/// The definitions of the meaning say of small programs what can be seen by eye: what they write and how they end, how a
/// frame waits while another runs, and that each test of a step fails by itself.
pub fn examples_hold()
    ensures runs { RunExamples }
    ensures waits { WaitExamples }
    ensures sticks { StuckExamples }
{}
