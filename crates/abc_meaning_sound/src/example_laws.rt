ghost use Rattle.abc_meaning_sound.specs.Examples.{VerifiedExamples, WorkshopExamples};

/// There is a verified file with a class, a call, a closure, a handler and a second script, and one with a getter, a setter, a
/// with scope, an array, and a frame that waits for what new is done on. Their runs begin within small limits, and are done.
pub fn examples_hold()
    ensures parade { VerifiedExamples }
    ensures workshop { WorkshopExamples }
{}
