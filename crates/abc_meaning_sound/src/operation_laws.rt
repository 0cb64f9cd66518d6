ghost use Rattle.abc_meaning_sound.specs.OperationLaws.{OperationsStaySound};

/// All operations leave a sound world, and what they answer is there and of its kind.
pub fn operations_stay_sound()
    ensures { OperationsStaySound }
{}
