ghost use Rattle.abc_verify_typing.specs.Examples.{VerifyRuleExamples, TypedExamples};

/// The definitions of verifying say of small methods what can be seen by eye: some have a typing, and for each rule there is one
/// that it refutes, at the place that breaks it.
pub fn examples_hold()
    ensures typed { TypedExamples }
    ensures refuted { VerifyRuleExamples }
{}
