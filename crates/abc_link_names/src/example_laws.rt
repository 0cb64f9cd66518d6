ghost use Rattle.abc_link_names.specs.Examples.{LinkRuleExamples};

/// The definitions of the rules of linking say of small files what can be seen by eye: for each rule there is one that it
/// refuses first, by the item that breaks it; and a file with an interface and a class that implements it keeps all.
pub fn examples_hold()
    ensures { LinkRuleExamples }
{}
