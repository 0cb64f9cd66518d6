ghost use Rattle.std.specs.Prelude.{◌↔◌};
ghost use Rattle.abc_link_names.specs.Linked.{IsLinkedFile, LinkedFile};
ghost use Rattle.abc_verify_typing.specs.Routines.{Routine};
ghost use Rattle.abc_verify_typing.specs.Typing.{HasTyping, IsRefuted};

/// A method has a typing exactly where no place and rule refute it.
pub fn law_of_typings()
    ensures { (p : LinkedFile) (m : Routine) → IsLinkedFile p → HasTyping p m ↔ (IsRefuted p m → ⊥) }
{}
