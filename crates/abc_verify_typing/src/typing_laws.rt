ghost use Rattle.std.specs.Prelude.{◌≡◌, ℕ};
ghost use Rattle.abc_link_names.specs.Linked.{IsLinkedFile, LinkedFile};
ghost use Rattle.abc_verify_typing.specs.Routines.{Routine};
ghost use Rattle.abc_verify_typing.specs.Typing.{IsFine, Follows, StateLe};
ghost use Rattle.abc_verify_typing.specs.declared.state.State.{State as AnyState};

/// The rules are monotone, all together: what breaks none breaks none below. So is what follows a state.
pub fn law_of_rules()
    ensures fine { (p : LinkedFile) (m : Routine) (i : ℕ) (s t : AnyState) → IsLinkedFile p → StateLe p s t
        → IsFine p m i t → IsFine p m i s }
    ensures follows { (p : LinkedFile) (m : Routine) (i : ℕ) (s t : AnyState) (k : ℕ) (n : AnyState)
        → IsLinkedFile p → StateLe p s t → IsFine p m i t → Follows p m i s k n
        → (u : AnyState) × Follows p m i t k u × StateLe p n u }
{}
