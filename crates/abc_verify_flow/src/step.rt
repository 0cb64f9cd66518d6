use abc_base::NoMemory;
use abc_verify_typing::VerifyRule;

/// Which locals a step wrote.
#[derive(Clone, Copy, Debug)]
pub enum Written {
    Nothing,
    One(u32),
    /// Two that are not the same.
    Two(u32, u32),
}

/// Where a step leads.
#[derive(Clone, Copy, Debug)]
pub struct Step {
    /// To the next place.
    pub next: bool,
    /// To the places that the instruction names.
    pub jumps: bool,
    pub written: Written,
}

/// What comes of an instruction: the rule that the state breaks at its place, or where the step leads.
#[derive(Clone, Copy, Debug)]
pub enum Trial {
    Breaks(VerifyRule),
    Steps(Step),
}

/// Two states of one place together.
#[derive(Clone, Copy, Debug)]
pub enum Merged {
    /// The second is at most the first.
    Same,
    /// The least state above both was made.
    Joined,
    /// They have not one shape.
    Unequal,
}

/// A state that flows to a place.
#[derive(Clone, Copy, Debug)]
pub(crate) enum Met {
    /// No state was known there.
    First,
    /// It is at most what was known there.
    Same,
    /// It was joined to what was known there.
    Joined,
    /// It has not the shape of what is known there.
    Unequal,
}

/// Whether a walk goes on to the next place, and which locals were written.
#[derive(Clone, Copy, Debug)]
pub enum Onward {
    Stops,
    GoesOn(Written),
}

/// Why no typing was found: a place and a rule that refute every typing, or want of memory.
#[derive(Clone, Copy, Debug)]
pub enum Refusal {
    Refused(u32, VerifyRule),
    NoMemory,
}

impl From<NoMemory> for Refusal {
    ghost use Rattle.abc_verify_flow.specs.declared.step.Refusal.TheVariants as refusals;
    ghost use Rattle.std.specs.Prelude.{◌≡◌};

    ghost from_gives = { λ _ e. e ≡ refusals.NoMemory };

    fn from(_e: NoMemory) -> Refusal {
        Refusal::NoMemory
    }
}
