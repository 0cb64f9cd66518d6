ghost use Rattle.std.specs.Prelude.{◌≡◌};
ghost use Rattle.abc_verify_typing.specs.RuleNames.{rule_name};

/// What a place asks of a state, in the order in which a refusal names it.
#[derive(Clone, Copy, Debug, PartialEq, Eq)]
pub enum VerifyRule {
    /// The opcode is run.
    NotRun,
    /// An operand is in its table.
    PoolIndex,
    /// A name has a form that the instruction takes, and a type resolves.
    NameForm,
    /// The stack has what is taken.
    StackUnder,
    /// The stack keeps to its size.
    StackOver,
    /// There is a local scope to pop.
    ScopeUnder,
    /// The local scopes keep to their size.
    ScopeOver,
    /// A local is below the number of locals.
    LocalIndex,
    /// Nothing leads to the code's end.
    OffEnd,
    /// States that meet have one shape.
    Merge,
    /// A runtime namespace is a namespace.
    NotSpace,
    /// What has a slot, or is the object of a super operation, is an object of its kind.
    NotObject,
    /// The object has the slot.
    SlotIndex,
    /// A local scope of that number is there.
    ScopeIndex,
    /// The instruction may stand in this method.
    NotHere,
    /// An index is a number.
    NotIndex,
    /// There are as many locals as a call fills.
    Parameters,
    /// The method's flags are those of this profile.
    Flags,
}

impl VerifyRule {
    /// The name of the rule, which is that of the variant.
    pub fn name(&self) -> &[u8]
        ensures { result.now ≡ rule_name self.now }
    {
        match self {
            VerifyRule::NotRun => b"NotRun",
            VerifyRule::PoolIndex => b"PoolIndex",
            VerifyRule::NameForm => b"NameForm",
            VerifyRule::StackUnder => b"StackUnder",
            VerifyRule::StackOver => b"StackOver",
            VerifyRule::ScopeUnder => b"ScopeUnder",
            VerifyRule::ScopeOver => b"ScopeOver",
            VerifyRule::LocalIndex => b"LocalIndex",
            VerifyRule::OffEnd => b"OffEnd",
            VerifyRule::Merge => b"Merge",
            VerifyRule::NotSpace => b"NotSpace",
            VerifyRule::NotObject => b"NotObject",
            VerifyRule::SlotIndex => b"SlotIndex",
            VerifyRule::ScopeIndex => b"ScopeIndex",
            VerifyRule::NotHere => b"NotHere",
            VerifyRule::NotIndex => b"NotIndex",
            VerifyRule::Parameters => b"Parameters",
            VerifyRule::Flags => b"Flags",
        }
    }
}
