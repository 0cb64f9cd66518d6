ghost use Rattle.std.specs.Prelude.{◌≡◌};
ghost use Rattle.abc_text_lines.specs.Reasons.{rank_of_reason as rank_of, asm_reason_name};

/// Why a text is refused. Of the reasons that hold at a line the first in this order is told.
#[derive(Clone, Copy, Debug, PartialEq, Eq)]
pub enum AsmReason {
    /// A quote isn't closed, or a `\` in a quoted text isn't followed by two hexadecimal digits.
    Text,
    /// The first token is no line word, instruction or label line.
    Word,
    /// The line may not stand where it does, or the text has no lines.
    Order,
    /// There are too few or too many tokens.
    Operands,
    /// A token is no kind word of its place, or a quoted text, a label or a double is wanted and isn't there.
    Kind,
    /// A number is wanted and isn't there.
    Number,
    /// A number is outside its field, or the version isn't 16 46.
    Range,
    /// The lines below this one are not as many as its flags or its part ask for.
    Count,
    /// An index is outside its table.
    Index,
    /// A label is used that no line of the body sets.
    LabelMissing,
    /// A label is set a second time in the body.
    LabelTwice,
    /// The canonical code of the body has 2^23 bytes or more.
    CodeTooLong,
    /// The method has a body already.
    SecondBody,
    /// The canonical bytes are more than 2^24.
    FileTooLong,
    /// The text has more than 2^28 bytes.
    TextTooLong,
}

impl AsmReason {
    /// The number of the reason in the order in which they are tried, from 1.
    pub fn rank(&self) -> u8
        ensures { result ≡ rank_of self.now }
    {
        match self {
            AsmReason::Text => 1,
            AsmReason::Word => 2,
            AsmReason::Order => 3,
            AsmReason::Operands => 4,
            AsmReason::Kind => 5,
            AsmReason::Number => 6,
            AsmReason::Range => 7,
            AsmReason::Count => 8,
            AsmReason::Index => 9,
            AsmReason::LabelMissing => 10,
            AsmReason::LabelTwice => 11,
            AsmReason::CodeTooLong => 12,
            AsmReason::SecondBody => 13,
            AsmReason::FileTooLong => 14,
            AsmReason::TextTooLong => 15,
        }
    }

    /// The reason's name, as error lines show it.
    pub fn name(&self) -> &[u8]
        ensures { result.now ≡ asm_reason_name self.now }
    {
        match self {
            AsmReason::Text => b"Text",
            AsmReason::Word => b"Word",
            AsmReason::Order => b"Order",
            AsmReason::Operands => b"Operands",
            AsmReason::Kind => b"Kind",
            AsmReason::Number => b"Number",
            AsmReason::Range => b"Range",
            AsmReason::Count => b"Count",
            AsmReason::Index => b"Index",
            AsmReason::LabelMissing => b"LabelMissing",
            AsmReason::LabelTwice => b"LabelTwice",
            AsmReason::CodeTooLong => b"CodeTooLong",
            AsmReason::SecondBody => b"SecondBody",
            AsmReason::FileTooLong => b"FileTooLong",
            AsmReason::TextTooLong => b"TextTooLong",
        }
    }
}
