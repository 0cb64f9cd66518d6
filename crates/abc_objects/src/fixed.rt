ghost use Rattle.std.specs.Prelude.{◌≡◌};
ghost use Rattle.abc_objects.specs.Fixed.{fixed_span};

use abc_heap_values::Span;

/// A text that is always there.
#[derive(Clone, Copy, Debug, PartialEq, Eq)]
pub enum FixedText {
    /// The empty text.
    Empty,
    /// `undefined`.
    Undefined,
    /// `null`.
    Null,
    /// `true`.
    True,
    /// `false`.
    False,
    /// `number`.
    Number,
    /// `boolean`.
    Boolean,
    /// `string`.
    Str,
    /// `object`.
    Object,
    /// `function`.
    Function,
    /// `message`.
    Message,
}

impl FixedText {
    /// Where the text lies, in part 0.
    pub fn span(self) -> Span
        ensures { result ≡ fixed_span self }
    {
        let (start, len) = match self {
            FixedText::Empty => (0, 0),
            FixedText::Undefined => (0, 9),
            FixedText::Null => (9, 4),
            FixedText::True => (13, 4),
            FixedText::False => (17, 5),
            FixedText::Number => (22, 6),
            FixedText::Boolean => (28, 7),
            FixedText::Str => (35, 6),
            FixedText::Object => (41, 6),
            FixedText::Function => (47, 8),
            FixedText::Message => (55, 7),
        };
        Span {
            part: 0,
            start,
            len,
        }
    }
}
