ghost use Rattle.std.specs.Prelude.{◌≡◌, ℕ, List, Bool};
ghost use Rattle.abc_heap_values.specs.declared.values.Span.{Span};

use crate::values::Span;

/// What tells the bytes of texts, and which namespaces are equal.
pub trait Texts {
    /// Whether a text is there.
    ghost has: { Self → Span → Type 0 };

    /// The bytes of a text.
    ghost text: { Self → Span → List ℕ };

    /// Whether two namespaces are equal.
    ghost same: { Self → ℕ → ℕ → Bool };

    /// The bytes of a text.
    fn bytes(&self, s: Span) -> &[u8]
        requires { has self.now s }
        ensures { result.now ≡ text self.now s };

    /// Whether two namespaces of the pool are equal.
    fn is_same_space(&self, a: u32, b: u32) -> bool
        ensures { result ≡ same self.now a b };
}
