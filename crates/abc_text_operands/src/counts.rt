//! The tokens of a line that has so many.
ghost use Rattle.std.specs.Prelude.{◌≡◌, ◌∷◌, [], length, MatchOption};

use abc_text_tokens::Token;

/// The only token.
pub fn one_token<'a>(tokens: &[Token<'a>]) -> Option<Token<'a>>
    ensures { MatchOption result (¬ (length tokens.now ≡ 1)) (λ t. tokens.now ≡ t ∷ []) }
{
    if tokens.len() != 1 {
        return None;
    }
    Some(tokens[0])
}

/// Two tokens, which are all.
pub fn two_tokens<'a>(tokens: &[Token<'a>]) -> Option<(Token<'a>, Token<'a>)>
    ensures { MatchOption result (¬ (length tokens.now ≡ 2)) (λ t. tokens.now ≡ t.0 ∷ t.1 ∷ []) }
{
    if tokens.len() != 2 {
        return None;
    }
    Some((tokens[0], tokens[1]))
}

/// Three tokens, which are all.
pub fn three_tokens<'a>(tokens: &[Token<'a>]) -> Option<(Token<'a>, Token<'a>, Token<'a>)>
    ensures { MatchOption result (¬ (length tokens.now ≡ 3)) (λ t. tokens.now ≡ t.0 ∷ t.1 ∷ t.2 ∷ []) }
{
    if tokens.len() != 3 {
        return None;
    }
    Some((tokens[0], tokens[1], tokens[2]))
}

/// Five tokens, which are all.
pub fn five_tokens<'a>(
    tokens: &[Token<'a>],
) -> Option<(Token<'a>, Token<'a>, Token<'a>, Token<'a>, Token<'a>)>
    ensures { MatchOption result (¬ (length tokens.now ≡ 5))
        (λ t. tokens.now ≡ t.0 ∷ t.1 ∷ t.2 ∷ t.3 ∷ t.4 ∷ []) }
{
    if tokens.len() != 5 {
        return None;
    }
    Some((tokens[0], tokens[1], tokens[2], tokens[3], tokens[4]))
}
