//! The kind words of each place.
ghost use Rattle.std.specs.Prelude.{◌≡◌, []};
ghost use Rattle.abc_text_lines.specs.Kinds as kinds;
ghost use Rattle.abc_text_tokens.specs.Walks.{token_as_text};

use abc_file_types::{MultinameKind, NsKind, TraitKind, ValueKind};
use abc_text_lines::AsmReason;
use abc_text_tokens::{Token, find_kind};

const SPACE_WORDS: [([u8; 16], NsKind); 7] = [
    (*b"Private         ", NsKind::Private),
    (*b"Namespace       ", NsKind::Namespace),
    (*b"Package         ", NsKind::Package),
    (*b"PackageInternal ", NsKind::PackageInternal),
    (*b"Protected       ", NsKind::Protected),
    (*b"Explicit        ", NsKind::Explicit),
    (*b"StaticProtected ", NsKind::StaticProtected),
];

/// The kind of a namespace.
#[tactic(auto, unfolding(abc_text_lines::specs::Kinds::space_kind))]
pub fn space_kind(token: Token<'_>) -> Result<NsKind, AsmReason>
    ensures { result ≡ kinds.space_kind.reads [] (token_as_text token.entry) }
{
    let Token::Bare(word) = token else {
        return Err(AsmReason::Kind);
    };
    match find_kind(&SPACE_WORDS, word) {
        Some(kind) => Ok(kind),
        None => Err(AsmReason::Kind),
    }
}

const MULTINAME_WORDS: [([u8; 16], MultinameKind); 11] = [
    (*b"QName           ", MultinameKind::QName { attr: false }),
    (*b"QNameA          ", MultinameKind::QName { attr: true }),
    (*b"RTQName         ", MultinameKind::Rt { attr: false }),
    (*b"RTQNameA        ", MultinameKind::Rt { attr: true }),
    (*b"RTQNameL        ", MultinameKind::RtL { attr: false }),
    (*b"RTQNameLA       ", MultinameKind::RtL { attr: true }),
    (*b"Multiname       ", MultinameKind::Multi { attr: false }),
    (*b"MultinameA      ", MultinameKind::Multi { attr: true }),
    (*b"MultinameL      ", MultinameKind::MultiL { attr: false }),
    (*b"MultinameLA     ", MultinameKind::MultiL { attr: true }),
    (*b"TypeName        ", MultinameKind::TypeName),
];

/// The kind of a multiname.
#[tactic(auto, unfolding(abc_text_lines::specs::Kinds::multiname_kind_operand))]
pub fn multiname_kind(token: Token<'_>) -> Result<MultinameKind, AsmReason>
    ensures { result ≡ kinds.multiname_kind_operand.reads [] (token_as_text token.entry) }
{
    let Token::Bare(word) = token else {
        return Err(AsmReason::Kind);
    };
    match find_kind(&MULTINAME_WORDS, word) {
        Some(kind) => Ok(kind),
        None => Err(AsmReason::Kind),
    }
}

const VALUE_WORDS: [([u8; 16], ValueKind); 15] = [
    (*b"Undefined       ", ValueKind::Undefined),
    (*b"Utf8            ", ValueKind::Utf8),
    (*b"Int             ", ValueKind::Int),
    (*b"UInt            ", ValueKind::UInt),
    (*b"Double          ", ValueKind::Double),
    (*b"False           ", ValueKind::False),
    (*b"True            ", ValueKind::True),
    (*b"Null            ", ValueKind::Null),
    (*b"Private         ", ValueKind::Private),
    (*b"Namespace       ", ValueKind::Namespace),
    (*b"Package         ", ValueKind::Package),
    (*b"PackageInternal ", ValueKind::PackageInternal),
    (*b"Protected       ", ValueKind::Protected),
    (*b"Explicit        ", ValueKind::Explicit),
    (*b"StaticProtected ", ValueKind::StaticProtected),
];

/// The kind of a value.
#[tactic(auto, unfolding(abc_text_lines::specs::Kinds::value_kind_operand))]
pub fn value_kind(token: Token<'_>) -> Result<ValueKind, AsmReason>
    ensures { result ≡ kinds.value_kind_operand.reads [] (token_as_text token.entry) }
{
    let Token::Bare(word) = token else {
        return Err(AsmReason::Kind);
    };
    match find_kind(&VALUE_WORDS, word) {
        Some(kind) => Ok(kind),
        None => Err(AsmReason::Kind),
    }
}

const TRAIT_WORDS: [([u8; 16], TraitKind); 7] = [
    (*b"slot            ", TraitKind::Slot),
    (*b"const           ", TraitKind::Const),
    (*b"method          ", TraitKind::Method),
    (*b"getter          ", TraitKind::Getter),
    (*b"setter          ", TraitKind::Setter),
    (*b"class           ", TraitKind::Class),
    (*b"function        ", TraitKind::Function),
];

/// The kind of a trait.
#[tactic(auto, unfolding(abc_text_lines::specs::Kinds::trait_kind_operand))]
pub fn trait_kind(token: Token<'_>) -> Result<TraitKind, AsmReason>
    ensures { result ≡ kinds.trait_kind_operand.reads [] (token_as_text token.entry) }
{
    let Token::Bare(word) = token else {
        return Err(AsmReason::Kind);
    };
    match find_kind(&TRAIT_WORDS, word) {
        Some(kind) => Ok(kind),
        None => Err(AsmReason::Kind),
    }
}
