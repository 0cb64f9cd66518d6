//! The lines that stand below others.
ghost use Rattle.std.specs.Prelude.{refl};
ghost use Rattle.abc_text_lines.specs.declared.word.Word.TheVariants as words;
ghost use Rattle.abc_text_lines.specs.Lineforms as forms;

use crate::tables::Flat;
use abc_file_types::{Handler, OptionValue, Sizes};
use abc_text_lines::Word;
use abc_text_operands::{
    LineError, catch_line, entry_line, implements_line, number_line, option_line, param_line,
    protected_line, told, trait_metadata_line,
};
use abc_text_tokens::Token;
use indexmap::IndexMap;
use std::alloc::Global;

/// The parameters of a method.
pub struct Params;

impl Flat for Params {
    type Value = u32;

    ghost named = { words.Param };

    ghost value = { λ v labels tokens. (forms.param_line v).value labels tokens };

    fn word() -> Word {
        Word::Param
    }

    fn line(
        _alloc: Global,
        tokens: &[Token<'_>],
        sizes: &Sizes,
        _places: &IndexMap<&[u8], u32>,
    ) -> Result<u32, LineError> {
        told(param_line(tokens, sizes))
    }

    ghost plain = { record {
      no_others = λ v instances row after. refl;
      no_extra = λ v instances row after. refl;
      once = refl;
      apart = refl;
    } };
}

/// The optional values of a method.
pub struct Options;

impl Flat for Options {
    type Value = OptionValue;

    ghost named = { words.Optional };

    ghost value = { λ v labels tokens. (forms.option_line v).value labels tokens };

    fn word() -> Word {
        Word::Optional
    }

    fn line(
        _alloc: Global,
        tokens: &[Token<'_>],
        sizes: &Sizes,
        _places: &IndexMap<&[u8], u32>,
    ) -> Result<OptionValue, LineError> {
        told(option_line(tokens, sizes))
    }

    ghost plain = { record {
      no_others = λ v instances row after. refl;
      no_extra = λ v instances row after. refl;
      once = refl;
      apart = refl;
    } };
}

/// The names of a method's parameters.
pub struct ParamNames;

impl Flat for ParamNames {
    type Value = u32;

    ghost named = { words.ParamName };

    ghost value = { λ v labels tokens. forms.number_line.value labels tokens };

    fn word() -> Word {
        Word::ParamName
    }

    fn line(
        _alloc: Global,
        tokens: &[Token<'_>],
        _sizes: &Sizes,
        _places: &IndexMap<&[u8], u32>,
    ) -> Result<u32, LineError> {
        told(number_line(tokens))
    }

    ghost plain = { record {
      no_others = λ v instances row after. refl;
      no_extra = λ v instances row after. refl;
      once = refl;
      apart = refl;
    } };
}

/// The entries of metadata.
pub struct Entries;

impl Flat for Entries {
    type Value = (u32, u32);

    ghost named = { words.Entry };

    ghost value = { λ v labels tokens. (forms.entry_line v).value labels tokens };

    fn word() -> Word {
        Word::Entry
    }

    fn line(
        _alloc: Global,
        tokens: &[Token<'_>],
        sizes: &Sizes,
        _places: &IndexMap<&[u8], u32>,
    ) -> Result<(u32, u32), LineError> {
        told(entry_line(tokens, sizes))
    }

    ghost plain = { record {
      no_others = λ v instances row after. refl;
      no_extra = λ v instances row after. refl;
      once = refl;
      apart = refl;
    } };
}

/// The protected namespace of an instance.
pub struct Protected;

impl Flat for Protected {
    type Value = u32;

    ghost named = { words.Protected };

    ghost value = { λ v labels tokens. (forms.protected_line v).value labels tokens };

    fn word() -> Word {
        Word::Protected
    }

    fn line(
        _alloc: Global,
        tokens: &[Token<'_>],
        sizes: &Sizes,
        _places: &IndexMap<&[u8], u32>,
    ) -> Result<u32, LineError> {
        told(protected_line(tokens, sizes))
    }

    ghost plain = { record {
      no_others = λ v instances row after. refl;
      no_extra = λ v instances row after. refl;
      once = refl;
      apart = refl;
    } };
}

/// The interfaces of an instance.
pub struct Implements;

impl Flat for Implements {
    type Value = u32;

    ghost named = { words.Implements };

    ghost value = { λ v labels tokens. (forms.implements_line v).value labels tokens };

    fn word() -> Word {
        Word::Implements
    }

    fn line(
        _alloc: Global,
        tokens: &[Token<'_>],
        sizes: &Sizes,
        _places: &IndexMap<&[u8], u32>,
    ) -> Result<u32, LineError> {
        told(implements_line(tokens, sizes))
    }

    ghost plain = { record {
      no_others = λ v instances row after. refl;
      no_extra = λ v instances row after. refl;
      once = refl;
      apart = refl;
    } };
}

/// The metadata of a trait.
pub struct TraitMetadata;

impl Flat for TraitMetadata {
    type Value = u32;

    ghost named = { words.TraitMetadata };

    ghost value = { λ v labels tokens. (forms.trait_metadata_line v).value labels tokens };

    fn word() -> Word {
        Word::TraitMetadata
    }

    fn line(
        _alloc: Global,
        tokens: &[Token<'_>],
        sizes: &Sizes,
        _places: &IndexMap<&[u8], u32>,
    ) -> Result<u32, LineError> {
        told(trait_metadata_line(tokens, sizes))
    }

    ghost plain = { record {
      no_others = λ v instances row after. refl;
      no_extra = λ v instances row after. refl;
      once = refl;
      apart = refl;
    } };
}

/// The handlers of a body.
pub struct Handlers;

impl Flat for Handlers {
    type Value = Handler;

    ghost named = { words.Catch };

    ghost value = { λ v labels tokens. (forms.catch_line v).value labels tokens };

    fn word() -> Word {
        Word::Catch
    }

    fn line(
        _alloc: Global,
        tokens: &[Token<'_>],
        sizes: &Sizes,
        places: &IndexMap<&[u8], u32>,
    ) -> Result<Handler, LineError> {
        told(catch_line(tokens, sizes, places))
    }

    ghost plain = { record {
      no_others = λ v instances row after. refl;
      no_extra = λ v instances row after. refl;
      once = refl;
      apart = refl;
    } };
}
