//! The lines of the pools.
ghost use Rattle.std.specs.Prelude.{◌≡◌, ◌≤ℤ◌, negsuc, pos, refl};
ghost use Rattle.abc_text_lines.specs.declared.word.Word.TheVariants as words;
ghost use Rattle.abc_text_lines.specs.Lineforms as forms;

use crate::tables::Flat;
use abc_base::{Bytes, Table};
use abc_file_types::{Eight, Multiname, Namespace, Sizes};
use abc_text_lines::Word;
use abc_text_operands::{
    LineError, double_line, int_line, name_line, namespace_line, set_line, string_line, told,
    uint_line,
};
use abc_text_tokens::Token;
use indexmap::IndexMap;
use std::alloc::Global;

/// The integers.
pub struct Ints;

impl Flat for Ints {
    type Value = i32;

    ghost named = { words.Int };

    ghost value = { λ v labels tokens. forms.int_line.value labels tokens };

    fn word() -> Word {
        Word::Int
    }

    fn line(
        _alloc: Global,
        tokens: &[Token<'_>],
        _sizes: &Sizes,
        _places: &IndexMap<&[u8], u32>,
    ) -> Result<i32, LineError> {
        match int_line(tokens) {
            Ok(value) => Ok(word_of(value)),
            Err(reason) => Err(LineError::Refused(reason)),
        }
    }

    ghost plain = { record {
      no_others = λ v instances row after. refl;
      no_extra = λ v instances row after. refl;
      once = refl;
      apart = refl;
    } };
}

/// A number of 32 bits.
fn word_of(number: i64) -> i32
    requires low { negsuc 2147483647 ≤ℤ number }
    requires high { number ≤ℤ pos 2147483647 }
    ensures { result ≡ number }
{
    number as i32
}

/// The unsigned integers.
pub struct UInts;

impl Flat for UInts {
    type Value = u32;

    ghost named = { words.UInt };

    ghost value = { λ v labels tokens. forms.uint_line.value labels tokens };

    fn word() -> Word {
        Word::UInt
    }

    fn line(
        _alloc: Global,
        tokens: &[Token<'_>],
        _sizes: &Sizes,
        _places: &IndexMap<&[u8], u32>,
    ) -> Result<u32, LineError> {
        told(uint_line(tokens))
    }

    ghost plain = { record {
      no_others = λ v instances row after. refl;
      no_extra = λ v instances row after. refl;
      once = refl;
      apart = refl;
    } };
}

/// The doubles.
pub struct Doubles;

impl Flat for Doubles {
    type Value = Eight;

    ghost named = { words.Double };

    ghost value = { λ v labels tokens. forms.double_line.value labels tokens };

    fn word() -> Word {
        Word::Double
    }

    fn line(
        _alloc: Global,
        tokens: &[Token<'_>],
        _sizes: &Sizes,
        _places: &IndexMap<&[u8], u32>,
    ) -> Result<Eight, LineError> {
        told(double_line(tokens))
    }

    ghost plain = { record {
      no_others = λ v instances row after. refl;
      no_extra = λ v instances row after. refl;
      once = refl;
      apart = refl;
    } };
}

/// The strings.
pub struct Strings;

impl Flat for Strings {
    type Value = Bytes;

    ghost named = { words.Text };

    ghost value = { λ v labels tokens. forms.string_line.value labels tokens };

    fn word() -> Word {
        Word::Text
    }

    fn line(
        alloc: Global,
        tokens: &[Token<'_>],
        _sizes: &Sizes,
        _places: &IndexMap<&[u8], u32>,
    ) -> Result<Bytes, LineError> {
        string_line(alloc, tokens)
    }

    ghost plain = { record {
      no_others = λ v instances row after. refl;
      no_extra = λ v instances row after. refl;
      once = refl;
      apart = refl;
    } };
}

/// The namespaces.
pub struct Namespaces;

impl Flat for Namespaces {
    type Value = Namespace;

    ghost named = { words.Namespace };

    ghost value = { λ v labels tokens. (forms.namespace_line v).value labels tokens };

    fn word() -> Word {
        Word::Namespace
    }

    fn line(
        _alloc: Global,
        tokens: &[Token<'_>],
        sizes: &Sizes,
        _places: &IndexMap<&[u8], u32>,
    ) -> Result<Namespace, LineError> {
        told(namespace_line(tokens, sizes))
    }

    ghost plain = { record {
      no_others = λ v instances row after. refl;
      no_extra = λ v instances row after. refl;
      once = refl;
      apart = refl;
    } };
}

/// The sets of namespaces.
pub struct Sets;

impl Flat for Sets {
    type Value = Table<u32>;

    ghost named = { words.Set };

    ghost value = { λ v labels tokens. (forms.set_line v).value labels tokens };

    fn word() -> Word {
        Word::Set
    }

    fn line(
        alloc: Global,
        tokens: &[Token<'_>],
        sizes: &Sizes,
        _places: &IndexMap<&[u8], u32>,
    ) -> Result<Table<u32>, LineError> {
        set_line(alloc, tokens, sizes)
    }

    ghost plain = { record {
      no_others = λ v instances row after. refl;
      no_extra = λ v instances row after. refl;
      once = refl;
      apart = refl;
    } };
}

/// The multinames.
pub struct Names;

impl Flat for Names {
    type Value = Multiname;

    ghost named = { words.Name };

    ghost value = { λ v labels tokens. (forms.name_line v).value labels tokens };

    fn word() -> Word {
        Word::Name
    }

    fn line(
        alloc: Global,
        tokens: &[Token<'_>],
        sizes: &Sizes,
        _places: &IndexMap<&[u8], u32>,
    ) -> Result<Multiname, LineError> {
        name_line(alloc, tokens, sizes)
    }

    ghost plain = { record {
      no_others = λ v instances row after. refl;
      no_extra = λ v instances row after. refl;
      once = refl;
      apart = refl;
    } };
}
