//! Initializers and scripts, with their traits.
ghost use Rattle.std.specs.Prelude.{refl};
ghost use Rattle.abc_text_lines.specs.declared.word.Word.TheVariants as words;
ghost use Rattle.abc_asm.specs.Below.{initializer_of, method_index_value, script_from_below, traits_below};

use crate::traits::Traits;
use abc_base::Table;
use abc_file_types::{Script, TraitInfo};
use abc_text_lines::{AsmReason, Word};
use abc_text_operands::method_index_line;
use abc_text_reader::{AsmError, Headed, Reader, Taken, read_all};

/// The initializer of instances, with their traits.
pub struct Initializers;

impl Headed for Initializers {
    type Head = u32;

    type Below = Table<TraitInfo>;

    type Value = (u32, Table<TraitInfo>);

    ghost named = { words.Initializer };

    ghost value = { method_index_value };

    ghost lower = { traits_below };

    ghost whole = { initializer_of };

    fn word() -> Word {
        Word::Initializer
    }

    fn head(reader: &Reader<'_>, _taken: &Taken) -> Result<u32, AsmReason> {
        method_index_line(reader.operands.as_slice(), &reader.sizes)
    }

    fn below(reader: &mut Reader<'_>) -> Result<Table<TraitInfo>, AsmError> {
        read_all::<Traits>(reader)
    }

    fn make(head: u32, below: Table<TraitInfo>) -> (u32, Table<TraitInfo>) {
        (head, below)
    }

    ghost once = { refl };

    ghost apart = { refl };
}

/// Scripts, each with its traits.
pub struct Scripts;

impl Headed for Scripts {
    type Head = u32;

    type Below = Table<TraitInfo>;

    type Value = Script;

    ghost named = { words.Script };

    ghost value = { method_index_value };

    ghost lower = { traits_below };

    ghost whole = { script_from_below };

    fn word() -> Word {
        Word::Script
    }

    fn head(reader: &Reader<'_>, _taken: &Taken) -> Result<u32, AsmReason> {
        method_index_line(reader.operands.as_slice(), &reader.sizes)
    }

    fn below(reader: &mut Reader<'_>) -> Result<Table<TraitInfo>, AsmError> {
        read_all::<Traits>(reader)
    }

    fn make(head: u32, below: Table<TraitInfo>) -> Script {
        Script {
            init: head,
            traits: below,
        }
    }

    ghost once = { refl };

    ghost apart = { refl };
}
