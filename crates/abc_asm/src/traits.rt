//! Traits, with the lines below them.
ghost use Rattle.std.specs.Prelude.{◌≡◌, refl};
ghost use Rattle.abc_text_lines.specs.declared.word.Word.TheVariants as words;
ghost use Rattle.abc_text_lines.specs.File.{trait_counts};
ghost use Rattle.abc_text_reader.specs.Reading.{IsReader, rows_left};
ghost use Rattle.abc_asm.specs.Below.{trait_below, trait_of, trait_value};

use crate::counted::with_fault;
use abc_base::Table;
use abc_file_types::{HAS_METADATA, TraitInfo, has_flag};
use abc_text_lines::{AsmReason, Word};
use abc_text_operands::{TraitHead, attrs_of, trait_line};
use abc_text_reader::{AsmError, Headed, Reader, Taken, TraitMetadata, read_flat};

/// The places of the lines below a trait, and of those that end no part.
const BELOW_TRAIT: [u8; 3] = [19, 23, 25];

/// Whether there are lines of metadata below a trait that was taken only where its attributes ask for them.
fn are_counted(reader: &Reader<'_>, attrs: u8) -> bool
    requires { IsReader reader.now }
    ensures { result ≡ trait_counts attrs (rows_left reader.now) }
{
    let metadata = reader.count(&BELOW_TRAIT, 19);
    has_flag(attrs, HAS_METADATA) || metadata == 0
}

/// Traits, each with its metadata.
pub struct Traits;

impl Headed for Traits {
    type Head = TraitHead;

    type Below = Table<u32>;

    type Value = TraitInfo;

    ghost named = { words.Trait };

    ghost value = { trait_value };

    ghost lower = { trait_below };

    ghost whole = { trait_of };

    fn word() -> Word {
        Word::Trait
    }

    fn head(reader: &Reader<'_>, _taken: &Taken) -> Result<TraitHead, AsmReason> {
        let tokens = reader.operands.as_slice();
        let head = trait_line(tokens, &reader.sizes);
        let fine = are_counted(reader, attrs_of(tokens));
        with_fault(head, fine, AsmReason::Count)
    }

    fn below(reader: &mut Reader<'_>) -> Result<Table<u32>, AsmError> {
        read_flat::<TraitMetadata>(reader)
    }

    fn make(head: TraitHead, below: Table<u32>) -> TraitInfo {
        TraitInfo {
            name: head.name,
            attrs: head.attrs,
            body: head.body,
            metadata: below,
        }
    }

    ghost once = { refl };

    ghost apart = { refl };
}
