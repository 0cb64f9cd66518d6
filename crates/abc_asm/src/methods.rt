//! Methods and metadata, with the lines below them.
ghost use Rattle.std.specs.Prelude.{◌≡◌, ◌&&◌, IfOk, refl};
ghost use Rattle.abc_text_lines.specs.declared.word.Word.TheVariants as words;
ghost use Rattle.abc_text_lines.specs.File.{method_counts};
ghost use Rattle.abc_text_reader.specs.Parts.{ReadsTextPart};
ghost use Rattle.abc_text_reader.specs.Reading.{Goes, IsReader, rows_left};
ghost use Rattle.abc_asm.specs.Below.{metadata_below, metadata_from_below, metadata_value, method_below, method_from_below, method_value};

use crate::counted::{where_set, with_fault};
use crate::entries::joined;
use abc_base::Table;
use abc_file_types::{HAS_OPTIONAL, HAS_PARAM_NAMES, Metadata, Method, OptionValue, has_flag};
use abc_text_lines::{AsmReason, Word};
use abc_text_operands::{MethodHead, flags_of, method_line, string_index_line};
use abc_text_reader::{
    AsmError, Entries, Headed, Options, ParamNames, Params, Reader, Taken, read_flat,
};

/// The places of the lines below a method, and of those that end no part.
const BELOW_METHOD: [u8; 5] = [9, 10, 11, 23, 25];

/// Whether the lines below a method are as many as its flags ask for.
fn are_counted(reader: &Reader<'_>, flags: u8) -> bool
    requires { IsReader reader.now }
    ensures { result ≡ method_counts flags (rows_left reader.now) }
{
    let params = reader.count(&BELOW_METHOD, 9);
    let options = reader.count(&BELOW_METHOD, 10);
    let names = reader.count(&BELOW_METHOD, 11);
    let most = if has_flag(flags, HAS_OPTIONAL) {
        params
    } else {
        0
    };
    let asked = if has_flag(flags, HAS_PARAM_NAMES) {
        params
    } else {
        0
    };
    options <= most && names == asked
}

/// The lines below a method.
#[derive(Drop)]
pub struct MethodBelow {
    pub params: Table<u32>,
    pub options: Table<OptionValue>,
    pub names: Table<u32>,
}

/// Methods, each with its parameters, optional values and names.
pub struct Methods;

impl Headed for Methods {
    type Head = MethodHead;

    type Below = MethodBelow;

    type Value = Method;

    ghost named = { words.Method };

    ghost value = { method_value };

    ghost lower = { method_below };

    ghost whole = { method_from_below };

    fn word() -> Word {
        Word::Method
    }

    fn head(reader: &Reader<'_>, _taken: &Taken) -> Result<MethodHead, AsmReason> {
        let tokens = reader.operands.as_slice();
        let head = method_line(tokens, &reader.sizes);
        let fine = are_counted(reader, flags_of(tokens));
        with_fault(head, fine, AsmReason::Count)
    }

    fn below(reader: &mut Reader<'_>) -> Result<MethodBelow, AsmError> {
        let params = read_flat::<Params>(reader)?;
        let options = read_flat::<Options>(reader)?;
        let names = read_flat::<ParamNames>(reader)?;
        Ok(MethodBelow {
            params,
            options,
            names,
        })
    }

    fn make(head: MethodHead, below: MethodBelow) -> Method {
        Method {
            ret: head.ret,
            params: below.params,
            name: head.name,
            flags: head.flags,
            options: below.options,
            param_names: below.names,
        }
    }

    ghost once = { refl };

    ghost apart = { refl };
}

/// Metadata, each with its entries.
pub struct MetadataLines;

impl Headed for MetadataLines {
    type Head = u32;

    type Below = Table<u32>;

    type Value = Metadata;

    ghost named = { words.Metadata };

    ghost value = { metadata_value };

    ghost lower = { metadata_below };

    ghost whole = { metadata_from_below };

    fn word() -> Word {
        Word::Metadata
    }

    fn head(reader: &Reader<'_>, _taken: &Taken) -> Result<u32, AsmReason> {
        string_index_line(reader.operands.as_slice(), &reader.sizes)
    }

    fn below(reader: &mut Reader<'_>) -> Result<Table<u32>, AsmError> {
        let entries = read_flat::<Entries>(reader)?;
        let items = joined(reader.alloc, &entries)?;
        Ok(items)
    }

    fn make(head: u32, below: Table<u32>) -> Metadata {
        Metadata {
            name: head,
            items: below,
        }
    }

    ghost once = { refl };

    ghost apart = { refl };
}
