//! The lines of methods and metadata.
ghost use Rattle.std.specs.Prelude.{◌≡◌, ◌<◌, ◌*◌, ◌/◌, ◌+◌, length, List, ℕ};
ghost use Rattle.std.specs.List.{flat_map};
ghost use Rattle.abc_disasm.specs.Texts.{entry_text, metadata_text, method_text, option_text};
ghost use Rattle.abc_text_lines.specs.Answers.{pairs};
ghost use Rattle.abc_text_lines.specs.Kinds.{value_word};
ghost use Rattle.abc_varint.specs.Puts.{Puts};

use crate::listed::{Listed, put_all};
use abc_base::NoMemory;
use abc_file_types::{Metadata, Method, OptionValue, ValueKind};
use abc_text_writer::{
    Shown, push_byte, put, put_number, put_number_line, put_number_lines, put_word,
};

/// The word of the kind of a value.
pub fn value_name(kind: ValueKind) -> &'static [u8]
    ensures { result.now ≡ value_word kind }
{
    match kind {
        ValueKind::Undefined => b"Undefined",
        ValueKind::Utf8 => b"Utf8",
        ValueKind::Int => b"Int",
        ValueKind::UInt => b"UInt",
        ValueKind::Double => b"Double",
        ValueKind::False => b"False",
        ValueKind::True => b"True",
        ValueKind::Null => b"Null",
        ValueKind::Private => b"Private",
        ValueKind::Namespace => b"Namespace",
        ValueKind::Package => b"Package",
        ValueKind::PackageInternal => b"PackageInternal",
        ValueKind::Protected => b"Protected",
        ValueKind::Explicit => b"Explicit",
        ValueKind::StaticProtected => b"StaticProtected",
    }
}

impl Listed for OptionValue {
    ghost text = { option_text };

    #[tactic(auto, unfolding(abc_text_lines::specs::Lineforms::option_line, abc_text_lines::specs::Kinds::value_kind_operand, abc_text_lines::specs::Operands::any_number), using(abc_varint::proofs::Putting::stays, std::proofs::Common::append_assoc))]
    fn put(&self, _abc: &Shown<'_>, out: &mut Vec<u8>) -> Result<(), NoMemory> {
        put(b"option", out)?;
        put_word(value_name(self.kind), out)?;
        put_number(self.value, out)?;
        push_byte(b'\n', out)?;
        Ok(())
    }
}

impl Listed for Method {
    ghost text = { method_text };

    #[tactic(auto, unfolding(abc_text_lines::specs::Lineforms::method_line, abc_text_lines::specs::Operands::any_number), using(abc_varint::proofs::Putting::stays, std::proofs::Common::append_assoc))]
    fn put(&self, abc: &Shown<'_>, out: &mut Vec<u8>) -> Result<(), NoMemory> {
        put(b"method", out)?;
        put_number(self.ret, out)?;
        put_number(self.name, out)?;
        put_number(self.flags as u32, out)?;
        push_byte(b'\n', out)?;
        put_number_lines(b"param", &self.params, out)?;
        put_all(&self.options, abc, out)?;
        put_number_lines(b"pname", &self.param_names, out)?;
        Ok(())
    }
}

/// A line of two strings.
#[tactic(auto, unfolding(abc_text_lines::specs::Lineforms::entry_line, abc_text_lines::specs::Operands::any_number), using(abc_varint::proofs::Putting::stays, std::proofs::Common::append_assoc))]
fn put_entry(first: u32, second: u32, _abc: &Shown<'_>, out: &mut Vec<u8>) -> Result<(), NoMemory>
    ensures { Puts out.old.items out.new.items result (entry_text _abc.now (first, second)) }
{
    put(b"item", out)?;
    put_number(first, out)?;
    put_number(second, out)?;
    push_byte(b'\n', out)?;
    Ok(())
}

/// Such a line for every two strings.
#[tactic(auto, using(abc_varint::proofs::Putting::stays))]
fn put_entries(items: &[u32], abc: &Shown<'_>, out: &mut Vec<u8>) -> Result<(), NoMemory>
    ensures { Puts out.old.items out.new.items result (flat_map (entry_text abc.now) (pairs items.now)) }
{
    for i in 0..items.len() / 2 {
        put_entry(items[2 * i], items[2 * i + 1], abc, out)?;
    }
    Ok(())
}

impl Listed for Metadata {
    ghost text = { metadata_text };

    #[tactic(auto, using(abc_varint::proofs::Putting::stays, std::proofs::Common::append_assoc))]
    fn put(&self, abc: &Shown<'_>, out: &mut Vec<u8>) -> Result<(), NoMemory> {
        put_number_line(b"metadata", self.name, out)?;
        put_entries(self.items.as_slice(), abc, out)?;
        Ok(())
    }
}
