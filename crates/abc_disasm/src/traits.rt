//! The lines of traits.
ghost use Rattle.std.specs.Prelude.{◌∷◌, ◌++◌, codes};
ghost use Rattle.abc_disasm.specs.Texts.{fields_text, slot_text, trait_text};
ghost use Rattle.abc_text_lines.specs.Kinds.{trait_word};
ghost use Rattle.abc_file_types.specs.Traits.{trait_kind_in};
ghost use Rattle.abc_varint.specs.Puts.{Puts, PutsWhole};

use crate::listed::Listed;
use crate::methods::value_name;
use abc_base::NoMemory;
use abc_file_types::{OptionValue, TraitBody, TraitInfo};
use abc_text_writer::{
    Shown, push_byte, put, put_multiname_comment, put_number, put_number_lines, put_two, put_word,
};

/// The front of a trait's line: it says of which kind it is.
#[inline(always)]
fn put_trait_head(body: &TraitBody, out: &mut Vec<u8>) -> Result<(), NoMemory>
    ensures { PutsWhole out.old.items out.new.items result
        (codes "trait" ++ (0x20 ∷ trait_word (trait_kind_in body.now))) }
{
    match body {
        TraitBody::Slot {
            constant: false,
            ..
        } => put(b"trait slot", out),
        TraitBody::Slot { constant: true, .. } => put(b"trait const", out),
        TraitBody::Method { .. } => put(b"trait method", out),
        TraitBody::Getter { .. } => put(b"trait getter", out),
        TraitBody::Setter { .. } => put(b"trait setter", out),
        TraitBody::Class { .. } => put(b"trait class", out),
        TraitBody::Function { .. } => put(b"trait function", out),
    }
}

/// The index of a slot's value and its kind, or 0.
#[tactic(auto, using(abc_varint::proofs::Putting::stays, std::proofs::Common::append_assoc, crate::proofs::Shown::slot_some, crate::proofs::Shown::slot_zero, crate::proofs::Shown::slot_none))]
fn put_slot_value(
    value: &Option<OptionValue>,
    _abc: &Shown<'_>,
    out: &mut Vec<u8>,
) -> Result<(), NoMemory>
    ensures { Puts out.old.items out.new.items result (slot_text _abc.now value.now) }
{
    let Some(option) = value else {
        return put_number(0, out)
    };
    put_number(option.value, out)?;
    if option.value != 0 {
        put_word(value_name(option.kind), out)?;
    }
    Ok(())
}

/// What a trait declares.
#[tactic(auto, unfolding(abc_text_lines::specs::Operands::any_number), using(abc_varint::proofs::Putting::stays, std::proofs::Common::append_assoc))]
fn put_fields(body: &TraitBody, abc: &Shown<'_>, out: &mut Vec<u8>) -> Result<(), NoMemory>
    ensures { Puts out.old.items out.new.items result (fields_text abc.now body.now) }
{
    match body {
        TraitBody::Slot { id, ty, value, .. } => {
            put_number(*id, out)?;
            put_number(*ty, out)?;
            put_slot_value(value, abc, out)?;
            Ok(())
        }
        TraitBody::Method { disp, method } => put_two(*disp, *method, out),
        TraitBody::Getter { disp, method } => put_two(*disp, *method, out),
        TraitBody::Setter { disp, method } => put_two(*disp, *method, out),
        TraitBody::Class { id, class } => put_two(*id, *class, out),
        TraitBody::Function { id, method } => put_two(*id, *method, out),
    }
}

impl Listed for TraitInfo {
    ghost text = { trait_text };

    #[tactic(auto, unfolding(abc_text_lines::specs::Lineforms::trait_line, abc_text_lines::specs::Kinds::trait_kind_operand, abc_text_lines::specs::Operands::any_number), using(abc_varint::proofs::Putting::stays, std::proofs::Common::append_assoc))]
    fn put(&self, abc: &Shown<'_>, out: &mut Vec<u8>) -> Result<(), NoMemory> {
        put_trait_head(&self.body, out)?;
        put_number(self.attrs as u32, out)?;
        put_number(self.name, out)?;
        put_fields(&self.body, abc, out)?;
        put_multiname_comment(abc, self.name, out)?;
        push_byte(b'\n', out)?;
        put_number_lines(b"tmeta", &self.metadata, out)?;
        Ok(())
    }
}
