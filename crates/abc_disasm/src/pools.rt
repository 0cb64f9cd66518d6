//! The lines of the constant pools.
ghost use Rattle.std.specs.Prelude.{◌≡◌, ◌∷◌, ◌++◌, List, ℕ, codes};
ghost use Rattle.abc_disasm.specs.Texts.{double_text, int_text, name_fields, name_text, namespace_text, set_text, string_text, uint_text};
ghost use Rattle.abc_text_lines.specs.Kinds.{multiname_word, space_word};
ghost use Rattle.abc_text_lines.specs.Lineforms.{kind_in};
ghost use Rattle.abc_varint.specs.Puts.{Puts, PutsWhole};

use crate::listed::Listed;
use abc_base::{Bytes, NoMemory, Table};
use abc_file_types::{Eight, Multiname, Namespace, NsKind};
use abc_text_writer::{
    Shown, name_of, push_byte, put, put_hex_bytes, put_int_line, put_name_comment, put_number,
    put_numbers, put_quoted, put_string_comment, put_two, put_uint_line,
};

/// The front of a namespace's line: it says of which kind it is. Each is appended whole, in few steps.
#[inline(always)]
fn put_space_head(kind: NsKind, out: &mut Vec<u8>) -> Result<(), NoMemory>
    ensures { PutsWhole out.old.items out.new.items result (codes "ns" ++ (0x20 ∷ space_word kind)) }
{
    match kind {
        NsKind::Private => put(b"ns Private", out),
        NsKind::Namespace => put(b"ns Namespace", out),
        NsKind::Package => put(b"ns Package", out),
        NsKind::PackageInternal => put(b"ns PackageInternal", out),
        NsKind::Protected => put(b"ns Protected", out),
        NsKind::Explicit => put(b"ns Explicit", out),
        NsKind::StaticProtected => put(b"ns StaticProtected", out),
    }
}

impl Listed for i32 {
    ghost text = { int_text };

    #[tactic(auto, unfolding(abc_text_lines::specs::Lineforms::int_line, abc_text_lines::specs::Operands::any_signed), using(abc_varint::proofs::Putting::stays_whole, std::proofs::Common::append_assoc))]
    fn put(&self, _abc: &Shown<'_>, out: &mut Vec<u8>) -> Result<(), NoMemory> {
        put_int_line(*self, out)?;
        Ok(())
    }
}

impl Listed for u32 {
    ghost text = { uint_text };

    #[tactic(auto, unfolding(abc_text_lines::specs::Lineforms::uint_line, abc_text_lines::specs::Operands::any_number), using(abc_varint::proofs::Putting::stays_whole, std::proofs::Common::append_assoc))]
    fn put(&self, _abc: &Shown<'_>, out: &mut Vec<u8>) -> Result<(), NoMemory> {
        put_uint_line(*self, out)?;
        Ok(())
    }
}

impl Listed for Eight {
    ghost text = { double_text };

    #[tactic(auto, unfolding(abc_text_lines::specs::Lineforms::double_line, abc_text_lines::specs::Operands::eight), using(abc_varint::proofs::Putting::stays, std::proofs::Common::append_assoc))]
    fn put(&self, _abc: &Shown<'_>, out: &mut Vec<u8>) -> Result<(), NoMemory> {
        put(b"double ", out)?;
        put_hex_bytes(&self.0, out)?;
        push_byte(b'\n', out)?;
        Ok(())
    }
}

impl Listed for Bytes {
    ghost text = { string_text };

    #[tactic(auto, unfolding(abc_text_lines::specs::Lineforms::string_line, abc_text_lines::specs::Operands::text_operand), using(abc_varint::proofs::Putting::stays, std::proofs::Common::append_assoc))]
    fn put(&self, _abc: &Shown<'_>, out: &mut Vec<u8>) -> Result<(), NoMemory> {
        put(b"string", out)?;
        put_quoted(self.as_slice(), out)?;
        push_byte(b'\n', out)?;
        Ok(())
    }
}

impl Listed for Namespace {
    ghost text = { namespace_text };

    #[tactic(auto, unfolding(abc_text_lines::specs::Lineforms::namespace_line, abc_text_lines::specs::Kinds::space_kind, abc_text_lines::specs::Operands::any_number), using(abc_varint::proofs::Putting::stays, std::proofs::Common::append_assoc))]
    fn put(&self, abc: &Shown<'_>, out: &mut Vec<u8>) -> Result<(), NoMemory> {
        put_space_head(self.kind, out)?;
        put_number(self.name, out)?;
        put_string_comment(abc, self.name, out)?;
        push_byte(b'\n', out)?;
        Ok(())
    }
}

impl Listed for Table<u32> {
    ghost text = { set_text };

    #[tactic(auto, unfolding(abc_text_lines::specs::Lineforms::set_line, abc_text_lines::specs::Operands::any_number), using(abc_varint::proofs::Putting::stays, std::proofs::Common::append_assoc, crate::proofs::Shown::entries))]
    fn put(&self, _abc: &Shown<'_>, out: &mut Vec<u8>) -> Result<(), NoMemory> {
        put(b"set", out)?;
        put_numbers(self, out)?;
        push_byte(b'\n', out)?;
        Ok(())
    }
}

/// The front of a multiname's line: it says of which kind it is.
#[inline(always)]
fn put_name_head(multiname: &Multiname, out: &mut Vec<u8>) -> Result<(), NoMemory>
    ensures { PutsWhole out.old.items out.new.items result
        (codes "name" ++ (0x20 ∷ multiname_word (kind_in multiname.now))) }
{
    match multiname {
        Multiname::QName { attr: false, .. } => put(b"name QName", out),
        Multiname::QName { attr: true, .. } => put(b"name QNameA", out),
        Multiname::Rt { attr: false, .. } => put(b"name RTQName", out),
        Multiname::Rt { attr: true, .. } => put(b"name RTQNameA", out),
        Multiname::RtL { attr: false } => put(b"name RTQNameL", out),
        Multiname::RtL { attr: true } => put(b"name RTQNameLA", out),
        Multiname::Multi { attr: false, .. } => put(b"name Multiname", out),
        Multiname::Multi { attr: true, .. } => put(b"name MultinameA", out),
        Multiname::MultiL { attr: false, .. } => put(b"name MultinameL", out),
        Multiname::MultiL { attr: true, .. } => put(b"name MultinameLA", out),
        Multiname::TypeName { .. } => put(b"name TypeName", out),
    }
}

/// The indices of a multiname, in the order of the file.
#[tactic(auto, unfolding(abc_text_lines::specs::Operands::any_number), using(abc_varint::proofs::Putting::stays, std::proofs::Common::append_assoc, crate::proofs::Shown::types))]
fn put_name_fields(
    multiname: &Multiname,
    _abc: &Shown<'_>,
    out: &mut Vec<u8>,
) -> Result<(), NoMemory>
    ensures { Puts out.old.items out.new.items result (name_fields _abc.now multiname.now) }
{
    match multiname {
        Multiname::QName { ns, name, .. } => put_two(*ns, *name, out),
        Multiname::Rt { name, .. } => put_number(*name, out),
        Multiname::RtL { .. } => Ok(()),
        Multiname::Multi { name, set, .. } => put_two(*name, *set, out),
        Multiname::MultiL { set, .. } => put_number(*set, out),
        Multiname::TypeName { base, params } => {
            put_number(*base, out)?;
            put_numbers(params.list(), out)?;
            Ok(())
        }
    }
}

impl Listed for Multiname {
    ghost text = { name_text };

    #[tactic(auto, unfolding(abc_text_lines::specs::Lineforms::name_line, abc_text_lines::specs::Kinds::multiname_kind_operand), using(abc_varint::proofs::Putting::stays, std::proofs::Common::append_assoc, crate::proofs::Shown::name_line_is))]
    fn put(&self, abc: &Shown<'_>, out: &mut Vec<u8>) -> Result<(), NoMemory> {
        put_name_head(self, out)?;
        put_name_fields(self, abc, out)?;
        put_name_comment(abc, name_of(self), out)?;
        push_byte(b'\n', out)?;
        Ok(())
    }
}
