//! The lines of bodies.
ghost use Rattle.std.specs.Prelude.{◌≡◌, ◌+◌, ◌<◌, ◌^◌, All, length};
ghost use Rattle.std.specs.List.{flat_map};
ghost use Rattle.abc_disasm.specs.Marks.{AreTargetMarks};
ghost use Rattle.abc_text_lines.specs.Listing.{label_bytes};
ghost use Rattle.abc_disasm.specs.Texts.{HasShownForm, body_head_text, body_targets, code_text, handler_text, label_if, whole_body};
ghost use Rattle.abc_file_types.specs.Bodies.{IsReadyBody};
ghost use Rattle.abc_varint.specs.Puts.{Puts};

use crate::instrs::put_instr;
use crate::listed::{Listed, put_all};
use crate::marks::mark_body;
use abc_base::{NoMemory, Table};
use abc_file_types::{Body, Handler};
use abc_text_writer::{Shown, push_byte, put, put_label, put_number, put_target};
use std::alloc::Global;

impl Listed for Handler {
    ghost text = { handler_text };

    #[tactic(auto, unfolding(abc_text_lines::specs::Lineforms::catch_line, abc_text_lines::specs::Operands::any_number, abc_text_lines::specs::Operands::target), using(abc_varint::proofs::Putting::stays, std::proofs::Common::append_assoc))]
    fn put(&self, _abc: &Shown<'_>, out: &mut Vec<u8>) -> Result<(), NoMemory> {
        put(b"catch", out)?;
        put_target(self.from, out)?;
        put_target(self.to, out)?;
        put_target(self.target, out)?;
        put_number(self.exc_type, out)?;
        put_number(self.var_name, out)?;
        push_byte(b'\n', out)?;
        Ok(())
    }
}

/// The line of a body itself.
#[tactic(auto, unfolding(abc_text_lines::specs::Lineforms::body_line, abc_text_lines::specs::Operands::any_number), using(abc_varint::proofs::Putting::stays, std::proofs::Common::append_assoc))]
fn put_body_line(body: &Body, _abc: &Shown<'_>, out: &mut Vec<u8>) -> Result<(), NoMemory>
    ensures { Puts out.old.items out.new.items result (body_head_text _abc.now body.now) }
{
    put(b"body", out)?;
    put_number(body.method, out)?;
    put_number(body.max_stack, out)?;
    put_number(body.local_count, out)?;
    put_number(body.init_scope, out)?;
    put_number(body.max_scope, out)?;
    push_byte(b'\n', out)?;
    Ok(())
}

/// The line of a label.
#[inline(never)]
#[tactic(auto, using(abc_varint::proofs::Putting::stays, std::proofs::Common::append_assoc))]
fn put_label_line(n: u32, out: &mut Vec<u8>) -> Result<(), NoMemory>
    ensures { Puts out.old.items out.new.items result (label_bytes n) }
{
    put_label(n, out)?;
    put(b":\n", out)?;
    Ok(())
}

/// The line of an instruction's label, if the body names it.
#[inline(always)]
fn put_label_if(body: &Body, marks: &[bool], n: usize, out: &mut Vec<u8>) -> Result<(), NoMemory>
    requires marked { AreTargetMarks marks.now (body_targets (body.now)) }
    requires within { n < length marks.now }
    requires short { n < 2 ^ 32 }
    ensures { Puts out.old.items out.new.items result (label_if (body_targets (body.now)) n) }
{
    if marks[n] {
        return put_label_line(n as u32, out);
    }
    Ok(())
}

/// The instructions, with the labels that the body names.
#[tactic(auto, using(crate::proofs::Fronts::front_through, abc_varint::proofs::Putting::stays, std::proofs::Common::append_assoc))]
fn put_code(body: &Body, marks: &[bool], abc: &Shown<'_>, out: &mut Vec<u8>) -> Result<(), NoMemory>
    requires marked { AreTargetMarks marks.now (body_targets (body.now)) }
    requires len { length marks.now ≡ length (body.now).code + 1 }
    requires shown { All HasShownForm (body.now).code }
    requires short { length (body.now).code < 2 ^ 23 }
    ensures { Puts out.old.items out.new.items result
        (code_text abc.now (body_targets (body.now)) 0 (body.now).code) }
{
    for i in 0..body.code.len() {
        put_label_if(body, marks, i, out)?;
        put_instr(body.code.get(i), abc, out)?;
    }
    put_label_if(body, marks, body.code.len(), out)?;
    Ok(())
}

/// Appends the line of a body, of whose code some bytes spell it, and the lines below it. The memory of the marks is used
/// again. Where memory runs out, the old bytes are still the front.
#[tactic(auto, using(abc_varint::proofs::Putting::stays, abc_varint::proofs::Putting::stays_whole, std::proofs::Common::append_assoc, crate::proofs::Readiness::shown, crate::proofs::Readiness::short))]
pub fn put_body(
    marks: &mut Vec<bool>,
    body: &Body,
    abc: &Shown<'_>,
    out: &mut Vec<u8>,
) -> Result<(), NoMemory>
    requires { IsReadyBody (body.now) }
    ensures { Puts out.old.items out.new.items result (whole_body abc.now (body.now)) }
{
    mark_body(marks, body)?;
    put_body_line(body, abc, out)?;
    put_code(body, marks.as_slice(), abc, out)?;
    put_all(&body.handlers, abc, out)?;
    put_all(&body.traits, abc, out)?;
    Ok(())
}

/// All bodies.
#[tactic(auto, using(abc_varint::proofs::Putting::stays))]
pub fn put_bodies(
    alloc: Global,
    bodies: &Table<Body>,
    abc: &Shown<'_>,
    out: &mut Vec<u8>,
) -> Result<(), NoMemory>
    requires { All IsReadyBody bodies.now }
    ensures { Puts out.old.items out.new.items result (flat_map (whole_body abc.now) bodies.now) }
{
    let mut marks = Vec::new(alloc);
    for body in bodies.as_slice() {
        put_body(&mut marks, body, abc, out)?;
    }
    Ok(())
}
