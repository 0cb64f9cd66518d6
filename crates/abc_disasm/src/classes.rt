//! The lines of instances, classes and scripts.
ghost use Rattle.abc_disasm.specs.Texts.{class_text, instance_head_text, instance_text, protected_text, script_text};
ghost use Rattle.abc_varint.specs.Puts.{Puts};

use crate::listed::{Listed, put_all};
use abc_base::NoMemory;
use abc_file_types::{ClassInfo, Instance, Script};
use abc_text_writer::{
    Shown, push_byte, put, put_multiname_comment, put_number, put_number_line, put_number_lines,
};

fn put_protected(space: &Option<u32>, _abc: &Shown<'_>, out: &mut Vec<u8>) -> Result<(), NoMemory>
    ensures { Puts out.old.items out.new.items result (protected_text _abc.now space.now) }
{
    match space {
        Some(n) => put_number_line(b"protected", *n, out),
        None => Ok(()),
    }
}

/// The line of an instance itself.
#[tactic(auto, unfolding(abc_text_lines::specs::Lineforms::instance_line, abc_text_lines::specs::Operands::any_number), using(abc_varint::proofs::Putting::stays, std::proofs::Common::append_assoc))]
fn put_instance_line(
    instance: &Instance,
    abc: &Shown<'_>,
    out: &mut Vec<u8>,
) -> Result<(), NoMemory>
    ensures { Puts out.old.items out.new.items result (instance_head_text abc.now instance.now) }
{
    put(b"instance", out)?;
    put_number(instance.name, out)?;
    put_number(instance.super_name, out)?;
    put_number(instance.flags as u32, out)?;
    put_multiname_comment(abc, instance.name, out)?;
    push_byte(b'\n', out)?;
    Ok(())
}

impl Listed for Instance {
    ghost text = { instance_text };

    #[tactic(auto, using(abc_varint::proofs::Putting::stays, std::proofs::Common::append_assoc))]
    fn put(&self, abc: &Shown<'_>, out: &mut Vec<u8>) -> Result<(), NoMemory> {
        put_instance_line(self, abc, out)?;
        put_protected(&self.protected_ns, abc, out)?;
        put_number_lines(b"implements", &self.interfaces, out)?;
        put_number_line(b"iinit", self.iinit, out)?;
        put_all(&self.traits, abc, out)?;
        Ok(())
    }
}

impl Listed for ClassInfo {
    ghost text = { class_text };

    #[tactic(auto, using(abc_varint::proofs::Putting::stays, std::proofs::Common::append_assoc))]
    fn put(&self, abc: &Shown<'_>, out: &mut Vec<u8>) -> Result<(), NoMemory> {
        put_number_line(b"class", self.cinit, out)?;
        put_all(&self.traits, abc, out)?;
        Ok(())
    }
}

impl Listed for Script {
    ghost text = { script_text };

    #[tactic(auto, using(abc_varint::proofs::Putting::stays, std::proofs::Common::append_assoc))]
    fn put(&self, abc: &Shown<'_>, out: &mut Vec<u8>) -> Result<(), NoMemory> {
        put_number_line(b"script", self.init, out)?;
        put_all(&self.traits, abc, out)?;
        Ok(())
    }
}
