//! Instances and classes, with the lines below them.
ghost use Rattle.std.specs.Prelude.{◌≡◌, IfOk, refl};
ghost use Rattle.abc_text_lines.specs.declared.word.Word.TheVariants as words;
ghost use Rattle.abc_text_lines.specs.File.{instance_counts};
ghost use Rattle.abc_text_reader.specs.Parts.{ReadsTextPart};
ghost use Rattle.abc_text_reader.specs.Reading.{Goes, IsReader, rows_left};
ghost use Rattle.abc_asm.specs.Below.{class_from_below, initializer_below, instance_below, instance_from_below, instance_value, method_index_value, traits_below};

use crate::coming::comes;
use crate::counted::{where_set, with_fault};
use crate::scripts::Initializers;
use crate::traits::Traits;
use abc_base::Table;
use abc_file_types::{ClassInfo, HAS_PROTECTED, Instance, TraitInfo, has_flag};
use abc_text_lines::{AsmReason, Word};
use abc_text_operands::{InstanceHead, flags_of, instance_line, method_index_line};
use abc_text_reader::{
    AsmError, Headed, Implements, Protected, Reader, Taken, read_all, read_flat, read_item,
};

/// The places of the lines below an instance, and of those that end no part.
const BELOW_INSTANCE: [u8; 7] = [15, 16, 17, 18, 19, 23, 25];

/// Whether the lines below an instance that was taken are as its flags ask for, and it has a class.
fn are_counted(reader: &Reader<'_>, flags: u8) -> bool
    requires { IsReader reader.now }
    ensures { result
        ≡ instance_counts reader.now.sizes.classes reader.now.instances flags (rows_left reader.now) }
{
    let spaces = reader.count(&BELOW_INSTANCE, 15);
    let initializers = reader.count(&BELOW_INSTANCE, 17);
    let asked = where_set(has_flag(flags, HAS_PROTECTED), 1);
    let taken = reader.instances_taken();
    spaces == asked && initializers >= 1 && taken <= reader.sizes.classes
}

/// The lines below an instance.
#[derive(Drop)]
pub struct InstanceBelow {
    pub spaces: Table<u32>,
    pub interfaces: Table<u32>,
    pub iinit: u32,
    pub traits: Table<TraitInfo>,
}

/// Instances, each with the lines below it.
pub struct Instances;

impl Headed for Instances {
    type Head = InstanceHead;

    type Below = InstanceBelow;

    type Value = Instance;

    ghost named = { words.Instance };

    ghost value = { instance_value };

    ghost lower = { instance_below };

    ghost whole = { instance_from_below };

    fn word() -> Word {
        Word::Instance
    }

    fn head(reader: &Reader<'_>, _taken: &Taken) -> Result<InstanceHead, AsmReason> {
        let tokens = reader.operands.as_slice();
        let head = instance_line(tokens, &reader.sizes);
        let fine = are_counted(reader, flags_of(tokens));
        with_fault(head, fine, AsmReason::Count)
    }

    fn below(reader: &mut Reader<'_>) -> Result<InstanceBelow, AsmError> {
        let spaces = read_flat::<Protected>(reader)?;
        let interfaces = read_flat::<Implements>(reader)?;
        let initializer = read_initializer(reader)?;
        let (iinit, traits) = initializer;
        Ok(InstanceBelow {
            spaces,
            interfaces,
            iinit,
            traits,
        })
    }

    fn make(head: InstanceHead, below: InstanceBelow) -> Instance {
        Instance {
            name: head.name,
            super_name: head.super_name,
            flags: head.flags,
            protected_ns: below.spaces.fetch(0),
            interfaces: below.interfaces,
            iinit: below.iinit,
            traits: below.traits,
        }
    }

    ghost once = { refl };

    ghost apart = { refl };
}

/// The initializer of an instance and its traits. Where there is no line of it, the line that comes is refused later.
fn read_initializer(reader: &mut Reader<'_>) -> Result<(u32, Table<TraitInfo>), AsmError>
    requires { IsReader reader.old }
    ensures goes { IfOk result (λ x. Goes reader.old reader.new) }
    ensures reads { ReadsTextPart initializer_below reader.old reader.new result }
{
    if comes(reader, Word::Initializer) {
        read_item::<Initializers>(reader)
    } else {
        Ok((0, Table::new(reader.alloc)))
    }
}

/// Classes, each with its traits.
pub struct Classes;

impl Headed for Classes {
    type Head = u32;

    type Below = Table<TraitInfo>;

    type Value = ClassInfo;

    ghost named = { words.Class };

    ghost value = { method_index_value };

    ghost lower = { traits_below };

    ghost whole = { class_from_below };

    fn word() -> Word {
        Word::Class
    }

    fn head(reader: &Reader<'_>, _taken: &Taken) -> Result<u32, AsmReason> {
        let cinit = method_index_line(reader.operands.as_slice(), &reader.sizes);
        let fine = reader.classes_taken() <= reader.instances;
        with_fault(cinit, fine, AsmReason::Count)
    }

    fn below(reader: &mut Reader<'_>) -> Result<Table<TraitInfo>, AsmError> {
        read_all::<Traits>(reader)
    }

    fn make(head: u32, below: Table<TraitInfo>) -> ClassInfo {
        ClassInfo {
            cinit: head,
            traits: below,
        }
    }

    ghost once = { refl };

    ghost apart = { refl };
}
