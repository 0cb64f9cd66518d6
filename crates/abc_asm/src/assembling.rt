//! A text as a whole.
ghost use Rattle.std.specs.Prelude.{◌≡◌, ◌<◌, ◌^◌, IfOk, IsSome, length};
ghost use Rattle.abc_text_reader.specs.Parts.{ReadsTextPart};
ghost use Rattle.abc_text_reader.specs.Reading.{Goes, IsReader, rows_left, word_next};
ghost use Rattle.abc_text_lines.specs.Texts.{instances_in, rows_of, sizes_in};
ghost use Rattle.abc_asm.specs.Whole.{Assembles, IsMisplaced, ReadsVersion, definitions_read, file_part_read, out_of_order, pools_read};

use crate::bodies::read_bodies;
use crate::classes::{Classes, Instances};
use crate::methods::{MetadataLines, Methods};
use crate::scripts::Scripts;
use abc_base::{Bytes, Table, release};
use abc_file_types::{
    Abc, Body, ClassInfo, Eight, Instance, Metadata, Method, Multiname, Namespace, Script, opcode,
};
use abc_tables::canon_len;
use abc_text_lines::{AsmReason, Word};
use abc_text_operands::version_line;
use abc_text_reader::{
    AsmError, Doubles, Ints, Names, Namespaces, Reader, Sets, Strings, UInts, read_all, read_flat,
    refused,
};
use abc_text_tokens::{Vocabulary, place_of};
use std::alloc::Global;

/// The most canonical bytes that a file may have.
const FILE_LIMIT: u64 = 1 << 24;

/// The pools of a file.
#[derive(Drop)]
pub struct Pools {
    pub ints: Table<i32>,
    pub uints: Table<u32>,
    pub doubles: Table<Eight>,
    pub strings: Table<Bytes>,
    pub namespaces: Table<Namespace>,
    pub sets: Table<Table<u32>>,
    pub names: Table<Multiname>,
}

/// The other tables of a file.
#[derive(Drop)]
pub struct Definitions {
    pub methods: Table<Method>,
    pub metadata: Table<Metadata>,
    pub instances: Table<Instance>,
    pub classes: Table<ClassInfo>,
    pub scripts: Table<Script>,
    pub bodies: Table<Body>,
}

/// Reads the pools.
fn read_pools(reader: &mut Reader<'_>) -> Result<Pools, AsmError>
    requires { IsReader reader.old }
    ensures goes { IfOk result (λ x. Goes reader.old reader.new) }
    ensures reads { ReadsTextPart pools_read reader.old reader.new result }
{
    let ints = read_flat::<Ints>(reader)?;
    let uints = read_flat::<UInts>(reader)?;
    let doubles = read_flat::<Doubles>(reader)?;
    let strings = read_flat::<Strings>(reader)?;
    let namespaces = read_flat::<Namespaces>(reader)?;
    let sets = read_flat::<Sets>(reader)?;
    let names = read_flat::<Names>(reader)?;
    Ok(Pools {
        ints,
        uints,
        doubles,
        strings,
        namespaces,
        sets,
        names,
    })
}

/// Reads the other tables.
fn read_definitions(reader: &mut Reader<'_>) -> Result<Definitions, AsmError>
    requires { IsReader reader.old }
    ensures goes { IfOk result (λ x. Goes reader.old reader.new) }
    ensures reads { ReadsTextPart definitions_read reader.old reader.new result }
{
    let methods = read_all::<Methods>(reader)?;
    let metadata = read_all::<MetadataLines>(reader)?;
    let instances = read_all::<Instances>(reader)?;
    let classes = read_all::<Classes>(reader)?;
    let scripts = read_all::<Scripts>(reader)?;
    let bodies = read_bodies(reader)?;
    Ok(Definitions {
        methods,
        metadata,
        instances,
        classes,
        scripts,
        bodies,
    })
}

/// Reads the tables of a file.
fn read_file(reader: &mut Reader<'_>) -> Result<Abc, AsmError>
    requires { IsReader reader.old }
    ensures goes { IfOk result (λ x. Goes reader.old reader.new) }
    ensures reads { ReadsTextPart file_part_read reader.old reader.new result }
{
    let pools = read_pools(reader)?;
    let definitions = read_definitions(reader)?;
    Ok(Abc {
        ints: pools.ints,
        uints: pools.uints,
        doubles: pools.doubles,
        strings: pools.strings,
        namespaces: pools.namespaces,
        sets: pools.sets,
        names: pools.names,
        methods: definitions.methods,
        metadata: definitions.metadata,
        instances: definitions.instances,
        classes: definitions.classes,
        scripts: definitions.scripts,
        bodies: definitions.bodies,
    })
}

/// The first line, which is that of the version.
fn read_version(reader: &mut Reader<'_>) -> Result<(), AsmError>
    requires { IsReader reader.old }
    ensures goes { IfOk result (λ x. Goes reader.old reader.new) }
    ensures reads { ReadsVersion reader.old reader.new result }
{
    let Some(word) = reader.word() else {
        return Err(refused(1, AsmReason::Order));
    };
    if place_of(word) != place_of(Word::Abc) {
        return Err(misplaced(reader));
    }
    let taken = reader.take()?;
    match version_line(reader.operands.as_slice()) {
        Ok(_) => Ok(()),
        Err(reason) => Err(refused(taken.number, reason)),
    }
}

/// Why a whole line of this word may not stand where it does.
fn reason_out_of_order(word: Word) -> AsmReason
    ensures { result ≡ out_of_order word }
{
    match word {
        Word::Unknown => AsmReason::Word,
        Word::Instruction(op) => match opcode(op) {
            Some(_) => AsmReason::Order,
            None => AsmReason::Word,
        },
        _ => AsmReason::Order,
    }
}

/// Why the next line may not stand where it does.
fn misplaced(reader: &mut Reader<'_>) -> AsmError
    requires is { IsReader reader.old }
    requires some { IsSome (word_next (rows_left reader.old)) }
    ensures { IsMisplaced reader.old result }
{
    match reader.take() {
        Ok(taken) => refused(taken.number, reason_out_of_order(taken.word)),
        Err(error) => error,
    }
}

/// As `assemble`, by a reader that stands at the first line of the text.
fn read_text(reader: &mut Reader<'_>, _text: &[u8]) -> Result<Abc, AsmError>
    requires is { IsReader reader.old }
    requires rows { rows_left reader.old ≡ rows_of _text.now }
    requires sizes { (reader.old).sizes ≡ sizes_in (rows_of _text.now) }
    requires instances { (reader.old).instances ≡ instances_in (rows_of _text.now) }
    ensures { Assembles _text.now result }
{
    read_version(reader)?;
    let abc = read_file(reader)?;
    if reader.word().is_some() {
        release(abc);
        return Err(misplaced(reader));
    }
    if canon_len(&abc) > FILE_LIMIT {
        release(abc);
        return Err(refused(1, AsmReason::FileTooLong));
    }
    Ok(abc)
}

/// The file whose text it is, or the first fault of a text that is none's: the least line that has a fault, with the
/// first reason that holds there. `NoMemory` where memory runs out.
pub fn assemble(alloc: Global, text: &[u8]) -> Result<Abc, AsmError>
    requires { length text.now < 2 ^ 32 }
    ensures { Assembles text.now result }
{
    let vocabulary = Vocabulary::new(alloc)?;
    let mut reader = Reader::new(alloc, &vocabulary, text);
    read_text(&mut reader, text)
}
