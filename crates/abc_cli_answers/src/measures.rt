ghost use Rattle.std.specs.Prelude.{◌≡◌, ◌<◌, ◌≤◌, ◌++◌, ◌^◌, length, IfOk, OnOk};
ghost use Rattle.abc_bodies.specs.Places.{ArePlaces};
ghost use Rattle.abc_file_types.specs.Files.{Fits, file_bytes};
ghost use Rattle.abc_cli_answers.specs.Generated.{generated_file};
ghost use Rattle.abc_cli_answers.specs.Measured.{count_line, instruction_count as instructions_of, size_lines};
ghost use Rattle.abc_cli_answers.specs.Placed.{IsReadAgain, starts_in};

use crate::making::make_abc;
use crate::placing::places_of;
use abc_base::{NoMemory, Table, release};
use abc_bodies::Places;
use abc_file_types::{Abc, Body};
use abc_tables::{canon_len, canonical_length};
use itoa::Buffer;
use std::alloc::Global;

/// A generated file, and what is told of it.
#[derive(Drop)]
pub struct Made {
    pub file: Abc,
    pub notes: Notes,
}

/// What is told of a generated file.
#[derive(Drop)]
pub struct Notes {
    /// Where the instructions of each body start in the canonical bytes of the file.
    pub places: Places,
    /// Three lines: the length of these bytes, the number of methods, and that of all instructions.
    pub lines: Vec<u8>,
}

/// Appends bytes.
fn put(out: &mut Vec<u8>, bytes: &[u8]) -> Result<(), NoMemory>
    ensures { OnOk result (out.new.items ≡ out.old.items ++ bytes.now) }
{
    out.extend_from_slice(bytes)?;
    Ok(())
}

/// Appends the line of a word and a number.
fn put_count(out: &mut Vec<u8>, word: &[u8], number: usize) -> Result<(), NoMemory>
    ensures { OnOk result (out.new.items ≡ out.old.items ++ count_line word.now number) }
{
    let mut buffer = Buffer::new();
    let digits = buffer.format(number).as_bytes();
    put(out, word)?;
    put(out, b" ")?;
    put(out, digits)?;
    put(out, b"\n")?;
    Ok(())
}

/// How many instructions bodies have.
fn instruction_count(bodies: &Table<Body>) -> usize
    requires { instructions_of bodies.now < 2 ^ 32 }
    ensures { result ≡ instructions_of bodies.now }
{
    let mut count = 0;
    for body in bodies.as_slice() {
        count += body.code.len();
    }
    count
}

/// How many canonical bytes a file has that some bytes spell.
fn byte_count(abc: &Abc) -> usize
    requires { Fits abc.now }
    ensures { result ≡ length (file_bytes abc.now) }
{
    canonical_length();
    canon_len(abc) as usize
}

/// The three lines on a file.
fn lines_on(alloc: Global, abc: &Abc) -> Result<Vec<u8>, NoMemory>
    requires few { instructions_of abc.now.bodies < 2 ^ 32 }
    requires fits { Fits abc.now }
    ensures { IfOk result (λ lines. lines.items ≡ size_lines abc.now) }
{
    let bytes = byte_count(abc);
    let count = instruction_count(&abc.bodies);
    let mut lines = Vec::new(alloc);
    put_count(&mut lines, b"bytes", bytes)?;
    put_count(&mut lines, b"methods", abc.methods.len())?;
    put_count(&mut lines, b"instructions", count)?;
    Ok(lines)
}

/// What is told of a generated file.
fn notes_on(alloc: Global, abc: &Abc) -> Result<Notes, NoMemory>
    requires few { instructions_of abc.now.bodies < 2 ^ 32 }
    requires fits { Fits abc.now }
    ensures places { IfOk result (λ notes. notes.places ≡ starts_in abc.now.bodies) }
    ensures lines { IfOk result (λ notes. notes.lines.items ≡ size_lines abc.now) }
{
    let places = places_of(alloc, &abc.bodies)?;
    let lines = lines_on(alloc, abc)?;
    Ok(Notes { places, lines })
}

/// Makes the file of so many functions, 1 to 10,000, whose operations are drawn from a seed, with the lines that are written on it
/// once it was run. Its canonical bytes would be read as this file, with its instructions at these places. An Err is want of memory.
pub fn make(alloc: Global, seed: u32, methods: u32) -> Result<Made, NoMemory>
    requires { methods ≤ 10000 }
    ensures file { IfOk result (λ made. made.file ≡ generated_file seed methods) }
    ensures read { IfOk result (λ made. IsReadAgain made.file made.notes.places) }
    ensures places { IfOk result (λ made. ArePlaces made.file.bodies made.notes.places) }
    ensures lines { IfOk result (λ made. made.notes.lines.items ≡ size_lines (generated_file seed methods)) }
{
    let file = make_abc(alloc, seed, methods)?;
    match notes_on(alloc, &file) {
        Ok(notes) => Ok(Made { file, notes }),
        Err(e) => {
            release(file);
            Err(e)
        }
    }
}
