use crate::bytes::{Definition, push_escaped, push_text, push_value};
use crate::fault::Fault;
use crate::number::numbers_of;
use abc_base::Words;
use std::alloc::Global;

/// How many bytes a sink has room for where a row doesn't say.
const ROOM: usize = 0x10_0000;

/// A row: a name, an input, how many bytes a call its streams move, and the steps. The input of each step but the first is
/// the output of the step before.
#[derive(Drop)]
pub struct Row {
    alloc: Global,
    pub name: String,
    pub input: Vec<u8>,
    pub pieces: Vec<u32>,
    pub steps: Vec<Step>,
}

/// A run of the program: its words, the calls that fail, the room, and how it is to end.
#[derive(Drop)]
pub struct Step {
    pub words: Words,
    pub failing_reads: Vec<u32>,
    pub failing_writes: Vec<u32>,
    pub room: usize,
    pub line_room: usize,
    pub status: u8,
    pub out: Vec<u8>,
    /// Any output will do.
    pub any: bool,
    /// What is to be written beside the output.
    pub err: Vec<u8>,
}

impl Step {
    /// A run in which nothing fails, and which is to write nothing.
    fn new(alloc: Global, words: Words) -> Step {
        Step {
            words,
            failing_reads: Vec::new(alloc),
            failing_writes: Vec::new(alloc),
            room: ROOM,
            line_room: ROOM,
            status: 0,
            out: Vec::new(alloc),
            any: false,
            err: Vec::new(alloc),
        }
    }

    /// Takes a line of the row: its first word, what follows it, and the lines after it.
    fn take(
        &mut self,
        alloc: Global,
        key: &str,
        rest: &str,
        more: &[String],
        known: &[Definition],
    ) -> Result<(), Fault> {
        match key.as_bytes() {
            b"failing_reads" => self.failing_reads = numbers_of(alloc, rest)?,
            b"failing_writes" => self.failing_writes = numbers_of(alloc, rest)?,
            b"room" => self.room = rest.parse()?,
            b"line_room" => self.line_room = rest.parse()?,
            b"status" => self.status = rest.parse()?,
            b"any" => self.any = true,
            b"out" => push_value(alloc, &mut self.out, rest, more, known)?,
            b"front" => self.out.truncate(rest.parse()?),
            b"line" => push_line(&mut self.err, rest)?,
            b"err" => push_value(alloc, &mut self.err, rest, more, known)?,
            b"line_front" => self.err.truncate(rest.parse()?),
            _ => return Err(Fault::BadLine),
        }
        Ok(())
    }
}

/// Appends `abc: `, a text, and a line feed.
fn push_line(err: &mut Vec<u8>, text: &str) -> Result<(), Fault> {
    err.extend_from_slice(b"abc: ")?;
    push_text(err, text)
}

impl Row {
    /// A row of no input and no step.
    pub fn new(alloc: Global) -> Row {
        Row {
            alloc,
            name: String::new(alloc),
            input: Vec::new(alloc),
            pieces: Vec::new(alloc),
            steps: Vec::new(alloc),
        }
    }

    /// Takes a line of the row, with the lines after it.
    pub fn take(&mut self, line: &str, more: &[String], known: &[Definition]) -> Result<(), Fault> {
        let (key, rest) = line.split_once(' ').unwrap_or((line, ""));
        match key.as_bytes() {
            b"row" => self.name.push_str(rest)?,
            b"in" => push_value(self.alloc, &mut self.input, rest, more, known)?,
            b"cut" => self.input.truncate(rest.parse()?),
            b"pieces" => self.pieces = numbers_of(self.alloc, rest)?,
            b"$" => self.take_words(rest)?,
            _ => {
                let step = self.steps.last_mut().ok_or(Fault::BadLine)?;
                step.take(self.alloc, key, rest, more, known)?;
            }
        }
        Ok(())
    }

    /// Takes the words of a step. `""` is the empty word.
    fn take_words(&mut self, line: &str) -> Result<(), Fault> {
        let mut words = Words::new(self.alloc);
        for token in line.split_whitespace() {
            let mut word = Vec::new(self.alloc);
            if token != "\"\"" {
                push_escaped(self.alloc, &mut word, token)?;
            }
            words.push(word.as_slice())?;
        }
        self.steps.push(Step::new(self.alloc, words))?;
        Ok(())
    }
}
