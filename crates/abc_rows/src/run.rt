ghost use Rattle.std.specs.Prelude.{◌<◌};

use abc_base::{BuiltinHost, MemSink, MemSource};
use abc_cli::abc_main;
use abc_rows_text::{Fault, Row, Step};
use std::alloc::Global;

/// How many bytes a stream moves at once where a row doesn't say.
const PIECES: [u32; 3] = [1, 7, 5000];

/// How many runs ended as their row wants, and how many didn't. The counts stand still at their last value.
#[derive(Drop)]
pub struct Tally {
    pub passed: u32,
    pub failed: u32,
}

impl Tally {
    /// Counts a run.
    pub fn count(&mut self, passed: bool) {
        if passed {
            self.passed = self.passed.saturating_add(1);
        } else {
            self.failed = self.failed.saturating_add(1);
        }
    }
}

/// How a run ended: its status, and what stands in its sinks.
#[derive(Drop)]
struct Ended {
    status: u8,
    out: Vec<u8>,
    err: Vec<u8>,
}

/// Runs a row once for each number of bytes a call.
pub fn run_row<R: AllocGlobal + Print>(rt: &R, row: &Row, tally: &mut Tally) -> Result<(), Fault> {
    let pieces = if row.pieces.is_empty() {
        &PIECES
    } else {
        row.pieces.as_slice()
    };
    for piece in pieces {
        let passed = run_at(rt, row, *piece as usize)?;
        tally.count(passed);
    }
    Ok(())
}

/// Runs the steps of a row, and prints a line for the first that doesn't end as it is to.
fn run_at<R: AllocGlobal + Print>(rt: &R, row: &Row, piece: usize) -> Result<bool, Fault> {
    let mut input = row.input.clone()?;
    for step in &row.steps {
        let ended = run_step(rt.alloc(), step, input.as_slice(), piece.max(1))?;
        if !is_wanted(step, &ended) {
            print_failure(rt, row, piece, step, &ended)?;
            return Ok(false);
        }
        input = ended.out;
    }
    Ok(true)
}

/// Runs a step.
fn run_step(alloc: Global, step: &Step, input: &[u8], piece: usize) -> Result<Ended, Fault>
    requires { 0 < piece }
{
    let mut source = MemSource::new(alloc, input, piece, step.failing_reads.as_slice())?;
    let mut out = MemSink::new(alloc, step.room, piece, step.failing_writes.as_slice())?;
    let mut err = MemSink::new(alloc, step.line_room, piece, &[])?;
    let status = abc_main(
        alloc,
        &step.words,
        &mut source,
        &mut out,
        &mut err,
        &BuiltinHost,
    );
    Ok(Ended {
        status: status.code(),
        out: Vec::from_slice(alloc, out.written())?,
        err: Vec::from_slice(alloc, err.written())?,
    })
}

/// Whether a run ended as its step wants.
fn is_wanted(step: &Step, ended: &Ended) -> bool {
    ended.status == step.status && ended.err == step.err && (step.any || ended.out == step.out)
}

/// Prints how a step ended and how it was to end.
fn print_failure<R: AllocGlobal + Print>(
    rt: &R,
    row: &Row,
    piece: usize,
    step: &Step,
    ended: &Ended,
) -> Result<(), Fault> {
    let name = row.name.as_str();
    println!(rt;
        "{name}, {piece} bytes a call: status {}, not {}",
        ended.status, step.status
    )?;
    let got = text_of(ended.err.as_slice());
    let want = text_of(step.err.as_slice());
    println!(rt; "  line {got:?}, not {want:?}")?;
    let got = hex::encode(rt.alloc(), ended.out.as_slice())?;
    let want = hex::encode(rt.alloc(), step.out.as_slice())?;
    println!(rt; "  output {got}, not {want}")?;
    Ok(())
}

/// Bytes as a text, where they are one.
fn text_of(bytes: &[u8]) -> Option<&str> {
    str::from_utf8(bytes).ok()
}
