use crate::bytes::{Definition, goes_on, push_value};
use crate::fault::Fault;
use crate::number::{range_of, with_number};
use crate::row::Row;
use std::alloc::Global;

/// Whether a line begins a block: a definition, `let NAME BYTES`, or a row, `row NAME`. A block goes up to the next such line.
pub fn begins_block(line: &str) -> bool {
    line.starts_with("let ") || line.starts_with("row ")
}

/// The rows of a block: none of a definition, which is added to those that are known, and of a row one for each of its
/// numbers. A line that isn't understood answers `BadLine`, and want of memory `NoMemory`.
pub fn rows_of(
    alloc: Global,
    block: &[&str],
    known: &mut Vec<Definition>,
) -> Result<Vec<Row>, Fault> {
    let mut rows = Vec::new(alloc);
    let Some(head) = block.first() else {
        return Ok(rows);
    };
    if let Some(rest) = head.strip_prefix("let ") {
        let lines = lines_of(alloc, block, None)?;
        known.push(definition_of(alloc, rest, &lines, known.as_slice())?)?;
        return Ok(rows);
    }
    match numbers_in(block)? {
        None => push_row(&mut rows, alloc, block, None, known.as_slice())?,
        Some((first, end)) => push_each(&mut rows, alloc, block, first, end, known.as_slice())?,
    }
    Ok(rows)
}

/// Appends the row of each number.
fn push_each(
    rows: &mut Vec<Row>,
    alloc: Global,
    block: &[&str],
    first: usize,
    end: usize,
    known: &[Definition],
) -> Result<(), Fault> {
    for k in first..end {
        push_row(rows, alloc, block, Some(k), known)?;
    }
    Ok(())
}

/// Appends the row of a number.
fn push_row(
    rows: &mut Vec<Row>,
    alloc: Global,
    block: &[&str],
    k: Option<usize>,
    known: &[Definition],
) -> Result<(), Fault> {
    let lines = lines_of(alloc, block, k)?;
    rows.push(row_of(alloc, &lines, known)?)?;
    Ok(())
}

/// The numbers for which a row stands, where it has a line `k FIRST..END`.
fn numbers_in(block: &[&str]) -> Result<Option<(usize, usize)>, Fault> {
    for line in block {
        if let Some(range) = line.strip_prefix("k ") {
            return Ok(Some(range_of(range)?));
        }
    }
    Ok(None)
}

/// The lines of a block but that with its numbers, each with the number in place of `{k}`.
fn lines_of(alloc: Global, block: &[&str], k: Option<usize>) -> Result<Vec<String>, Fault> {
    let mut lines = Vec::new(alloc);
    for line in block {
        if !line.starts_with("k ") {
            lines.push(line_of(alloc, line, k)?)?;
        }
    }
    Ok(lines)
}

/// A line with the number in place of `{k}`.
fn line_of(alloc: Global, line: &str, k: Option<usize>) -> Result<String, Fault> {
    match k {
        Some(k) => with_number(alloc, line, k),
        None => Ok(String::from_str(alloc, line)?),
    }
}

/// The definition of a block whose first line goes on so after `let`.
fn definition_of(
    alloc: Global,
    rest: &str,
    lines: &[String],
    known: &[Definition],
) -> Result<Definition, Fault> {
    let (name, value) = rest.split_once(' ').unwrap_or((rest, ""));
    let mut bytes = Vec::new(alloc);
    let more = lines.get(1..).unwrap_or(&[]);
    push_value(alloc, &mut bytes, value, more, known)?;
    Ok(Definition {
        name: String::from_str(alloc, name)?,
        bytes,
    })
}

/// The row of a block, which has a step.
fn row_of(alloc: Global, lines: &[String], known: &[Definition]) -> Result<Row, Fault> {
    let mut row = Row::new(alloc);
    for (i, line) in lines.iter().enumerate() {
        let line = line.as_str();
        if !goes_on(line) {
            let more = lines.get(i..).and_then(|l| l.get(1..)).unwrap_or(&[]);
            row.take(line, more, known)?;
        }
    }
    if row.steps.is_empty() {
        return Err(Fault::BadLine);
    }
    Ok(row)
}
