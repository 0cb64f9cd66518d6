use crate::run::{Tally, run_row};
use abc_rows_text::{Definition, Fault, Row, begins_block, rows_of};

/// Runs the rows of a file. Empty lines and lines that begin with `#` are left out.
pub fn run_rows<R: AllocGlobal + Print>(
    rt: &R,
    text: &str,
    tally: &mut Tally,
) -> Result<(), Fault> {
    let mut known = Vec::new(rt.alloc());
    let mut block = Vec::new(rt.alloc());
    for line in text.lines() {
        if begins_block(line) {
            run_block(rt, block.as_slice(), &mut known, tally)?;
            block.clear();
        }
        if !line.is_empty() && !line.starts_with('#') {
            block.push(line)?;
        }
    }
    run_block(rt, block.as_slice(), &mut known, tally)
}

/// Runs the rows of a block, and prints a line where that isn't understood.
fn run_block<R: AllocGlobal + Print>(
    rt: &R,
    block: &[&str],
    known: &mut Vec<Definition>,
    tally: &mut Tally,
) -> Result<(), Fault> {
    match rows_of(rt.alloc(), block, known) {
        Ok(rows) => run_each(rt, rows.as_slice(), tally),
        Err(Fault::BadLine) => {
            tally.count(false);
            let head = block.first().copied().unwrap_or("");
            println!(rt; "not understood: {head}")?;
            Ok(())
        }
        Err(fault) => Err(fault),
    }
}

/// Runs each of some rows.
fn run_each<R: AllocGlobal + Print>(rt: &R, rows: &[Row], tally: &mut Tally) -> Result<(), Fault> {
    for row in rows {
        run_row(rt, row, tally)?;
    }
    Ok(())
}
