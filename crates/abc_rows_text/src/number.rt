use crate::fault::Fault;
use std::alloc::Global;

/// A line in which `{k}` stands for a number, `{k*N}` for N times it, `{k+N}` for N more, and `{x}` for its two hexadecimal
/// digits.
pub fn with_number(alloc: Global, line: &str, k: usize) -> Result<String, Fault> {
    let mut out = String::new(alloc);
    for (i, part) in line.split('{').enumerate() {
        if i == 0 {
            out.push_str(part)?;
        } else {
            let (term, rest) = part.split_once('}').ok_or(Fault::BadLine)?;
            push_term(&mut out, term, k)?;
            out.push_str(rest)?;
        }
    }
    Ok(out)
}

/// Appends what a term in braces stands for.
fn push_term(out: &mut String, term: &str, k: usize) -> Result<(), Fault> {
    if term == "x" {
        write!(out, "{k:02x}")?;
    } else {
        let number = value_of(term, k)?;
        write!(out, "{number}")?;
    }
    Ok(())
}

/// The number of a term in braces.
fn value_of(term: &str, k: usize) -> Result<usize, Fault> {
    if term == "k" {
        return Ok(k);
    }
    if let Some(factor) = term.strip_prefix("k*") {
        return k.checked_mul(factor.parse()?).ok_or(Fault::BadLine);
    }
    let more = term.strip_prefix("k+").ok_or(Fault::BadLine)?;
    k.checked_add(more.parse()?).ok_or(Fault::BadLine)
}

/// The numbers of a line.
pub fn numbers_of(alloc: Global, line: &str) -> Result<Vec<u32>, Fault> {
    let mut numbers = Vec::new(alloc);
    for word in line.split_whitespace() {
        numbers.push(word.parse::<u32>()?)?;
    }
    Ok(numbers)
}

/// The numbers from the first of two on, up to but not including the second, as `0..54`.
pub fn range_of(line: &str) -> Result<(usize, usize), Fault> {
    let (first, end) = line.split_once("..").ok_or(Fault::BadLine)?;
    Ok((first.parse()?, end.parse()?))
}
