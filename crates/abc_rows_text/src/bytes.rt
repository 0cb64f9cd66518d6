use crate::fault::Fault;
use std::alloc::Global;

/// Bytes that have a name in a file of rows.
#[derive(Drop)]
pub struct Definition {
    pub name: String,
    pub bytes: Vec<u8>,
}

/// Whether a line goes on with the value of the line before it.
pub fn goes_on(line: &str) -> bool {
    line.starts_with('|') || line.starts_with('+')
}

/// Appends a value: the bytes of a line's tokens, and of the lines after it that go on with it. `| text` stands for the
/// text and a line feed, and `+` is followed by more tokens.
pub fn push_value(
    alloc: Global,
    out: &mut Vec<u8>,
    line: &str,
    more: &[String],
    known: &[Definition],
) -> Result<(), Fault> {
    push_tokens(alloc, out, line, known)?;
    for next in more {
        let next = next.as_str();
        if let Some(tokens) = next.strip_prefix('+') {
            push_tokens(alloc, out, tokens, known)?;
        } else if let Some(text) = next.strip_prefix('|') {
            push_text(out, text.strip_prefix(' ').unwrap_or(text))?;
        } else {
            break;
        }
    }
    Ok(())
}

/// Appends a text and a line feed.
pub fn push_text(out: &mut Vec<u8>, text: &str) -> Result<(), Fault> {
    out.extend_from_slice(text.as_bytes())?;
    out.push(b'\n')?;
    Ok(())
}

/// Appends the bytes of each token of a line.
fn push_tokens(
    alloc: Global,
    out: &mut Vec<u8>,
    line: &str,
    known: &[Definition],
) -> Result<(), Fault> {
    for token in line.split_whitespace() {
        push_token(alloc, out, token, known)?;
    }
    Ok(())
}

/// Appends the bytes of a token: `@NAME` stands for bytes that have this name, `"text"` for those of the text, `00*12` for
/// twelve bytes 00, as `12fc*3` for three times two bytes, and other tokens are pairs of hexadecimal digits.
fn push_token(
    alloc: Global,
    out: &mut Vec<u8>,
    token: &str,
    known: &[Definition],
) -> Result<(), Fault> {
    if let Some(name) = token.strip_prefix('@') {
        let bytes = bytes_of(name, known).ok_or(Fault::BadLine)?;
        out.extend_from_slice(bytes)?;
    } else if let Some(quoted) = token.strip_prefix('"') {
        let text = quoted.strip_suffix('"').ok_or(Fault::BadLine)?;
        out.extend_from_slice(text.as_bytes())?;
    } else if let Some((digits, count)) = token.split_once('*') {
        let bytes = hex::decode(alloc, digits)?;
        push_repeated(out, bytes.as_slice(), count.parse()?)?;
    } else {
        let bytes = hex::decode(alloc, token)?;
        out.extend_from_slice(bytes.as_slice())?;
    }
    Ok(())
}

/// The bytes that have a name.
fn bytes_of<'a>(name: &str, known: &'a [Definition]) -> Option<&'a [u8]> {
    known
        .iter()
        .find(|d| d.name.as_str() == name)
        .map(|d| d.bytes.as_slice())
}

/// Appends bytes so many times.
fn push_repeated(out: &mut Vec<u8>, bytes: &[u8], count: usize) -> Result<(), Fault> {
    for _ in 0..count {
        out.extend_from_slice(bytes)?;
    }
    Ok(())
}

/// Appends a text, where `\` and two hexadecimal digits stand for a byte.
pub fn push_escaped(alloc: Global, out: &mut Vec<u8>, text: &str) -> Result<(), Fault> {
    for (i, part) in text.split('\\').enumerate() {
        if i == 0 {
            out.extend_from_slice(part.as_bytes())?;
        } else {
            let (digits, rest) = part.split_at_checked(2).ok_or(Fault::BadLine)?;
            let bytes = hex::decode(alloc, digits)?;
            out.extend_from_slice(bytes.as_slice())?;
            out.extend_from_slice(rest.as_bytes())?;
        }
    }
    Ok(())
}
