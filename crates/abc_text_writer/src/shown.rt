//! A file that is shown, with what its strings are at the ends of lines.
ghost use Rattle.std.specs.Prelude.{◌≡◌, ◌∷◌, [], map, IfOk, IfSome, OnOk};
ghost use Rattle.abc_text_lines.specs.Listing.{quoted_comment, string_at as string_of};
ghost use Rattle.abc_text_writer.specs.Kept.{AreComments};

use crate::comments::put_quoted_comment;
use abc_base::{Bytes, NoMemory};
use abc_base_trees::Rows;
use abc_file_types::Abc;
use std::alloc::Global;
use std::marker::Model;

/// A file that is shown, which contracts see as the file. Where lines name strings again and again, it keeps what each is at
/// the end of a line, close together, so that a line takes one step for it.
#[derive(Drop)]
pub struct Shown<'a> {
    abc: &'a Abc,
    /// Of the empty text and each string what it is at the end of a line, or nothing.
    comments: Rows<u8>,
}

impl<'a> Model for Shown<'a> {
    ghost use Rattle.abc_file_types.specs.declared.tables.Abc.{Abc};
    ghost use Rattle.abc_text_writer.specs.Kept.{AreComments};

    ghost Value = { Abc };

    ghost view = { λ s. s.abc.now };

    ghost invariant = { λ s. AreComments s.abc.now s.comments };
}

/// Puts the end of a line that a text is in place of what the list has.
fn comment_of(text: &[u8], comment: &mut Vec<u8>) -> Result<(), NoMemory>
    ensures { OnOk result (comment.new.items ≡ quoted_comment text.now) }
{
    comment.clear();
    put_quoted_comment(text, comment)
}

/// The ends of lines that the empty text and some strings are.
fn comments_of(alloc: Global, strings: &[Bytes]) -> Result<Rows<u8>, NoMemory>
    ensures { IfOk result (λ rows. rows ≡ map quoted_comment ([] ∷ strings.now)) }
{
    let mut rows = Rows::new(alloc);
    let mut comment = Vec::new(alloc);
    comment_of(b"", &mut comment)?;
    rows.push(comment.as_slice())?;
    for string in strings {
        comment_of(string.as_slice(), &mut comment)?;
        rows.push(comment.as_slice())?;
    }
    Ok(rows)
}

/// Whether strings are named so often that it pays to keep what each is at the end of a line: there is a name for each four of them.
fn are_named_often(abc: &Abc) -> bool {
    abc.strings.len() / 4 <= abc.names.len()
}

/// What is kept of the ends of lines: all, or nothing.
#[tactic(auto, using(crate::proofs::Keeping::all_kept, crate::proofs::Keeping::none_kept))]
fn kept_of(alloc: Global, abc: &Abc) -> Result<Rows<u8>, NoMemory>
    ensures { IfOk result (AreComments abc.now) }
{
    if are_named_often(abc) {
        let comments = comments_of(alloc, abc.strings.as_slice())?;
        return Ok(comments);
    }
    Ok(Rows::new(alloc))
}

impl<'a> Shown<'a> {
    /// A file, to be shown. `NoMemory` where memory runs out.
    pub fn new(alloc: Global, abc: &'a Abc) -> Result<Shown<'a>, NoMemory>
        ensures { IfOk result (λ s. s ≡ abc.now) }
    {
        let comments = kept_of(alloc, abc)?;
        Ok(Shown { abc, comments })
    }

    /// The file.
    #[inline(always)]
    pub fn file(&self) -> &Abc
        ensures { result.now ≡ self.now }
    {
        self.abc
    }

    /// What the string of an index is at the end of a line, if that is kept; 0 is the empty text.
    #[inline(always)]
    pub fn comment(&self, n: u32) -> Option<&[u8]>
        ensures { IfSome result (λ comment. comment.now ≡ quoted_comment (string_of self.now n)) }
    {
        if n as usize >= self.comments.len() {
            return None;
        }
        Some(self.comments.get(n as usize))
    }
}
