//! Lines that are met ahead of reading them, so that they need not be found again.
ghost use Rattle.std.specs.Prelude.{◌+◌, drop, length, IfOk, OnOk, Some};
ghost use Rattle.abc_text_tokens.specs.Ahead.{FollowsLine};
ghost use Rattle.abc_text_tokens.specs.Cursor.{AreNumbered, Comes, AreLinesNumbered, raws_after};

use crate::line::Line;
use crate::vocabulary::Vocabulary;
use abc_base::NoMemory;
use abc_text_lines::Word;

/// The most lines that are met ahead: enough for nearly all bodies, and few beside a text.
const MOST: usize = 4096;

/// Puts the lines after the first one into a list, in place of what it has, up to the next body's line and no more than
/// [`MOST`]. `NoMemory` where memory runs out.
pub fn meet<'a>(
    vocabulary: &Vocabulary,
    first: Option<Line<'a>>,
    ahead: &mut Vec<Line<'a>>,
) -> Result<(), NoMemory>
    requires { AreNumbered first }
    ensures { OnOk result (FollowsLine first.entry ahead.new.items) }
{
    ahead.clear();
    let mut next = first;
    while let Some(line) = next {
        if matches!(line.word, Word::Body) || ahead.len() >= MOST {
            return Ok(());
        }
        next = line.after(vocabulary);
        if let Some(line) = next {
            ahead.push(line)?;
        }
    }
    Ok(())
}

/// Meets the lines after a line ahead, if none are met and others ask for many of them, and answers the place from which
/// on they stand in the list. `NoMemory` where memory runs out.
pub fn look_ahead<'a>(
    vocabulary: &Vocabulary,
    line: &Line<'a>,
    ahead: &mut Vec<Line<'a>>,
    place: usize,
) -> Result<usize, NoMemory>
    requires numbered { AreLinesNumbered line.now }
    requires ahead { FollowsLine (Some line.now) (drop place ahead.old.items) }
    ensures { IfOk result (λ behind. FollowsLine (Some line.now) (drop behind ahead.new.items)) }
{
    if place < ahead.len() || !matches!(line.word, Word::Method | Word::Instance) {
        return Ok(place);
    }
    meet(vocabulary, Some(*line), ahead)?;
    Ok(0)
}

/// The line after a line, by a search for it.
#[inline(never)]
fn sought_after<'a>(vocabulary: &Vocabulary, line: &Line<'a>) -> Option<Line<'a>>
    requires { AreLinesNumbered line.now }
    ensures { Comes (raws_after line.now) (line.now.number + 1) (length line.now.rest.now) result }
{
    line.after(vocabulary)
}

/// The line after a line, and the place behind it among those that were met ahead: the one at the place, if there is one.
pub fn line_after<'a>(
    vocabulary: &Vocabulary,
    line: &Line<'a>,
    ahead: &[Line<'a>],
    place: usize,
) -> (Option<Line<'a>>, usize)
    requires numbered { AreLinesNumbered line.now }
    requires ahead { FollowsLine (Some line.now) (drop place ahead.now) }
    ensures comes { Comes (raws_after line.now) (line.now.number + 1) (length line.now.rest.now) result.0 }
    ensures ahead { FollowsLine result.0 (drop result.1 ahead.now) }
{
    if place < ahead.len() {
        (Some(ahead[place]), place + 1)
    } else {
        (sought_after(vocabulary, line), place)
    }
}
