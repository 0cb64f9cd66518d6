ghost use Rattle.std.specs.Prelude.{◌≡◌, ◌<◌, ◌^◌, ℕ, List, drop};
ghost use Rattle.abc_text_tokens.specs.Ahead.{FollowsLine};
ghost use Rattle.abc_text_tokens.specs.Counts.{count_raws};
ghost use Rattle.abc_text_lines.specs.Texts.{rows_of_lines};
ghost use Rattle.abc_text_lines.specs.Lines.{Label};
ghost use Rattle.abc_text_lines.specs.Wordlines.{among, count_lines as lines_counted};
ghost use Rattle.abc_text_tokens.specs.Cursor.{AreNumbered, most_lines, raws_at};

use crate::ahead::line_after;
use crate::line::Line;
use crate::places::place_of;
use crate::vocabulary::Vocabulary;

/// Whether a place is one of a part's.
fn is_among(place: u8, part: &[u8]) -> bool
    ensures { result ≡ among place part.now }
{
    for other in part {
        if place == *other {
            return true;
        }
    }
    false
}

/// How many of the lines from one on stand at a place, up to one that is not of the part. Some of the lines after the first
/// were met ahead: those from `met` on.
pub fn count_lines<'a>(
    vocabulary: &Vocabulary,
    first: Option<Line<'a>>,
    ahead: &[Line<'a>],
    met: usize,
    part: &[u8],
    place: u8,
) -> u32
    requires numbered { AreNumbered first }
    requires few { most_lines first < 2 ^ 32 }
    requires ahead { FollowsLine first (drop met ahead.now) }
    ensures { (labels : List Label) (set taken : List (List ℕ))
        → result ≡ lines_counted part.now place (rows_of_lines labels set taken (raws_at first.entry)) }
{
    count_ahead(vocabulary, first, ahead, met, part, place)
}

/// The same, of lines before they are read.
fn count_ahead<'a>(
    vocabulary: &Vocabulary,
    first: Option<Line<'a>>,
    ahead: &[Line<'a>],
    met: usize,
    part: &[u8],
    place: u8,
) -> u32
    requires numbered { AreNumbered first }
    requires few { most_lines first < 2 ^ 32 }
    requires ahead { FollowsLine first (drop met ahead.now) }
    ensures { result ≡ count_raws part.now place (raws_at first.entry) }
{
    let mut count: u32 = 0;
    let mut next = first;
    let mut met = met;
    while let Some(line) = next {
        let here = place_of(line.word);
        if here == place {
            count += 1;
        } else if !is_among(here, part) {
            return count;
        }
        let (following, behind) = line_after(vocabulary, &line, ahead, met);
        next = following;
        met = behind;
    }
    count
}
