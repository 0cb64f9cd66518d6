ghost use Rattle.std.specs.Prelude.{◌≡◌, ◌+◌, ◌-◌, ◌<◌, ◌≤◌, ◌^◌, ℕ, List, IfOk, OnOk, Some};
ghost use Rattle.abc_text_lines.specs.Texts.{labels_set};
ghost use Rattle.abc_text_tokens.specs.Ahead.{FollowsLine};
ghost use Rattle.abc_text_tokens.specs.Labels.{LabelsLead, TakesIn, found_label};
ghost use Rattle.abc_text_tokens.specs.Cursor.{AreNumbered, AreLinesNumbered, most_lines, raw_of_line, raws_at};
ghost use Rattle.abc_text_tokens.specs.Names.{found_name};

use crate::line::Line;
use crate::noting::note;
use crate::vocabulary::Vocabulary;
use abc_base::NoMemory;
use abc_text_lines::Word;
use indexmap::IndexMap;
use std::alloc::Global;

/// How far the lines of a body were gone through.
#[derive(Clone, Copy, Debug)]
struct Reached<'a> {
    /// How many instructions there are ahead of the next line.
    instructions: u32,
    /// The next line, unless the body has ended.
    next: Option<Line<'a>>,
}

/// The instruction that each label of a body stands for, from the lines after its own, of which the first is given, and
/// some of the others, which were met ahead: the label that is set first counts, and the next body ends the lines.
/// `NoMemory` where memory runs out.
pub fn labels_of<'a>(
    alloc: Global,
    vocabulary: &Vocabulary,
    first: Option<Line<'a>>,
    ahead: &[Line<'a>],
) -> Result<IndexMap<&'a [u8], u32>, NoMemory>
    requires numbered { AreNumbered first }
    requires few { most_lines first < 2 ^ 32 }
    requires ahead { FollowsLine first ahead.now }
    ensures { IfOk result (λ m. LabelsLead m (labels_set 0 (raws_at first.entry))) }
{
    let mut labels = IndexMap::new(alloc);
    if let Some(line) = first {
        let reached = note_met(&mut labels, &line, ahead)?;
        note_rest(vocabulary, &mut labels, reached.instructions, reached.next)?;
    }
    Ok(labels)
}

/// Notes the label that a line sets, if it is one's, and answers how many instructions there are ahead of the line after it;
/// `None` for the line of another body, which ends this one. `NoMemory` where memory runs out.
#[inline(always)]
fn take_in<'a>(
    labels: &mut IndexMap<&'a [u8], u32>,
    instructions: u32,
    line: &Line<'a>,
) -> Result<Option<u32>, NoMemory>
    requires { instructions < 2 ^ 32 - 1 }
    ensures { IfOk result (λ more. TakesIn labels.old instructions (raw_of_line line.now) labels.new more) }
{
    match line.word {
        Word::Body => return Ok(None),
        Word::Label => note(labels, line.name, instructions)?,
        Word::Instruction(_) => return Ok(Some(instructions + 1)),
        _ => {}
    }
    Ok(Some(instructions))
}

/// Notes the labels of a body's first line and of those that were met ahead, but for the last of all these.
fn note_met<'a, 'l>(
    labels: &mut IndexMap<&'a [u8], u32>,
    first: &'l Line<'a>,
    ahead: &'l [Line<'a>],
) -> Result<Reached<'a>, NoMemory>
    requires numbered { AreLinesNumbered first.now }
    requires few { most_lines (Some first.now) < 2 ^ 32 }
    requires ahead { FollowsLine (Some first.now) ahead.now }
    ensures numbered { IfOk result (λ r. AreNumbered r.next) }
    ensures few { IfOk result (λ r. r.instructions + most_lines r.next ≤ most_lines (Some first.now)) }
    ensures found { IfOk result (λ r. (name : List ℕ)
        → found_label labels.new r.instructions (raws_at r.next) name
        ≡ found_label labels.old 0 (raws_at (Some first.now)) name) }
{
    let mut instructions = 0;
    let mut line = first;
    for following in ahead {
        match take_in(labels, instructions, line)? {
            Some(more) => instructions = more,
            None => {
                return Ok(Reached {
                    instructions,
                    next: None,
                });
            }
        }
        line = following;
    }
    Ok(Reached {
        instructions,
        next: Some(*line),
    })
}

/// Notes the labels of a body from a line on, ahead of which it has so many instructions. Each line is sought in turn.
fn note_rest<'a>(
    vocabulary: &Vocabulary,
    labels: &mut IndexMap<&'a [u8], u32>,
    before: u32,
    first: Option<Line<'a>>,
) -> Result<(), NoMemory>
    requires numbered { AreNumbered first }
    requires few { before + most_lines first < 2 ^ 32 }
    ensures { OnOk result ((name : List ℕ)
        → found_name labels.new name ≡ found_label labels.old before (raws_at first.entry) name) }
{
    let mut instructions = before;
    let mut next = first;
    while let Some(line) = next {
        match take_in(labels, instructions, &line)? {
            Some(more) => instructions = more,
            None => return Ok(()),
        }
        next = line.after(vocabulary);
    }
    Ok(())
}
