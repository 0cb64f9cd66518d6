ghost use Rattle.std.specs.Prelude.{◌≡◌, ◌<◌, ◌≤◌, ◌-◌, ◌^◌, ◌∷◌, [], drop, false, true, ℕ, Some, IfOk, IfErr, OnOk, IsSome, length};
ghost use Rattle.abc_text_tokens.specs.Ahead.{FollowsLine};
ghost use Rattle.abc_text_lines.specs.Texts.{instances_in, rows_of, sizes_in};
ghost use Rattle.abc_text_operands.specs.Places.{Places};
ghost use Rattle.abc_text_lines.specs.Wordlines.{count_all, count_lines as lines_counted};
ghost use Rattle.abc_text_lines.specs.Words.{place_of};
ghost use Rattle.abc_text_tokens.specs.Cursor.{AreNumbered, most_lines, raws_after, raws_at};

use crate::bodied::Bodied;
use crate::error::{AsmError, refused};
use crate::noting::{method_of, note_label, renew};
use abc_base::NoMemory;
use abc_file_types::Sizes;
use abc_text_lines::{AsmReason, Word};
use abc_text_tokens::{
    Line, TableSizes, Token, Vocabulary, count_lines, labels_of, line_after, look_ahead, meet,
    next_line, put_tokens, sizes_of,
};
use indexmap::IndexMap;
use std::alloc::Global;

/// A line that was taken. Its operands are those of the reader.
#[derive(Clone, Copy, Debug)]
pub struct Taken {
    pub number: u32,
    pub word: Word,
    /// A label line whose label stands before it in the body, or a body's line whose method has a body already.
    pub repeated: bool,
}

/// A text that is read line by line.
#[derive(Drop)]
pub struct Reader<'a> {
    pub alloc: Global,
    vocabulary: &'a Vocabulary,
    /// The next line.
    next: Option<Line<'a>>,
    /// Lines after it that were met ahead: those from the place on.
    ahead: Vec<Line<'a>>,
    place: usize,
    /// The operands of the line that was taken last.
    pub operands: Vec<Token<'a>>,
    /// The line of the body that the reader is in.
    body: Option<Line<'a>>,
    /// The instructions that the labels of the body stand for.
    pub places: IndexMap<&'a [u8], u32>,
    /// How many of these labels stood in the body so far: labels stand in the order in which they were found.
    met: usize,
    /// Labels that stood in the body so far and are not the next of these.
    set: IndexMap<&'a [u8], bool>,
    /// The methods that have a body.
    bodied: Bodied<'a>,
    /// How many lines each table has.
    pub sizes: Sizes,
    /// How many lines are instances'.
    pub instances: u32,
    /// How many of the lines that are left are those of instances and of classes.
    instances_left: u32,
    classes_left: u32,
}

impl<'a> Reader<'a> {
    ghost use Rattle.abc_text_reader.specs.Reading.{Entered, Goes, IsLineBroken, IsReader, NotesLine, NotedBody, Opens, may_repeat, row_of, rows_left, word_next, labels_now};

    /// A reader at the first line of a text of less than 2^32 bytes. `NoMemory` where memory runs out.
    pub fn new(alloc: Global, vocabulary: &'a Vocabulary, text: &'a [u8]) -> Reader<'a>
        requires { length text.now < 2 ^ 32 }
        ensures is { IsReader result }
        ensures rows { rows_left result ≡ rows_of text.now }
        ensures sizes { result.sizes ≡ sizes_in (rows_of text.now) }
        ensures instances { result.instances ≡ instances_in (rows_of text.now) }
    {
        let next = next_line(vocabulary, text, 1);
        let TableSizes { sizes, instances } = sizes_of(vocabulary, text);
        Reader {
            alloc,
            vocabulary,
            next,
            ahead: Vec::new(alloc),
            place: 0,
            operands: Vec::new(alloc),
            body: None,
            places: IndexMap::new(alloc),
            met: 0,
            set: IndexMap::new(alloc),
            bodied: Bodied::new(alloc),
            sizes,
            instances,
            instances_left: instances,
            classes_left: sizes.classes,
        }
    }

    /// The word of the next line, or `None` at the end.
    pub fn word(&self) -> Option<Word>
        ensures { result ≡ word_next (rows_left self.now) }
    {
        match self.next {
            Some(line) => Some(line.word),
            None => None,
        }
    }

    /// How many of the lines that come stand at a place, up to one that is not of a part with these places.
    pub fn count(&self, part: &[u8], place: u8) -> u32
        requires { IsReader self.now }
        ensures { result ≡ lines_counted part.now place (rows_left self.now) }
    {
        count_lines(
            self.vocabulary,
            self.next,
            self.ahead.as_slice(),
            self.place,
            part,
            place,
        )
    }

    /// How many instances' lines were taken.
    pub fn instances_taken(&self) -> u32
        requires { IsReader self.now }
        ensures { result ≡ self.now.instances - count_all 14 (rows_left self.now) }
    {
        self.instances - self.instances_left
    }

    /// How many classes' lines were taken.
    pub fn classes_taken(&self) -> u32
        requires { IsReader self.now }
        ensures { result ≡ self.now.sizes.classes - count_all 20 (rows_left self.now) }
    {
        self.sizes.classes - self.classes_left
    }

    /// Takes the next line, of which there is one, and puts its operands where they are found. A line that is broken is
    /// refused as Text. `NoMemory` where memory runs out.
    pub fn take(&mut self) -> Result<Taken, AsmError>
        requires is { IsReader self.old }
        requires some { IsSome (word_next (rows_left self.old)) }
        ensures goes { IfOk result (λ taken. Goes self.old self.new) }
        ensures row { IfOk result (λ taken. rows_left self.old ≡ row_of taken self.new ∷ rows_left self.new) }
        ensures labels { IfOk result (λ taken. Places self.new.places (labels_now self.new.body)) }
        ensures once { IfOk result (λ taken. may_repeat taken.word ≡ false → taken.repeated ≡ false) }
        ensures broken { IfErr result (λ e. IsLineBroken e (rows_left self.old)) }
    {
        let Some(line) = self.next else {
            unreachable!()
        };
        let unclosed = put_tokens(line.tail, &mut self.operands)?;
        let broken = line.broken || unclosed;
        let behind = look_ahead(self.vocabulary, &line, &mut self.ahead, self.place)?;
        let (next, place) = line_after(self.vocabulary, &line, self.ahead.as_slice(), behind);
        self.next = next;
        self.place = place;
        let repeated = self.note_line(&line)?;
        if broken {
            return Err(refused(line.number, AsmReason::Text));
        }
        Ok(Taken {
            number: line.number,
            word: line.word,
            repeated,
        })
    }

    /// What a line changes for those that follow, and whether it repeats another.
    fn note_line(&mut self, line: &Line<'a>) -> Result<bool, NoMemory>
        requires next { raws_after line.now ≡ raws_at self.old.next }
        requires numbered { AreNumbered self.old.next }
        requires few { most_lines self.old.next < 2 ^ 32 }
        requires ahead { FollowsLine self.old.next (drop self.old.place self.old.ahead.items) }
        requires places { Places self.old.places (labels_now self.old.body) }
        requires instances { place_of line.now.word ≡ 14 → 1 ≤ self.old.instances_left }
        requires classes { place_of line.now.word ≡ 20 → 1 ≤ self.old.classes_left }
        ensures { IfOk result (λ repeated. NotesLine self.old self.new line.now repeated) }
    {
        match line.word {
            Word::Instance => self.instances_left -= 1,
            Word::Class => self.classes_left -= 1,
            Word::Label => {
                return note_label(&self.places, &mut self.met, &mut self.set, line.name);
            }
            Word::Body => return self.note_body(line),
            _ => {}
        }
        Ok(false)
    }

    /// Goes into a body, and tells whether its method has one already.
    fn note_body(&mut self, line: &Line<'a>) -> Result<bool, NoMemory>
        requires next { raws_after line.now ≡ raws_at self.old.next }
        requires numbered { AreNumbered self.old.next }
        requires few { most_lines self.old.next < 2 ^ 32 }
        ensures { IfOk result (λ repeated. NotedBody self.old self.new line.now repeated) }
    {
        self.enter(line)?;
        match method_of(self.operands.as_slice()) {
            Some(method) => self.bodied.note(method),
            None => Ok(false),
        }
    }

    /// Finds the labels of a body, and forgets those that stood in the one before. The lines that are met are kept.
    fn enter(&mut self, line: &Line<'a>) -> Result<(), NoMemory>
        requires next { raws_after line.now ≡ raws_at self.old.next }
        requires numbered { AreNumbered self.old.next }
        requires few { most_lines self.old.next < 2 ^ 32 }
        ensures { OnOk result (Entered self.old self.new line.now) }
    {
        meet(self.vocabulary, self.next, &mut self.ahead)?;
        self.place = 0;
        let labels = labels_of(
            self.alloc,
            self.vocabulary,
            self.next,
            self.ahead.as_slice(),
        )?;
        renew(&mut self.places, labels);
        self.body = Some(*line);
        self.met = 0;
        renew(&mut self.set, IndexMap::new(self.alloc));
        Ok(())
    }
}
