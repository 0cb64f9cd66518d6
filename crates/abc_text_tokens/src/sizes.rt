ghost use Rattle.std.specs.Prelude.{◌≡◌, ◌<◌, ◌^◌, ℕ, true, length, slice_index};
ghost use Rattle.abc_text_tokens.specs.Counts.{count_all_raws, is_table};
ghost use Rattle.abc_text_tokens.specs.Tables.{StandsAt};
ghost use Rattle.abc_text_lines.specs.Texts.{instances_in, lines_in, raws_from, rows_of, sizes_in};

use crate::heads::may_be_of_table;
use crate::line::{head_word, split_line};
use crate::places::place_of;
use crate::vocabulary::Vocabulary;
use abc_file_types::Sizes;

/// How many lines each table of a text has.
#[derive(Clone, Copy, Debug)]
pub struct TableSizes {
    pub sizes: Sizes,
    pub instances: u32,
}

/// The place of a line, unless it has none, or surely isn't a table's.
#[inline(always)]
#[tactic(auto, using(crate::proofs::Passing::stands, crate::proofs::Passing::stands_nowhere))]
fn place_in_tables(vocabulary: &Vocabulary, line: &[u8]) -> Option<usize>
    ensures { StandsAt line.now result }
{
    if !may_be_of_table(line) {
        return None;
    }
    match head_word(vocabulary, line) {
        Some(word) => Some(place_of(word) as usize),
        None => None,
    }
}

/// How many of the lines of a text stand at each place of a table.
fn counts_of(vocabulary: &Vocabulary, text: &[u8]) -> [u32; 26]
    requires { length text.now < 2 ^ 32 }
    ensures { (k : ℕ) → is_table k ≡ true
        → slice_index result k ≡ count_all_raws k (raws_from 1 (lines_in text.now)) }
{
    let mut counts = [0; 26];
    let mut rest = text;
    while !rest.is_empty() {
        let (line, others) = split_line(rest);
        if let Some(place) = place_in_tables(vocabulary, line) {
            counts[place] += 1;
        }
        rest = others;
    }
    counts
}

/// How many lines each table of a text of less than 2^32 bytes has, and how many lines are instances'.
pub fn sizes_of(vocabulary: &Vocabulary, text: &[u8]) -> TableSizes
    requires { length text.now < 2 ^ 32 }
    ensures sizes { result.sizes ≡ sizes_in (rows_of text.now) }
    ensures instances { result.instances ≡ instances_in (rows_of text.now) }
{
    let counts = counts_of(vocabulary, text);
    let sizes = Sizes {
        ints: counts[1],
        uints: counts[2],
        doubles: counts[3],
        strings: counts[4],
        namespaces: counts[5],
        sets: counts[6],
        names: counts[7],
        methods: counts[8],
        metadata: counts[12],
        classes: counts[20],
    };
    TableSizes {
        sizes,
        instances: counts[14],
    }
}
