ghost use Rattle.std.specs.Prelude.{◌≡◌, ◌∷◌, ◌++◌, []};
ghost use Rattle.abc_base.specs.Faults.{HasCause};
ghost use Rattle.abc_base.specs.Sinks.{WritesAll};
ghost use Rattle.abc_base.specs.Escapes.{with_escapes};
ghost use Rattle.abc_log.specs.Lines.{limit_end, limit_name as name_of_limit, profile_end, uncaught_end, word_end};

use crate::line_bytes::write_three;
use abc_base::{Failed, Sink, write_all, write_escaped};
use abc_heap_store::Limit;

/// Writes the line of an end that is a word. After `Failed` the front of that was written, and it comes only where the count of
/// faults rose or stood at its last value; so it is with each end.
#[tactic(auto, unfolding(crate::specs::Lines::word_end))]
pub fn write_word_end<K: Sink>(log: &mut K, word: &[u8]) -> Result<(), Failed>
    ensures bytes { WritesAll (K.written log.old) (K.written log.new) result (word_end word.now) }
    ensures cause { HasCause (K.faults log.old) (K.faults log.new) result }
{
    write_three(log, b"end ", word, b"\n")
}

/// Writes a line of a word and a name, which is shown with escapes.
#[tactic(auto, using(abc_base::proofs::Writing::writing))]
fn write_shown<K: Sink>(log: &mut K, word: &[u8], name: &[u8]) -> Result<(), Failed>
    ensures bytes { WritesAll (K.written log.old) (K.written log.new) result
        (word.now ++ with_escapes name.now ++ 10 ∷ []) }
    ensures cause { HasCause (K.faults log.old) (K.faults log.new) result }
{
    write_all(log, word)?;
    write_escaped(log, name)?;
    write_all(log, b"\n")
}

/// Writes the line of what nothing caught, by a name.
#[tactic(auto, unfolding(crate::specs::Lines::uncaught_end))]
pub fn write_uncaught_end<K: Sink>(log: &mut K, name: &[u8]) -> Result<(), Failed>
    ensures bytes { WritesAll (K.written log.old) (K.written log.new) result (uncaught_end name.now) }
    ensures cause { HasCause (K.faults log.old) (K.faults log.new) result }
{
    write_shown(log, b"end Uncaught ", name)
}

/// Writes the line of what the profile leaves out, by its name.
#[tactic(auto, unfolding(crate::specs::Lines::profile_end))]
pub fn write_profile_end<K: Sink>(log: &mut K, name: &[u8]) -> Result<(), Failed>
    ensures bytes { WritesAll (K.written log.old) (K.written log.new) result (profile_end name.now) }
    ensures cause { HasCause (K.faults log.old) (K.faults log.new) result }
{
    write_three(log, b"end Profile ", name, b"\n")
}

/// The name of a limit, as lines have it: that of its variant.
pub fn limit_name(limit: Limit) -> &'static [u8]
    ensures { result.now ≡ name_of_limit limit }
{
    match limit {
        Limit::Objects => b"Objects",
        Limit::Cells => b"Cells",
        Limit::Text => b"Text",
        Limit::Frames => b"Frames",
        Limit::Stack => b"Stack",
    }
}

/// Writes the line of a limit that is reached.
#[tactic(auto, unfolding(crate::specs::Lines::limit_end))]
pub fn write_limit_end<K: Sink>(log: &mut K, limit: Limit) -> Result<(), Failed>
    ensures bytes { WritesAll (K.written log.old) (K.written log.new) result (limit_end limit) }
    ensures cause { HasCause (K.faults log.old) (K.faults log.new) result }
{
    write_three(log, b"end Limit ", limit_name(limit), b"\n")
}
