ghost use Rattle.std.specs.Prelude.{◌≡◌, ◌≢◌, [], IsErr, IsSome, Some, false};
ghost use Rattle.abc_base.specs.Faults.{HasCause};
ghost use Rattle.abc_base.specs.Sinks.{GrowsByFront, WritesAll};
ghost use Rattle.abc_log.specs.Followed.{bytes_in, noted_name, start_note, noted_number, start_and_since};
ghost use Rattle.abc_log.specs.Lines.{out_line};
ghost use Rattle.abc_log.specs.Outs.{AreBytesShown, open_line};

use crate::history::History;
use crate::lent::Log;
use crate::shown::Shown;
use abc_base::{Failed, Sink};

/// A sink for what a step writes, which shows it in a log. It takes the byte at which the log fails, and fails from the next write on:
/// so that byte is among those that it tells as written.
#[derive(Drop)]
pub struct OutLine<L: Log> {
    shown: Shown<L>,
    faults: u64,
    history: History,
    ghost named: { L.name shown.log ≡ noted_name history.start },
    ghost quiet: { shown.failed ≡ false → faults ≡ 0 },
    ghost follows: { ∥ AreBytesShown (bytes_in history.start) (noted_number history.start) history.bytes (L.written shown.log) (L.faults shown.log) shown.some shown.failed ∥₁ },
}

impl<L: Log> OutLine<L> {
    ghost use Rattle.abc_log.specs.OutLines.{bytes_shown, line_faults, start_of_line};

    /// Nothing is written yet.
    pub fn new(log: L) -> OutLine<L>
        ensures start { start_of_line result ≡ start_note (L.name log) (L.faults log) (L.written log) }
        ensures bytes { bytes_shown result ≡ [] }
    {
        let history = History::new(&log);
        OutLine {
            shown: Shown::new(log),
            faults: 0,
            history,
        }
    }

    /// The line ends: where there was a byte, by a line feed. It gives the log as it stands, and fails where that failed, now or
    /// before, after a front of the line; where a write to the line failed, that has no line feed.
    pub fn end(self) -> (L, Result<(), Failed>)
        ensures line { WritesAll (bytes_in (start_of_line self)) (L.written result.0) result.1
            (out_line (bytes_shown self)) }
        ensures front { line_faults self ≢ 0
            → IsErr result.1
            × (IsSome (bytes_in (start_of_line self))
            → GrowsByFront (bytes_in (start_of_line self)) (L.written result.0)
            (open_line (bytes_shown self))) }
        ensures cause { HasCause (noted_number (start_of_line self)) (L.faults result.0) result.1 }
        ensures same { L.name result.0 ≡ noted_name (start_of_line self) }
    {
        let mut shown = self.shown;
        let ended = shown.end();
        (shown.into_inner(), ended)
    }
}

impl<L: Log> Sink for OutLine<L> {
    ghost written = { λ o. Some (start_and_since o.history.start o.history.bytes) };

    ghost faults = { λ o. o.faults };

    fn write(&mut self, piece: &[u8]) -> Result<usize, Failed> {
        if piece.len() == 0 {
            return Ok(0);
        }
        if self.shown.failed() {
            self.faults = self.faults.saturating_add(1);
            return Err(Failed);
        }
        self.shown.show(piece[0]);
        self.history = self.history.then(&piece[..1]);
        Ok(1)
    }
}
