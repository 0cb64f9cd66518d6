ghost use Rattle.std.specs.Prelude.{◌≡◌, ◌≤◌, ◌++◌, true, false, Err};
ghost use Rattle.abc_base.specs.Faults.{HasCause};
ghost use Rattle.abc_base.specs.Sinks.{WritesAll};
ghost use Rattle.abc_log.specs.Outs.{ShowsByte, end_of_line, shown_byte};

use crate::lent::Log;
use crate::line_bytes::hex;
use abc_base::Failed;
use std::marker::Model;

/// A log in which a step's bytes are shown. Contracts see it as a record: the log, whether there was a byte, and whether the log
/// failed.
#[derive(Drop)]
pub struct Shown<L> {
    log: L,
    some: bool,
    failed: bool,
}

impl<L> Model for Shown<L> {
    ghost use Rattle.abc_log.specs.OutlineViews.{ShownView};

    ghost Value = { ShownView L };

    ghost view = { λ s. record { log = s.log; some = s.some; failed = s.failed } };
}

/// Writes two pieces in a row.
#[tactic(auto, using(abc_base::proofs::Writing::writing))]
fn put_two<L: Log>(log: &mut L, a: &[u8], b: &[u8]) -> Result<(), Failed>
    ensures bytes { WritesAll (L.written log.old) (L.written log.new) result (a.now ++ b.now) }
    ensures cause { HasCause (L.faults log.old) (L.faults log.new) result }
    ensures same { L.name log.new ≡ L.name log.old }
{
    log.put(a)?;
    log.put(b)
}

/// Writes a byte of the line, behind its word where it is the first.
fn put_byte<L: Log>(log: &mut L, some: bool, byte: u8) -> Result<(), Failed>
    ensures bytes { WritesAll (L.written log.old) (L.written log.new) result (shown_byte some byte) }
    ensures cause { HasCause (L.faults log.old) (L.faults log.new) result }
    ensures same { L.name log.new ≡ L.name log.old }
{
    if some {
        log.put(&hex(byte))
    } else {
        put_two(log, b"out ", &hex(byte))
    }
}

impl<L: Log> Shown<L> {
    /// No byte yet.
    pub fn new(log: L) -> Shown<L>
        ensures { result ≡ record { log = log; some = false; failed = false } }
    {
        Shown {
            log,
            some: false,
            failed: false,
        }
    }

    /// Whether the log failed.
    pub fn failed(&self) -> bool
        ensures { result ≡ self.now.failed }
    {
        self.failed
    }

    /// One byte more.
    pub fn show(&mut self, byte: u8)
        requires { self.old.failed ≡ false }
        ensures shows { ShowsByte L.written L.faults byte self.old self.new }
        ensures same { L.name self.new.log ≡ L.name self.old.log }
    {
        self.failed = put_byte(&mut self.log, self.some, byte).is_err();
        self.some = true;
    }

    /// The line ends: where there was a byte, by a line feed. It fails where the log failed, now or before.
    pub fn end(&mut self) -> Result<(), Failed>
        ensures failed { self.old.failed ≡ true → (result ≡ Err (record {})) × (self.new ≡ self.old) }
        ensures ends { self.old.failed ≡ false
            → WritesAll (L.written self.old.log) (L.written self.new.log) result (end_of_line self.old.some) }
        ensures cause { self.old.failed ≡ false
            → HasCause (L.faults self.old.log) (L.faults self.new.log) result }
        ensures later { L.faults self.old.log ≤ L.faults self.new.log }
        ensures same { L.name self.new.log ≡ L.name self.old.log }
    {
        if self.failed {
            return Err(Failed);
        }
        if self.some {
            return self.log.put(b"\n");
        }
        Ok(())
    }

    /// The log as it stands.
    pub fn into_inner(self) -> L
        ensures { result ≡ self.log }
    {
        self.log
    }
}
