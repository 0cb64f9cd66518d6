ghost use Rattle.std.specs.Prelude.{◌≡◌, ◌≤◌, ◌⊎◌, None};
ghost use Rattle.std.specs.Io.KnownBytes.{Keeps};
ghost use Rattle.abc_base.specs.Faults.{Rose};
ghost use Rattle.abc_cli.specs.LoggedRuns.{EndsBlocks};
ghost use Rattle.abc_log_blocks.specs.BlockSinks.{sink_faults, waiting_of, written_of};
ghost use Rattle.abc_machine.specs.Ended.{HasRun};
ghost use Rattle.abc_machine.specs.Logged.{LogsRun};
ghost use Rattle.abc_meaning.specs.Logs.{log as log_of_run};
ghost use Rattle.abc_meaning.specs.Meaning.{meaning};
ghost use Rattle.abc_objects.specs.Opening.{formula_names};
ghost use Rattle.abc_meaning.specs.Openings.{setting};

use abc_base::{Failed, Host, Sink};
use abc_log_blocks::{BlockSink, SinkLoan};
use abc_machine::{End, Machine};
use std::marker::Brand;

/// Hands on what waits of the log of a run that ended so, unless writing failed before: how it ends then.
fn hand_on_last<'a, K: Sink, N: SinkLoan>(blocks: &mut BlockSink<'a, K, N>, end: End) -> End
    ensures bytes { Keeps (written_of blocks.old) (written_of blocks.new) }
    ensures ends { EndsBlocks end result (waiting_of blocks.new) }
    ensures later { sink_faults blocks.old ≤ sink_faults blocks.new }
    ensures cause { result ≡ End.WriteFault
        → (end ≡ End.WriteFault) ⊎ Rose (sink_faults blocks.old) (sink_faults blocks.new) }
{
    match end {
        End::WriteFault => End::WriteFault,
        _ => match blocks.hand_on() {
            Ok(()) => end,
            Err(Failed) => End::WriteFault,
        },
    }
}

/// Runs an opened machine, and hands its log on by blocks to a sink that is lent and given back.
fn run_lent<'a, K: Sink, H: Host, N: SinkLoan>(
    machine: &mut Machine,
    fuel: u32,
    out: &'a mut K,
    host: &H,
) -> (&'a mut K, End)
    requires begun { machine.old.ended ≡ None }
    requires names { formula_names (H.formulas host.now) ≡ machine.old.names }
    requires name { out.ghost_name ≡ N.name }
    requires before { K.written out.old ≡ N.before }
    ensures logs { LogsRun
        (log_of_run (setting machine.old.linked (H.formulas host.now)) machine.old.limits fuel)
        (meaning (setting machine.old.linked (H.formulas host.now)) machine.old.limits fuel)
        (K.written out.old) (K.written result.0.now) result.1 }
    ensures cause { HasRun (K.faults out.old) (K.faults result.0.now) result.1 }
    ensures linked { machine.new.linked ≡ machine.old.linked }
    ensures same { result.0.ghost_name ≡ out.entry.ghost_name }
{
    let mut blocks = BlockSink::<K, N>::new(out);
    let end = machine.run_logged(fuel, &mut blocks, host);
    let last = hand_on_last(&mut blocks, end);
    (blocks.into_inner(), last)
}

/// Runs an opened machine, and hands its log on by blocks of 4,096 bytes, the last as the run ends. It answers how the run ended, or
/// `WriteFault` after a front of the log, only where the sink's count of faults rose. It takes no memory.
pub(crate) fn run_in_blocks<K: Sink, H: Host>(
    machine: &mut Machine,
    fuel: u32,
    out: &mut K,
    host: &H,
) -> End
    requires begun { machine.old.ended ≡ None }
    requires names { formula_names (H.formulas host.now) ≡ machine.old.names }
    ensures logs { LogsRun
        (log_of_run (setting machine.old.linked (H.formulas host.now)) machine.old.limits fuel)
        (meaning (setting machine.old.linked (H.formulas host.now)) machine.old.limits fuel)
        (K.written out.old) (K.written out.new) result }
    ensures cause { HasRun (K.faults out.old) (K.faults out.new) result }
    ensures linked { machine.new.linked ≡ machine.old.linked }
{
    let lent = run_lent::<K, H, Brand>(machine, fuel, out, host);
    lent.1
}
