ghost use Rattle.std.specs.Prelude.{◌≡◌, ◌<◌, ◌^◌};
ghost use Rattle.abc_cli.specs.Meant.{limits_of as limits_in};
ghost use Rattle.abc_meaning.specs.ThrowLaws.{AreCounted, IsVerifiedSetting};
ghost use Rattle.abc_meaning.specs.Meaning.{meaning};
ghost use Rattle.abc_meaning.specs.Openings.{setting};
ghost use Rattle.abc_meaning.specs.Told.{CanBeTold};

use abc_base::Host;
use abc_cli_answers::RunOptions;
use abc_heap_store::Limits;
use abc_machine::Machine;
use abc_meaning_sound::ends_can_be_told;
use abc_session::Session;
use abc_verify::Verified;
use std::mem::forget;

/// A limit of cells, which 32 bits count.
fn counted(cells: u32) -> u32
    ensures is { result ≡ cells }
    ensures low { result < 2 ^ 32 }
{
    cells
}

/// The limits of a run.
pub fn limits_of(options: &RunOptions) -> Limits
    ensures is { result ≡ limits_in options.now }
    ensures counted { AreCounted result }
{
    Limits {
        objects: options.objects,
        cells: counted(options.cells),
        text: options.text,
        frames: options.frames,
        stack: options.stack,
    }
}

/// How a run of this machine ends can be told.
#[tactic(none)]
pub fn end_can_be_told<H: Host>(machine: &Machine, fuel: u32, host: &H)
    requires verified { IsVerifiedSetting (setting (machine.now).linked (H.formulas host.now)) }
    requires counted { AreCounted (machine.now).limits }
    ensures { CanBeTold (machine.now).linked.file
        (meaning (setting (machine.now).linked (H.formulas host.now)) (machine.now).limits fuel) }
{
    ends_can_be_told();
}

/// Lets a machine go. Little is done once a run has ended, and the lists in a machine are many: to free each of them would only take time.
pub fn close_machine(machine: Machine) {
    forget(machine);
}

/// Lets a session go, as `close_machine` does.
pub fn close_session(session: Session) {
    forget(session);
}

/// Lets a verified file go, as `close_machine` does.
pub fn close_file(verified: Verified) {
    forget(verified);
}
