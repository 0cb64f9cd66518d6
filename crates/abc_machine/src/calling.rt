ghost use Rattle.std.specs.Prelude.{◌≡◌, ◌≢◌, List, []};
ghost use Rattle.abc_base.specs.Hosts.{plain_arguments};
ghost use Rattle.abc_base.specs.declared.formula.Formula.{Formula};
ghost use Rattle.abc_meaning.specs.Calls.{call_meaning};
ghost use Rattle.abc_machine.specs.Calling.{CanCall};
ghost use Rattle.abc_machine.specs.Machines.{kept_world};
ghost use Rattle.abc_machine.specs.Replied.{HasReplied, RepliesAs, is_write_fault as is_fault};
ghost use Rattle.abc_machine.specs.Runs.{LeavesWorld};
ghost use Rattle.abc_machine.specs.Texts.{TextsGrow};
ghost use Rattle.abc_machine.specs.declared.replies.Reply.TheVariants.{WriteFault};
ghost use Rattle.abc_meaning.specs.Openings.{setting};

use crate::replies::Reply;
use crate::running::{reply_for, take_steps};
use abc_base::{Host, Plain, Sink};
use abc_link::Linked;
use abc_run_finish::{Halt, begin_call};
use abc_run_state::State;

/// Whether a call ended because the sink failed.
pub(crate) fn is_write_fault(reply: &Reply) -> bool
    ensures { result ≡ is_fault reply.now }
{
    match reply {
        Reply::WriteFault => true,
        Reply::Value(_)
        | Reply::Uncaught(_)
        | Reply::Profile { .. }
        | Reply::FuelSpent
        | Reply::Full(_) => false,
    }
}

/// Enters a method with numbers, over no frame, and takes steps, at most `fuel`, until its frame has returned or the call ends
/// otherwise. To enter it is no step.
pub(crate) fn call_for<K: Sink, H: Host>(
    linked: &Linked,
    s: &mut State,
    method: u32,
    args: &Plain,
    fuel: u32,
    sink: &mut K,
    host: &H,
) -> Reply
    ghost formulas: { List Formula }
    requires can { CanCall linked.now (record { formulas = formulas; wrote = [] }) method s.old }
    requires host { formulas ≡ H.formulas host.now }
    ensures replies { RepliesAs
        (call_meaning (setting linked.now formulas) fuel (kept_world s.old) method (plain_arguments args.now))
        (K.written sink.old) (K.written sink.new) result }
    ensures cause { HasReplied (K.faults sink.old) (K.faults sink.new) result }
    ensures leaves { result ≢ WriteFault
        → LeavesWorld (setting linked.now formulas) (call_meaning (setting linked.now formulas) fuel
        (kept_world s.old) method (plain_arguments args.now)).world s.new }
    ensures limit { s.new.given.limit ≡ s.old.given.limit }
    ensures texts { TextsGrow s.old.arena s.new.arena }
{
    let mut left = fuel;
    match begin_call(linked, s, method, args) {
        Ok(()) => take_steps(linked, s, &mut left, sink, host),
        Err(ended) => reply_for(Halt::Ends(ended)),
    }
}
