ghost use Rattle.std.specs.Prelude.{◌≡◌, ◌<◌, ◌≤◌, false, true};
ghost use Rattle.abc_cli_answers.specs.declared.command.Command.{Command as AnyCommand};
ghost use Rattle.abc_cli_answers.specs.declared.command.GenOptions.{GenOptions};
ghost use Rattle.abc_cli_answers.specs.declared.command.RunOptions.{RunOptions};
ghost use Rattle.abc_cli_answers.specs.End.{Ends, GivesLine, IsRunStatus, UsesUp, stream};
ghost use Rattle.abc_cli_answers.specs.Answers.{Answer};
ghost use Rattle.abc_cli.specs.Outcome.{AsksNoInput, CommandOutcome, IsOutcome, IsUsage, TakesFor, UsageOutcome, reads_input, usage_answer};
ghost use Rattle.abc_cli.specs.Listed.{Lists};
ghost use Rattle.abc_cli.specs.Logged.{GotLog};
ghost use Rattle.abc_cli.specs.Tidied.{Tidies};
ghost use Rattle.abc_log.specs.Lines.{AreLimits};
ghost use Rattle.abc_cli.specs.Meant.{limits_of};
ghost use Rattle.abc_cli_answers.specs.Grammar.{IsWellFormed, Says};

use crate::asm::asm;
use crate::calls_command::calls;
use crate::canon::canon;
use crate::check::check;
use crate::dis::dis;
use crate::gen_command::generate;
use crate::log_command::log;
use crate::replay_command::replay;
use crate::run_command::run;
use crate::tidy::tidy;
use abc_base::{Host, Sink, Source, Status, Words};
use abc_cli_answers::{Command, Usage, ended, give, give_no_command, parse, write_usage};
use abc_disasm::listing_is_read_back;
use std::alloc::Global;

/// Does a command.
fn run_command<S: Source, K: Sink, E: Sink, H: Host>(
    alloc: Global,
    command: &Command,
    source: &mut S,
    out: &mut K,
    err: &mut E,
    host: &H,
) -> Status
    requires { (options : GenOptions) → command.now ≡ Command.Gen options → options.methods ≤ 10000 }
    ensures end { Ends (CommandOutcome (H.formulas host.now) command.now)
        (stream S.left S.faults source.old source.new) (stream K.written K.faults out.old out.new)
        (stream E.written E.faults err.old err.new) result }
    ensures used_up { reads_input command.now ≡ true
        → UsesUp (stream S.left S.faults source.old source.new) result }
    ensures unread { reads_input command.now ≡ false → source.new ≡ source.old }
    ensures taken { TakesFor command.now (S.left source.old) (S.left source.new) }
    ensures logged { (options : RunOptions) → command.now ≡ Command.Log options
        → AreLimits options.fuel (limits_of options) → IsRunStatus result
        → GotLog (H.formulas host.now) (stream K.written K.faults out.old out.new) }
{
    match command {
        Command::Canon => give(canon(alloc, source), out, err),
        Command::Dis => give(dis(alloc, source), out, err),
        Command::Check => give(check(alloc, source), out, err),
        Command::Tidy => give(tidy(alloc, source), out, err),
        Command::Asm => give(asm(alloc, source), out, err),
        Command::Run(options) => run(alloc, options, source, out, err, host),
        Command::Gen(options) => generate(alloc, options, out, err, host),
        Command::Calls(options) => calls(alloc, options, source, out, err, host),
        Command::Log(options) => log(alloc, options, source, out, err, host),
        Command::Replay => replay(alloc, source, out, err, host),
    }
}

/// Writes the line of words outside the grammar.
#[tactic(auto, using(abc_cli_answers::proofs::Ending::gives))]
fn give_usage<E: Sink>(words: &Words, usage: Usage, err: &mut E) -> Status
    requires { IsUsage words.now usage }
    ensures { GivesLine (stream E.written E.faults err.old err.new) (usage_answer words.now usage) result }
{
    match usage {
        Usage::NoCommand => give_no_command(err),
        Usage::Word(i) => {
            let written = write_usage(err, words.word(i));
            ended(written, Status::Usage)
        }
    }
}

/// The top call: does what the words say with the input of `source`, writes the output to `out` and a line for each
/// status but 0 to `err`, and answers the status. `host` has the formulas that programs may call.
pub fn abc_main<S: Source, K: Sink, E: Sink, H: Host>(
    alloc: Global,
    words: &Words,
    source: &mut S,
    out: &mut K,
    err: &mut E,
    host: &H,
) -> Status
    // The run ends with the defined outcome, or with a fault that has its cause.
    ensures end { Ends (IsOutcome words.now (H.formulas host.now))
        (stream S.left S.faults source.old source.new) (stream K.written K.faults out.old out.new)
        (stream E.written E.faults err.old err.new) result }
    // Where the words ask for the input, nothing of it is left on status 0 and where a run ended.
    ensures used_up { ¬ AsksNoInput words.now → UsesUp (stream S.left S.faults source.old source.new) result }
    // Nothing is read where the words ask for nothing of the input.
    ensures unread { AsksNoInput words.now → source.new ≡ source.old }
    // Whatever is answered, no more of the input is taken than shows that a file, or a text, is too long.
    ensures taken { (c : AnyCommand) → Says words.now c → TakesFor c (S.left source.old) (S.left source.new) }
    // Words outside the grammar are answered by their line, whatever the input is, and other words never are.
    ensures usage { (a : Answer) → UsageOutcome words.now a
        → GivesLine (stream E.written E.faults err.old err.new) a result }
    ensures untouched { (a : Answer) → UsageOutcome words.now a → out.new ≡ out.old }
    ensures well_formed { IsWellFormed words.now → result ≡ Status.Usage → ⊥ }
    // What `dis` writes is a text of the file that was read, and of no other; unless it is too long, `asm` of it gives the canonical bytes.
    ensures listed { Says words.now Command.Dis → result ≡ Status.Done
        → Lists (stream S.left S.faults source.old source.new) (stream K.written K.faults out.old out.new) }
    // What `tidy` writes spells a file of the same free form, and `tidy` of it gives the same bytes.
    ensures tidied { Says words.now Command.Tidy → result ≡ Status.Done
        → Tidies (stream S.left S.faults source.old source.new) (stream K.written K.faults out.old out.new) }
    // What `log` writes where a run ended is a log: with a host of the same formulas, `replay` accepts it.
    ensures logged { (options : RunOptions) → Says words.now (Command.Log options) → IsRunStatus result
        → GotLog (H.formulas host.now) (stream K.written K.faults out.old out.new) }
    // Memory is wanted for well-formed words alone.
    ensures memory { result ≡ Status.NoMemory → IsWellFormed words.now }
{
    listing_is_read_back();
    match parse(words) {
        Ok(command) => run_command(alloc, &command, source, out, err, host),
        Err(usage) => give_usage(words, usage, err),
    }
}
