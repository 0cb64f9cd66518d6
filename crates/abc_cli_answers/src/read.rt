ghost use Rattle.std.specs.Prelude.{◌≡◌, ◌<◌, ◌↔◌, ℕ, [], length, drop, Ok, Err, Some, None};
ghost use Rattle.std.specs.Bool.{OnTrue, OnFalse};
ghost use Rattle.abc_cli_answers.specs.declared.command.Command.{Command};
ghost use Rattle.abc_cli_answers.specs.Grammar.{Says, IsUsageWord};
ghost use Rattle.abc_cli_answers.specs.Reading.{command_of, after_word, after_words, plain_command};

use crate::command::{Command, Usage};
use crate::given::{Given, GivenCalls, GivenGen, GivenNone, GivenRun};
use crate::option_word::read_option_word;
use abc_base::Words;

/// The command that the words say. It takes no memory.
pub fn parse(words: &Words) -> Result<Command, Usage>
    ensures command { (c : Command) → (result ≡ Ok c) ↔ Says words.now c }
    ensures none { (result ≡ Err Usage.NoCommand) ↔ (words.now ≡ []) }
    ensures word { (i : ℕ) → (result ≡ Err (Usage.Word i)) ↔ IsUsageWord words.now i }
{
    read_command(words)
}

/// Reads the command's word, and then the options of that command.
fn read_command(words: &Words) -> Result<Command, Usage>
    ensures { result ≡ command_of words.now }
{
    if words.len() == 0 {
        return Err(Usage::NoCommand);
    }
    match words.word(0) {
        b"canon" => read_plain(words, Command::Canon),
        b"dis" => read_plain(words, Command::Dis),
        b"asm" => read_plain(words, Command::Asm),
        b"check" => read_plain(words, Command::Check),
        b"tidy" => read_plain(words, Command::Tidy),
        b"replay" => read_plain(words, Command::Replay),
        b"run" => {
            let given = read_options(words, GivenRun::new())?;
            Ok(Command::Run(given.options()))
        }
        b"log" => {
            let given = read_options(words, GivenRun::new())?;
            Ok(Command::Log(given.options()))
        }
        b"gen" => {
            let given = read_options(words, GivenGen::new())?;
            Ok(Command::Gen(given.options()))
        }
        b"calls" => {
            let given = read_options(words, GivenCalls::new())?;
            Ok(Command::Calls(given.options()))
        }
        _ => Err(Usage::Word(0)),
    }
}

/// A command that has no options.
fn read_plain(words: &Words, command: Command) -> Result<Command, Usage>
    requires { 0 < length words.now }
    ensures { result ≡ plain_command command (drop 1 words.now) }
{
    read_options(words, GivenNone)?;
    Ok(command)
}

/// Reads the words after the first, each of which is to give an option its number.
fn read_options<G: Given + Copy>(words: &Words, start: G) -> Result<G, Usage>
    requires { 0 < length words.now }
    ensures { result ≡ after_words G.with start 1 (drop 1 words.now) }
{
    let mut given = start;
    for i in 1..words.len() {
        if !take_word(&mut given, words.word(i)) {
            return Err(Usage::Word(i));
        }
    }
    Ok(given)
}

/// Reads one word, which is to give an option its number. False where it does not.
fn take_word<G: Given>(given: &mut G, word: &[u8]) -> bool
    ensures taken { OnTrue result (after_word G.with given.old word.now ≡ Some given.new) }
    ensures refused { OnFalse result (after_word G.with given.old word.now ≡ None) }
{
    match read_option_word(word) {
        Some(found) => given.give(found.name, found.number),
        None => false,
    }
}
