ghost use Rattle.std.specs.Prelude.{◌≡◌, ◌<◌, ◌^◌, if◌then◌else◌, None, Some, is_none, ◌&&◌, nat_le};
ghost use Rattle.std.specs.Bool.{OnTrue, OnFalse};

use crate::command::{CallsOptions, GenOptions, RunOptions};

/// The options of a command that were given so far.
pub trait Given {
    ghost use Rattle.std.specs.Prelude.{List, ℕ, Option};

    /// The options once one of them is given a number, if that may be.
    ghost with: { Self → List ℕ → ℕ → Option Self };

    /// Gives an option its number. It is refused where there is no option of that name, where it has its number
    /// already, and where the number is outside its range.
    fn give(&mut self, name: &[u8], number: u64) -> bool
        ensures given { OnTrue result (with self.old name.now number ≡ Some self.new) }
        ensures refused { OnFalse result (with self.old name.now number ≡ None) };
}

/// The options of a command that has none.
#[derive(Clone, Copy, Debug)]
pub struct GivenNone;

impl Given for GivenNone {
    ghost use Rattle.abc_cli_answers.specs.Reading.{none_with};

    ghost with = { none_with };

    fn give(&mut self, _name: &[u8], _number: u64) -> bool {
        false
    }
}

/// The options of a run.
#[derive(Clone, Copy, Debug)]
pub struct GivenRun {
    pub fuel: Option<u32>,
    pub objects: Option<u32>,
    pub cells: Option<u32>,
    pub text: Option<u32>,
    pub frames: Option<u32>,
    pub stack: Option<u32>,
}

impl GivenRun {
    ghost use Rattle.abc_cli_answers.specs.Reading.{run_options_of, run_start};

    /// No option is given yet.
    pub fn new() -> GivenRun
        ensures { result ≡ run_start }
    {
        GivenRun {
            fuel: None,
            objects: None,
            cells: None,
            text: None,
            frames: None,
            stack: None,
        }
    }

    /// The numbers that were given, and the defaults.
    pub fn options(&self) -> RunOptions
        ensures { result ≡ run_options_of self.now }
    {
        RunOptions {
            fuel: self.fuel.unwrap_or(10000000),
            objects: self.objects.unwrap_or(100000),
            cells: self.cells.unwrap_or(1000000),
            text: self.text.unwrap_or(4000000),
            frames: self.frames.unwrap_or(1000),
            stack: self.stack.unwrap_or(100000),
        }
    }
}

impl Given for GivenRun {
    ghost use Rattle.abc_cli_answers.specs.Reading.{run_with};

    ghost with = { run_with };

    fn give(&mut self, name: &[u8], number: u64) -> bool {
        match name {
            b"fuel" => fill(&mut self.fuel, number, 0, 4294967295),
            b"objects" => fill(&mut self.objects, number, 0, 16777216),
            b"cells" => fill(&mut self.cells, number, 0, 16777216),
            b"text" => fill(&mut self.text, number, 0, 16777216),
            b"frames" => fill(&mut self.frames, number, 0, 16777216),
            b"stack" => fill(&mut self.stack, number, 0, 16777216),
            _ => false,
        }
    }
}

/// The options of a generated file.
#[derive(Clone, Copy, Debug)]
pub struct GivenGen {
    pub seed: Option<u32>,
    pub methods: Option<u32>,
}

impl GivenGen {
    ghost use Rattle.abc_cli_answers.specs.Reading.{gen_options_of, gen_start};

    /// No option is given yet.
    pub fn new() -> GivenGen
        ensures { result ≡ gen_start }
    {
        GivenGen {
            seed: None,
            methods: None,
        }
    }

    /// The numbers that were given, and the defaults.
    pub fn options(&self) -> GenOptions
        ensures { result ≡ gen_options_of self.now }
    {
        GenOptions {
            seed: self.seed.unwrap_or(1),
            methods: self.methods.unwrap_or(100),
        }
    }
}

impl Given for GivenGen {
    ghost use Rattle.abc_cli_answers.specs.Reading.{gen_with};

    ghost with = { gen_with };

    fn give(&mut self, name: &[u8], number: u64) -> bool {
        match name {
            b"seed" => fill(&mut self.seed, number, 0, 4294967295),
            b"methods" => fill(&mut self.methods, number, 1, 10000),
            _ => false,
        }
    }
}

/// The options of calls.
#[derive(Clone, Copy, Debug)]
pub struct GivenCalls {
    pub run: GivenRun,
    pub times: Option<u32>,
}

impl GivenCalls {
    ghost use Rattle.abc_cli_answers.specs.Reading.{calls_options_of, calls_start};

    /// No option is given yet.
    pub fn new() -> GivenCalls
        ensures { result ≡ calls_start }
    {
        GivenCalls {
            run: GivenRun::new(),
            times: None,
        }
    }

    /// The numbers that were given, and the defaults.
    pub fn options(&self) -> CallsOptions
        ensures { result ≡ calls_options_of self.now }
    {
        CallsOptions {
            run: self.run.options(),
            times: self.times.unwrap_or(1),
        }
    }
}

impl Given for GivenCalls {
    ghost use Rattle.abc_cli_answers.specs.Reading.{calls_with};

    ghost with = { calls_with };

    fn give(&mut self, name: &[u8], number: u64) -> bool {
        match name {
            b"times" => fill(&mut self.times, number, 0, 10000),
            _ => self.run.give(name, number),
        }
    }
}

/// Gives an option its number, if it has none yet and the number is in its range.
fn fill(option: &mut Option<u32>, number: u64, least: u64, greatest: u64) -> bool
    requires { greatest < 2 ^ 32 }
    ensures taken { result ≡ (is_none option.old && (nat_le least number && nat_le number greatest)) }
    ensures after { option.new ≡ (if result then Some number else option.old) }
{
    if option.is_some() || number < least || greatest < number {
        return false;
    }
    *option = Some(number as u32);
    true
}
