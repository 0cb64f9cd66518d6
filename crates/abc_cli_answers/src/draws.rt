ghost use Rattle.std.specs.Prelude.{◌≡◌};
ghost use Rattle.abc_cli_answers.specs.Draws.{drawn_number, next_of};

/// A source of numbers that are the same for the same seed.
#[derive(Clone, Copy, Debug, PartialEq, Eq)]
pub(crate) struct Draws {
    pub(crate) number: u32,
}

impl Draws {
    /// The next number, below 65,536.
    pub(crate) fn draw(&mut self) -> u32
        ensures number { self.new.number ≡ next_of self.old.number }
        ensures given { result ≡ drawn_number self.new.number }
    {
        let next = (u64::from(self.number) * 1_664_525 + 1_013_904_223) % (1 << 32);
        self.number = next as u32;
        self.number / 65_536
    }
}
