ghost use Rattle.std.specs.Prelude.{◌≡◌, true, Ok};
ghost use Rattle.abc_run_state.specs.Answers.{goes_as};
ghost use Rattle.abc_run_state.specs.declared.state.Left.TheVariants.{Goes};

use crate::state::{Left, Stop};

/// Whether code goes on, which leaves nothing to be done; else why it stops is put into `left`.
#[inline(always)]
pub fn goes(done: Result<(), Stop>, left: &mut Result<Left, Stop>) -> bool
    requires none { left.old ≡ Ok Goes }
    ensures left { left.new ≡ goes_as done }
    ensures goes { result ≡ true → left.new ≡ Ok Goes }
{
    match done {
        Ok(()) => true,
        Err(stop) => {
            *left = Err(stop);
            false
        }
    }
}

/// Whether code goes on that may leave something to be done; else what it leaves, or why it stops, is put into `left`.
#[inline(always)]
pub fn leaves(done: Result<Left, Stop>, left: &mut Result<Left, Stop>) -> bool
    requires none { left.old ≡ Ok Goes }
    ensures left { left.new ≡ done }
    ensures goes { result ≡ true → left.new ≡ Ok Goes }
{
    match done {
        Ok(Left::Goes) => true,
        _ => {
            *left = done;
            false
        }
    }
}
