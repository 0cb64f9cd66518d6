//! Lines that have a fault besides those of their operands.
ghost use Rattle.std.specs.Prelude.{◌≡◌};
ghost use Rattle.abc_text_lines.specs.File.{where_set as number_where};
ghost use Rattle.abc_asm.specs.Counted.{fault_unless as faulty_unless, with_fault as faulty};

use abc_text_lines::AsmReason;
use abc_text_operands::two;

/// The number where something is set, and otherwise 0.
pub fn where_set(set: bool, number: u32) -> u32
    ensures { result ≡ number_where set number }
{
    if set { number } else { 0 }
}

/// A fault where something is not fine.
fn fault_unless(fine: bool, reason: AsmReason) -> Result<(), AsmReason>
    ensures { result ≡ faulty_unless fine reason }
{
    if fine { Ok(()) } else { Err(reason) }
}

/// A line's value, or the first of its faults, of which the reason is one where something is not fine.
pub fn with_fault<H: Copy + Drop>(
    head: Result<H, AsmReason>,
    fine: bool,
    reason: AsmReason,
) -> Result<H, AsmReason>
    ensures { result ≡ faulty head fine reason }
{
    match two(head, fault_unless(fine, reason)) {
        Ok(both) => Ok(both.0),
        Err(first) => Err(first),
    }
}
