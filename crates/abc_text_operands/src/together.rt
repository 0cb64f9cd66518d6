ghost use Rattle.std.specs.Prelude.{◌≡◌};
ghost use Rattle.abc_text_operands.specs.Joined.{earlier_reason as earlier_of, both_or_reason};

use abc_text_lines::AsmReason;

/// Two values, or the first reason of those that either of them has.
pub fn two<A: Copy, B: Copy>(
    first: Result<A, AsmReason>,
    second: Result<B, AsmReason>,
) -> Result<(A, B), AsmReason>
    ensures { result ≡ both_or_reason first second }
{
    match first {
        Ok(a) => match second {
            Ok(b) => Ok((a, b)),
            Err(reason) => Err(reason),
        },
        Err(reason) => Err(earlier(reason, second)),
    }
}

/// The first of a reason and of that which a value has, if it has one.
pub fn earlier<B: Copy>(reason: AsmReason, other: Result<B, AsmReason>) -> AsmReason
    ensures { result ≡ earlier_of reason other }
{
    match other {
        Ok(_) => reason,
        Err(second) => {
            if reason.rank() <= second.rank() {
                reason
            } else {
                second
            }
        }
    }
}
