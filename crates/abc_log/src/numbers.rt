ghost use Rattle.std.specs.Prelude.{◌≡◌, ◌≢◌, ◌<◌, ◌^◌, ◌++◌, ℕ, List, EachIndex, IfNone, IfSome, length, slice_index, decimal};
ghost use Rattle.std.specs.Bool.{OnFalse, OnTrue};
ghost use Rattle.std.specs.List.{flat_map, take_while};
ghost use Rattle.abc_log.specs.Lines.{next_number};
ghost use Rattle.abc_log.specs.Limits.{EndsAll, is_limit_digit};

use itoa::Buffer;
use std::str;

/// The number that bytes spell in its fewest digits.
fn number_of(digits: &[u8]) -> Option<u32>
    ensures some { IfSome result (λ n. digits.now ≡ decimal n) }
    ensures small { IfSome result (λ n. n < 2 ^ 32) }
    ensures none { IfNone result ((n : ℕ) → n < 2 ^ 32 → digits.now ≢ decimal n) }
{
    let Ok(text) = str::from_utf8(digits) else {
        return None;
    };
    let Ok(number) = text.parse::<u32>() else {
        return None;
    };
    let mut buffer = Buffer::new();
    if buffer.format(number).as_bytes() == digits {
        Some(number)
    } else {
        None
    }
}

/// How many digits are at the front.
fn digit_count(bytes: &[u8]) -> usize
    ensures { result ≡ length (take_while is_limit_digit bytes.now) }
{
    bytes
        .iter()
        .take_while(|byte| **byte >= b'0' && **byte <= b'9')
        .count()
}

/// The number at the front behind a space, and what follows it.
fn next(bytes: &[u8]) -> Option<(u32, &[u8])>
    ensures some { IfSome result (λ x. bytes.now ≡ next_number x.0 ++ x.1.now) }
    ensures small { IfSome result (λ x. x.0 < 2 ^ 32) }
    ensures ends { IfSome result (λ x. EndsAll is_limit_digit x.1.now) }
    ensures none { IfNone result ((n : ℕ) → (more : List ℕ) → n < 2 ^ 32 → EndsAll is_limit_digit more
        → bytes.now ≢ next_number n ++ more) }
{
    let rest = bytes.strip_prefix(b" ")?;
    let count = digit_count(rest);
    let number = number_of(&rest[..count])?;
    Some((number, &rest[count..]))
}

/// Reads as many numbers as there is room for, each behind a space, and nothing more. False where the bytes are none such.
pub(crate) fn read_numbers(bytes: &[u8], numbers: &mut [u32]) -> bool
    ensures all { OnTrue result (bytes.now ≡ flat_map next_number numbers.new) }
    ensures small { OnTrue result (EachIndex numbers.new (λ k. slice_index numbers.new k < 2 ^ 32)) }
    ensures none { OnFalse result ((ns : List ℕ) → length ns ≡ length numbers.old
        → EachIndex ns (λ k. slice_index ns k < 2 ^ 32) → bytes.now ≢ flat_map next_number ns) }
{
    let mut rest = bytes;
    for number in numbers.iter_mut() {
        match next(rest) {
            Some((found, more)) => {
                *number = found;
                rest = more;
            }
            None => return false,
        }
    }
    rest.is_empty()
}
