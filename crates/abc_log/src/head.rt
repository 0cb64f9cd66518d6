ghost use Rattle.std.specs.Prelude.{◌≡◌, ◌<◌, ◌≤◌, ◌∷◌, [], Err, false, IfErr, IfNone, IfOk, IfSome};
ghost use Rattle.std.specs.Io.KnownBytes.{Consumes};
ghost use Rattle.abc_base.specs.Faults.{Rose};
ghost use Rattle.abc_base.specs.Taking.{TakesAtMost};
ghost use Rattle.abc_base.specs.Escapes.{hex_digit};
ghost use Rattle.abc_log.specs.Lines.{head_line};
ghost use Rattle.abc_log.specs.Heads.{IsHeadStop, is_lower_hex};
ghost use Rattle.abc_log.specs.declared.errors.HeadError.{HeadError};

use crate::errors::HeadError;
use crate::head_bytes::read_byte;
use abc_base::Source;

/// The value of a digit to the base of sixteen, in lower case.
fn digit_value(byte: u8) -> Option<u8>
    ensures value { IfSome result (λ d. (d < 16) × (byte ≡ hex_digit d)) }
    ensures none { IfNone result (is_lower_hex byte ≡ false) }
{
    match byte {
        b'0'..=b'9' => Some(byte - b'0'),
        b'a'..=b'f' => Some(byte - b'a' + 10),
        _ => None,
    }
}

/// The digit at this place of the line.
fn read_digit<S: Source>(source: &mut S, place: u32) -> Result<u8, HeadError>
    requires { place < 8 }
    ensures digit { IfOk result
        (λ d. (d < 16) × Consumes (S.left source.old) (S.left source.new) (hex_digit d ∷ [])) }
    ensures stops { IfErr result (λ e. IsHeadStop place (S.left source.old) e) }
    ensures taken { TakesAtMost (S.left source.old) (S.left source.new) 1 }
    ensures later { S.faults source.old ≤ S.faults source.new }
    ensures cause { result ≡ Err HeadError.ReadFault → Rose (S.faults source.old) (S.faults source.new) }
    ensures same { S.name source.new ≡ S.name source.old }
{
    let Some(byte) = read_byte(source)? else {
        return Err(HeadError::Wrong(place));
    };
    match digit_value(byte) {
        Some(digit) => Ok(digit),
        None => Err(HeadError::Wrong(place)),
    }
}

/// The end of the line.
fn read_feed<S: Source>(source: &mut S) -> Result<(), HeadError>
    ensures feed { IfOk result (λ _. Consumes (S.left source.old) (S.left source.new) (10 ∷ [])) }
    ensures stops { IfErr result (λ e. IsHeadStop 8 (S.left source.old) e) }
    ensures taken { TakesAtMost (S.left source.old) (S.left source.new) 1 }
    ensures later { S.faults source.old ≤ S.faults source.new }
    ensures cause { result ≡ Err HeadError.ReadFault → Rose (S.faults source.old) (S.faults source.new) }
    ensures same { S.name source.new ≡ S.name source.old }
{
    let Some(byte) = read_byte(source)? else {
        return Err(HeadError::Wrong(8));
    };
    if byte != b'\n' {
        return Err(HeadError::Wrong(8));
    }
    Ok(())
}

/// Reads the line before the file: the length of that. `Wrong` comes exactly where the input doesn't begin with such a line, at the
/// first byte that is wrong or missing, unless a read failed before; `ReadFault` only where the source's count of faults rose. Whatever
/// is answered, at most nine bytes are taken.
pub fn read_head<S: Source>(source: &mut S) -> Result<u32, HeadError>
    ensures head { IfOk result (λ n. Consumes (S.left source.old) (S.left source.new) (head_line n)) }
    ensures stops { IfErr result (λ e. IsHeadStop 0 (S.left source.old) e) }
    ensures taken { TakesAtMost (S.left source.old) (S.left source.new) 9 }
    ensures later { S.faults source.old ≤ S.faults source.new }
    ensures cause { result ≡ Err HeadError.ReadFault → Rose (S.faults source.old) (S.faults source.new) }
    ensures same { S.name source.new ≡ S.name source.old }
{
    let mut length = 0;
    for place in 0..8 {
        let digit = read_digit(source, place)?;
        length = length * 16 + u32::from(digit);
    }
    read_feed(source)?;
    Ok(length)
}
