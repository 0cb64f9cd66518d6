ghost use Rattle.std.specs.Prelude.{◌≡◌, ◌≢◌, ◌<◌, ◌≤◌, ◌∷◌, ◌++◌, [], ℕ, List, Err, true, IfNone, IfOk, IfSome, length, take};
ghost use Rattle.std.specs.Io.KnownBytes.{Consumes};
ghost use Rattle.std.specs.List.{list_all};
ghost use Rattle.abc_base.specs.Faults.{Rose};
ghost use Rattle.abc_base.specs.Taking.{TakesAtMost};
ghost use Rattle.abc_heap_store.specs.declared.records.Limits.{Limits};
ghost use Rattle.abc_log.specs.Lines.{AreLimits, limits_line, limits_text};
ghost use Rattle.abc_log.specs.Limits.{HasNoLimits, HasNoLine, is_no_feed};
ghost use Rattle.abc_log.specs.declared.errors.LimitsError.{LimitsError};

use crate::errors::LimitsError;
use crate::head_bytes::read_byte;
use crate::numbers::read_numbers;
use abc_base::Source;
use abc_heap_store::Limits;

/// The greatest limit.
const GREATEST: u32 = 0x100_0000;

/// The line behind the file: the fuel and the limits of the run, and how many bytes the line has, with its line feed.
#[derive(Clone, Copy, Debug, PartialEq, Eq)]
pub struct LimitsLine {
    pub fuel: u32,
    pub limits: Limits,
    pub length: u32,
}

/// The fuel and the limits that a line says, which is given without its line feed.
fn limits_in(line: &[u8]) -> Option<(u32, Limits)>
    ensures some { IfSome result (λ x. line.now ≡ limits_text x.0 x.1) }
    ensures limits { IfSome result (λ x. AreLimits x.0 x.1) }
    ensures none { IfNone result
        ((fuel : ℕ) → (m : Limits) → AreLimits fuel m → line.now ≢ limits_text fuel m) }
{
    let rest = line.strip_prefix(b"limits")?;
    let mut numbers = [0; 6];
    if !read_numbers(rest, &mut numbers) {
        return None;
    }
    let [fuel, objects, cells, text, frames, stack] = numbers;
    if objects > GREATEST
        || cells > GREATEST
        || text > GREATEST
        || frames > GREATEST
        || stack > GREATEST
    {
        return None;
    }
    let limits = Limits {
        objects,
        cells,
        text,
        frames,
        stack,
    };
    Some((fuel, limits))
}

/// Reads a line up to its line feed, which is taken too. `Wrong` comes where there is none within so many bytes.
fn read_line<S: Source>(source: &mut S, line: &mut [u8]) -> Result<usize, LimitsError>
    ensures within { IfOk result (λ n. n < length line.new) }
    ensures line { IfOk result
        (λ n. Consumes (S.left source.old) (S.left source.new) (take n line.new ++ 10 ∷ [])) }
    ensures one { IfOk result (λ n. list_all is_no_feed (take n line.new) ≡ true) }
    ensures wrong { result ≡ Err LimitsError.Wrong
        → IfSome (S.left source.old) (HasNoLine (length line.old)) }
    ensures taken { TakesAtMost (S.left source.old) (S.left source.new) (length line.old) }
    ensures later { S.faults source.old ≤ S.faults source.new }
    ensures cause { result ≡ Err LimitsError.ReadFault → Rose (S.faults source.old) (S.faults source.new) }
    ensures same { S.name source.new ≡ S.name source.old }
{
    for at in 0..line.len() {
        match read_byte(source)? {
            Some(b'\n') => return Ok(at),
            Some(byte) => line[at] = byte,
            None => return Err(LimitsError::Wrong),
        }
    }
    Err(LimitsError::Wrong)
}

/// Reads the line behind the file. `Wrong` comes exactly where the input doesn't begin with such a line, unless a read failed before;
/// `ReadFault` only where the source's count of faults rose. Whatever is answered, at most 64 bytes are taken.
pub fn read_limits<S: Source>(source: &mut S) -> Result<LimitsLine, LimitsError>
    ensures line { IfOk result
        (λ x. Consumes (S.left source.old) (S.left source.new) (limits_line x.fuel x.limits)) }
    ensures limits { IfOk result (λ x. AreLimits x.fuel x.limits) }
    ensures long { IfOk result (λ x. x.length ≡ length (limits_line x.fuel x.limits)) }
    ensures few { IfOk result (λ x. x.length ≤ 64) }
    ensures wrong { result ≡ Err LimitsError.Wrong → IfSome (S.left source.old) HasNoLimits }
    ensures taken { TakesAtMost (S.left source.old) (S.left source.new) 64 }
    ensures later { S.faults source.old ≤ S.faults source.new }
    ensures cause { result ≡ Err LimitsError.ReadFault → Rose (S.faults source.old) (S.faults source.new) }
    ensures same { S.name source.new ≡ S.name source.old }
{
    let mut line = [0; 64];
    let count = read_line(source, &mut line)?;
    let Some((fuel, limits)) = limits_in(&line[..count]) else {
        return Err(LimitsError::Wrong);
    };
    Ok(LimitsLine {
        fuel,
        limits,
        length: count as u32 + 1,
    })
}
