ghost use Rattle.std.specs.Prelude.{◌≡◌, ◌+◌, ◌≤◌, length, IfOk};
ghost use Rattle.abc_verify_flow.specs.Kept.{IsSpan, part};

use abc_base::NoMemory;

/// Where some values lie in a list.
#[derive(Clone, Copy, Debug)]
pub(crate) struct Span {
    pub first: u32,
    pub count: u32,
}

/// Where so many values lie behind all others of a list. Where there are too many, memory is said to have run out.
#[inline]
pub(crate) fn span_behind(first: usize, count: usize) -> Result<Span, NoMemory>
    ensures { IfOk result (IsSpan first count) }
{
    if first > u32::MAX as usize || count > u32::MAX as usize {
        return Err(NoMemory);
    }
    Ok(Span {
        first: first as u32,
        count: count as u32,
    })
}

/// Some values of a list.
#[inline]
pub(crate) fn part<T>(list: &[T], span: Span) -> &[T]
    requires { span.first + span.count ≤ length list.now }
    ensures { result.now ≡ part span list.now }
{
    let first = span.first as usize;
    &list[first..first + span.count as usize]
}
