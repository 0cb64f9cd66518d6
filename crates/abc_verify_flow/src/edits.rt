ghost use Rattle.std.specs.Prelude.{◌≡◌, ◌+◌, ◌++◌, ◌≤◌, length, OnOk};
ghost use Rattle.abc_verify_flow.specs.Kept.{IsLonger, over};

use crate::span::Span;
use abc_base::NoMemory;

/// Adds values at the end.
pub(crate) fn add_all<T: Copy + Drop>(list: &mut Vec<T>, items: &[T]) -> Result<(), NoMemory>
    ensures longer { IsLonger list.old.items list.new.items }
    ensures ok { OnOk result (list.new.items ≡ list.old.items ++ items.now) }
{
    if items.is_empty() {
        return Ok(());
    }
    list.extend_from_slice(items)?;
    Ok(())
}

/// Puts values in place of others.
pub(crate) fn put_all<T: Copy + Drop>(list: &mut Vec<T>, span: Span, items: &[T])
    requires inside { span.first + span.count ≤ length list.old.items }
    requires counted { length items.now ≡ span.count }
    ensures { list.new.items ≡ over span list.old.items items.now }
{
    let first = span.first as usize;
    list[first..first + span.count as usize].copy_from_slice(items);
}
