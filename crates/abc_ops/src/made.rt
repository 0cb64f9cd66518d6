ghost use Rattle.std.specs.Prelude.{◌≡◌, ◌++◌, IfOk};
ghost use Rattle.std.specs.Fmt.{signed_decimal};
ghost use Rattle.abc_base.specs.Ranges.{IsNumber};
ghost use Rattle.abc_heap_store.specs.Texts.{IsText, text_of};
ghost use Rattle.abc_objects.specs.Growing.{Grows};
ghost use Rattle.abc_objects.specs.Stands.{StandsOver};
ghost use Rattle.abc_ops.specs.Left.{LeavesHeap, text_made};

use crate::end::OpEnd;
use abc_heap_values::Span;
use abc_link::Linked;
use abc_objects::Arena;

/// Makes the text of a number.
pub fn make_number(a: &mut Arena, n: i64) -> Result<Span, OpEnd>
    requires { IsNumber n }
    ensures { LeavesHeap (text_made a.old (signed_decimal n)) result a.new }
{
    match a.text_of_number(n) {
        Ok(s) => Ok(s),
        Err(full) => Err(OpEnd::Full(full.0)),
    }
}

fn make_joined_as(l: &Linked, a: &mut Arena, s: Span, t: Span) -> Result<Span, OpEnd>
    requires over { StandsOver l.now a.old }
    requires left { IsText l.now.file.strings a.old s }
    requires right { IsText l.now.file.strings a.old t }
    ensures { LeavesHeap
        (text_made a.old (text_of l.now.file.strings a.old s ++ text_of l.now.file.strings a.old t)) result
        a.new }
{
    match a.text_join(l, s, t) {
        Ok(s) => Ok(s),
        Err(full) => Err(OpEnd::Full(full.0)),
    }
}

/// Makes the text of two, one after the other.
pub fn make_joined(l: &Linked, a: &mut Arena, s: Span, t: Span) -> Result<Span, OpEnd>
    requires over { StandsOver l.now a.old }
    requires left { IsText l.now.file.strings a.old s }
    requires right { IsText l.now.file.strings a.old t }
    ensures left { LeavesHeap
        (text_made a.old (text_of l.now.file.strings a.old s ++ text_of l.now.file.strings a.old t)) result
        a.new }
    ensures over { StandsOver l.now a.new }
    ensures grows { Grows a.old a.new }
    ensures there { IfOk result (IsText l.now.file.strings a.new) }
{
    make_joined_as(l, a, s, t)
}
