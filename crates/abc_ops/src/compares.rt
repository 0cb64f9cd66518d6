ghost use Rattle.std.specs.Prelude.{◌≡◌};
ghost use Rattle.abc_objects.specs.Stands.{StandsOver};
ghost use Rattle.abc_objects.specs.Values.{Exists};
ghost use Rattle.abc_ops.specs.Compares.{comparison_result, compared_as, or_fault as or_fault_of};

use crate::end::OpEnd;
use crate::opcodes::{Comparison, comparison_at};
use abc_base::Fault;
use abc_heap_values::{Span, Texts, Value, are_ordered, equal, strictly_equal};
use abc_link::Linked;
use abc_objects::Arena;

/// The texts of an arena over a linked file, and its namespaces.
#[derive(Clone, Copy)]
struct Reading<'a> {
    l: &'a Linked,
    arena: &'a Arena,
}

impl Texts for Reading<'_> {
    ghost use Rattle.abc_heap_store.specs.Texts.{IsText, text_of};
    ghost use Rattle.abc_link_names.specs.Pool.{same_space};

    ghost has = { λ r s. IsText r.l.now.file.strings r.arena.now s };

    ghost text = { λ r. text_of r.l.now.file.strings r.arena.now };

    ghost same = { λ r. same_space r.l.now.file };

    fn bytes(&self, s: Span) -> &[u8] {
        self.arena.text_bytes(self.l, s)
    }

    fn is_same_space(&self, a: u32, b: u32) -> bool {
        self.l.is_same_space(a, b)
    }
}

fn or_fault(outcome: Result<bool, Fault>) -> Result<bool, OpEnd>
    ensures { result ≡ or_fault_of outcome }
{
    match outcome {
        Ok(truth) => Ok(truth),
        Err(fault) => Err(OpEnd::Profile(fault)),
    }
}

#[inline(always)]
fn compare_as(l: &Linked, a: &Arena, how: Comparison, x: Value, y: Value) -> Result<bool, OpEnd>
    requires left { Exists l.now a.now x }
    requires right { Exists l.now a.now y }
    ensures { result ≡ compared_as l.now a.now how x y }
{
    let texts = Reading { l, arena: a };
    match how {
        Comparison::Equal => or_fault(equal(&texts, x, y)),
        Comparison::StrictlyEqual => Ok(strictly_equal(&texts, x, y)),
        Comparison::Ordered(order) => or_fault(are_ordered(&texts, order, x, y)),
    }
}

/// What a comparison from AB to B0 answers: equals, strictequals, lessthan, lessequals, greaterthan and greaterequals. The
/// left is converted before the right. strictequals always answers. equals ends by the fault TextToNumber for a text and a
/// number or a truth value, and by ObjectToPrimitive for an object and one of these three; the others end by the faults of
/// numbers, but undefined is none, and by TextOrder for two texts of which one is not ASCII.
#[inline(always)]
pub fn compare(l: &Linked, a: &Arena, op: u8, x: Value, y: Value) -> Result<bool, OpEnd>
    requires over { StandsOver l.now a.now }
    requires left { Exists l.now a.now x }
    requires right { Exists l.now a.now y }
    ensures { result ≡ comparison_result l.now a.now op x y }
{
    compare_as(l, a, comparison_at(op), x, y)
}
