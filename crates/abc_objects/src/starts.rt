ghost use Rattle.std.specs.Prelude.{◌≡◌, length, map};
ghost use Rattle.abc_heap_store.specs.Texts.{pool_text};
ghost use Rattle.abc_link_names.specs.Linked.{IsLayout};
ghost use Rattle.abc_link_names.specs.Slots.{slots_of};
ghost use Rattle.abc_objects.specs.Starts.{CanStartSlots, IsShort, IsShortStart, StartsExist, start_value, string_span};

use crate::fixed::FixedText;
use abc_base::{Bytes, Table};
use abc_heap_store::Starts;
use abc_heap_values::{Span, Value};
use abc_link::Linked;
use abc_link_names::{LayoutId, SlotInfo, Start};

/// The values with which the slots of a layout start.
#[derive(Clone, Copy)]
pub struct LayoutStarts<'a> {
    pub pool: &'a Table<Bytes>,
    pub slots: &'a Table<SlotInfo>,
    ghost sound: { CanStartSlots pool.now slots.now },
}

impl<'a> LayoutStarts<'a> {
    /// The starts of some slots of a file with these strings.
    pub fn new(pool: &'a Table<Bytes>, slots: &'a Table<SlotInfo>) -> LayoutStarts<'a>
        requires { CanStartSlots pool.now slots.now }
        ensures pool { result.pool.now ≡ pool.now }
        ensures slots { result.slots.now ≡ slots.now }
    {
        LayoutStarts { pool, slots }
    }
}

/// The starts of the slots of a layout.
pub(crate) fn starts_of<'a>(l: &'a Linked, layout: LayoutId) -> LayoutStarts<'a>
    requires layout { IsLayout l.now layout }
    requires starts { StartsExist l.now }
    ensures pool { result.pool.now ≡ l.now.file.strings }
    ensures slots { result.slots.now ≡ slots_of l.now layout.0 }
{
    LayoutStarts::new(&l.abc().strings, l.slots(layout))
}

impl<'a> Starts for LayoutStarts<'a> {
    ghost use Rattle.std.specs.Prelude.{map};
    ghost use Rattle.abc_objects.specs.Starts.{start_value};

    ghost values = { λ s. map (λ i. start_value s.pool.now i.start) s.slots.now };

    fn count(&self) -> u32 {
        self.slots.len() as u32
    }

    fn start(&self, k: u32) -> Value {
        value_at_start(self.pool, self.slots.get(k as usize).start)
    }
}

/// The value of a start.
fn value_at_start(pool: &Table<Bytes>, start: Start) -> Value
    requires { IsShortStart pool.now start }
    ensures { result ≡ start_value pool.now start }
{
    match start {
        Start::Undefined => Value::Undefined,
        Start::Null => Value::Null,
        Start::Num(n) => Value::Num(n),
        Start::Bool(b) => Value::Bool(b),
        Start::BoolText(true) => Value::Text(FixedText::True.span()),
        Start::BoolText(false) => Value::Text(FixedText::False.span()),
        Start::Text(i) => Value::Text(span_of_string(pool, i)),
        Start::Space(n) => Value::Space(n),
    }
}

/// Where a string of the pool lies.
pub fn span_of_string(pool: &Table<Bytes>, i: u32) -> Span
    requires { IsShort pool.now i }
    ensures { result ≡ string_span pool.now i }
{
    if i == 0 {
        return FixedText::Empty.span();
    }
    Span {
        part: i + 2,
        start: 0,
        len: string_length(pool, i) as u32,
    }
}

/// How many bytes a string of the pool has.
#[tactic(auto, using(crate::proofs::Made::past_pool_text))]
pub fn string_length(pool: &Table<Bytes>, i: u32) -> usize
    ensures { result ≡ length (pool_text pool.now i) }
{
    if i == 0 {
        return 0;
    }
    match pool.find(i as usize - 1) {
        Some(text) => text.len(),
        None => 0,
    }
}
