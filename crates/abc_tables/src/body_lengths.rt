ghost use Rattle.std.specs.Prelude.{◌≡◌, ◌≤◌, ◌+◌, ◌-◌, ◌^◌, length, min};
ghost use Rattle.abc_tables.specs.Lengths.{body_len, counted_len, handler_len, place_len};
ghost use Rattle.abc_tables.specs.StartWidths.{AreWidths, IsFirstFrom};
ghost use Rattle.abc_file_types.specs.CodeBytes.{canonical_starts, code_len as total, number_len};

use crate::lengths::{Measured, len_of_counted, len_of_number};
use abc_base::Table;
use abc_file_types::{Body, Handler, Instr, code_len, count_len, instr_len};

/// The first places in code whose starts have two, three, four and five bytes in their canonical spelling.
#[derive(Clone, Copy, Debug)]
pub struct Widths {
    pub two: usize,
    pub three: usize,
    pub four: usize,
    pub five: usize,
}

/// The first place in canonical code, an instruction or the end, that starts at the limit or after it. It is the place
/// after the end where all start before it.
fn first_from(code: &Table<Instr>, limit: u32) -> usize
    ensures { IsFirstFrom code.now limit result }
{
    let mut here: u64 = 0;
    for (i, instr) in code.as_slice().iter().enumerate() {
        if limit as u64 <= here {
            return i;
        }
        here = here.saturating_add(instr_len(instr));
    }
    if limit as u64 <= here {
        code.len()
    } else {
        code.len() + 1
    }
}

/// The same, of code that has so many bytes: code that ends before the limit is not gone through.
#[tactic(auto, using(crate::proofs::Places::none_from))]
fn first_within(code: &Table<Instr>, len: u64, limit: u32) -> usize
    requires { len ≡ min (total code.now) (2 ^ 64 - 1) }
    ensures { IsFirstFrom code.now limit result }
{
    if len < limit as u64 {
        return code.as_slice().len() + 1;
    }
    first_from(code, limit)
}

/// From which places on the code's starts have two, three, four and five bytes. Most code is short, and hardly gone through.
fn widths_of(code: &Table<Instr>, len: u64) -> Widths
    requires { len ≡ min (total code.now) (2 ^ 64 - 1) }
    ensures { AreWidths code.now result }
{
    Widths {
        two: first_within(code, len, 1 << 7),
        three: first_within(code, len, 1 << 14),
        four: first_within(code, len, 1 << 21),
        five: first_within(code, len, 1 << 28),
    }
}

/// How many bytes the start of a place has, in the code that has these widths. A place past the end counts as the start of the code.
#[tactic(auto, using(crate::proofs::Places::past, crate::proofs::Places::one, crate::proofs::Places::two, crate::proofs::Places::three, crate::proofs::Places::four, crate::proofs::Places::five))]
fn len_of_place(place: u32, code: &Table<Instr>, widths: &Widths) -> u64
    requires { AreWidths code.now widths.now }
    ensures is { result ≡ place_len (canonical_starts code.now) place }
    ensures bound { result ≤ 5 }
{
    let place = place as usize;
    if place > code.len() {
        return 1;
    }
    if place < widths.two {
        1
    } else if place < widths.three {
        2
    } else if place < widths.four {
        3
    } else if place < widths.five {
        4
    } else {
        5
    }
}

fn len_of_handler(handler: &Handler, code: &Table<Instr>, widths: &Widths) -> u64
    requires { AreWidths code.now widths.now }
    ensures is { result ≡ handler_len (canonical_starts code.now) handler.now }
    ensures bound { result ≤ 25 }
{
    let from = len_of_place(handler.from, code, widths);
    let to = len_of_place(handler.to, code, widths);
    let target = len_of_place(handler.target, code, widths);
    from + to + target + len_of_number(handler.exc_type) + len_of_number(handler.var_name)
}

/// The count of handlers, and the handlers. Code that is not short is gone through once for each width, and not for each
/// handler.
#[tactic(auto, using(crate::proofs::Capped::empty_list))]
fn len_of_handlers(handlers: &Table<Handler>, code: &Table<Instr>, len: u64) -> u64
    requires { len ≡ min (total code.now) (2 ^ 64 - 1) }
    ensures { result ≡ min (counted_len (handler_len (canonical_starts code.now)) handlers.now) (2 ^ 64 - 1) }
{
    if handlers.len() == 0 {
        return 1;
    }
    let widths = widths_of(code, len);
    let mut sum: u64 = 0;
    for handler in handlers.as_slice() {
        sum = sum.saturating_add(len_of_handler(handler, code, &widths));
    }
    count_len(handlers.len()).saturating_add(sum)
}

/// How many bytes the instructions have, and that number.
fn len_of_code(_code: &Table<Instr>, len: u64) -> u64
    requires { len ≡ min (total _code.now) (2 ^ 64 - 1) }
    ensures { result ≡ min (number_len (total _code.now) + total _code.now) (2 ^ 64 - 1) }
{
    count_len(len as usize).saturating_add(len)
}

/// The canonical bytes of a body whose code has so many.
#[tactic(auto, unfolding(crate::specs::Lengths::body_len), using(crate::proofs::Capped::both_capped))]
pub fn len_over_code(body: &Body, code: u64) -> u64
    requires { code ≡ min (total (body.now).code) (2 ^ 64 - 1) }
    ensures { result ≡ min (body_len body.now) (2 ^ 64 - 1) }
{
    let sizes = len_of_number(body.max_stack) + len_of_number(body.local_count);
    let scopes = len_of_number(body.init_scope) + len_of_number(body.max_scope);
    (len_of_number(body.method) + sizes + scopes)
        .saturating_add(len_of_code(&body.code, code))
        .saturating_add(len_of_handlers(&body.handlers, &body.code, code))
        .saturating_add(len_of_counted(&body.traits))
}

impl Measured for Body {
    ghost len = { body_len };

    fn canonical_len(&self) -> u64 {
        len_over_code(self, code_len(&self.code))
    }
}
