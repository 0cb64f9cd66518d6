ghost use Rattle.std.specs.Prelude.{◌≡◌, ◌<◌, ◌≤◌, All, get_or, length, map};
ghost use Rattle.abc_base.specs.Hosts.{plain_arguments};
ghost use Rattle.abc_base.specs.Ranges.{IsNumber};
ghost use Rattle.abc_heap_values.specs.declared.values.Value.TheVariants.{Undefined};
ghost use Rattle.abc_objects.specs.Values.{Exists};
ghost use Rattle.abc_frames.specs.Ready.{HasFrameRoom};
ghost use Rattle.abc_run_state.specs.Outer.{Outer, setting_in, world};
ghost use Rattle.abc_run_state.specs.Settling.{given_by_how, taken_by};
ghost use Rattle.abc_run_state.specs.Standing.{IsSet};
ghost use Rattle.abc_run_state.specs.Turns.{turn_of_formula, went};
ghost use Rattle.abc_meaning.specs.Calling.{number_of_argument};

use crate::outward_arguments::convert_arguments;
use abc_base::{Fault, Host, HostClass, Plain};
use abc_heap_values::{Conversion, Value};
use abc_link::Linked;
use abc_objects::Arena;
use abc_run_state::{How, State, Stop, settle};

/// The number that a value of some is, and 0 where it is none or there is no such value.
fn number_at(linked: &Linked, arena: &Arena, values: &[Value], n: usize) -> i64
    requires { All (Exists linked.now arena.now) values.now }
    ensures is { result ≡ number_of_argument (get_or values.now n Undefined) }
    ensures number { IsNumber result }
{
    match values.get(n) {
        Some(Value::Num(z)) => *z,
        _ => 0,
    }
}

/// The numbers that some values are, at most four, as the host takes them.
fn numbers_of(linked: &Linked, arena: &Arena, values: &[Value]) -> Plain
    requires few { length values.now ≤ 4 }
    requires there { All (Exists linked.now arena.now) values.now }
    ensures count { result.count ≡ length values.now }
    ensures numbers { plain_arguments result ≡ map number_of_argument values.now }
{
    Plain {
        count: values.len() as u32,
        a: number_at(linked, arena, values, 0),
        b: number_at(linked, arena, values, 1),
        c: number_at(linked, arena, values, 2),
        d: number_at(linked, arena, values, 3),
    }
}

/// A formula of the host is asked with the top operands, so many, each made a number, and what it gives comes. Another count of
/// arguments than it has factors throws an ArgumentError, and a value out of range is a fault.
pub fn ask<H: Host>(
    linked: &Linked,
    s: &mut State,
    host: &H,
    formula: u32,
    count: u32,
    how: How,
) -> Result<(), Stop>
    ghost out: { Outer }
    requires set { IsSet linked.now s.old }
    requires ready { HasFrameRoom (taken_by how) (given_by_how how) s.old.frames }
    requires count { count ≤ taken_by how }
    requires host { out.formulas ≡ H.formulas host.now }
    requires formula { formula < length (H.formulas host.now) }
    ensures asks { turn_of_formula (setting_in linked.now out) formula count how (world s.old out)
        s.old.frames ≡ went result (world s.new out) s.new.frames }
    ensures limit { s.new.given.limit ≡ s.old.given.limit }
{
    if count != host.params(formula) {
        return Err(Stop::Errs(HostClass::ArgumentError));
    }
    convert_arguments(linked, s, Conversion::ConvertD, count)?;
    let values = s.frames.arguments(count);
    let args = numbers_of(linked, &s.arena, values);
    match host.call(formula, &args) {
        Some(n) => {
            settle(&mut s.frames, how, Value::Num(n));
            Ok(())
        }
        None => Err(Stop::Faults(Fault::Range)),
    }
}
