ghost use Rattle.std.specs.Prelude.{◌≡◌};
ghost use Rattle.abc_run_state.specs.Outer.{Outer};
ghost use Rattle.abc_heap_values.specs.declared.values.Value.TheVariants.{Num};
ghost use Rattle.abc_run_values.specs.Here.{RunsHere};
ghost use Rattle.abc_run_values.specs.Ready.{CanRun};
ghost use Rattle.abc_file_types.specs.declared.code.Instr.TheVariants.{Byte, Debug, ScopeObject, Short};

use crate::moves::{push_value, read_scope, step_on};
use abc_heap_values::Value;
use abc_link::Linked;
use abc_run_state::{State, Stop};

/// A number of a byte, as a value.
#[inline(always)]
fn byte_value(n: i8) -> Value
    ensures { result ≡ Num n }
{
    Value::Num(i64::from(n))
}

/// A number of two bytes, as a value.
fn short_value(n: i16) -> Value
    ensures { result ≡ Num n }
{
    Value::Num(i64::from(n))
}

/// `pushbyte`.
#[inline(always)]
pub fn run_byte(linked: &Linked, s: &mut State, n: i8) -> Result<(), Stop>
    ghost out: { Outer }
    requires { CanRun linked.now out s.old (Byte n) }
    ensures { RunsHere linked.now out (Byte n) s.old result s.new }
{
    push_value(linked, s, byte_value(n))
}

/// `pushshort`.
pub fn run_short(linked: &Linked, s: &mut State, n: i16) -> Result<(), Stop>
    ghost out: { Outer }
    requires { CanRun linked.now out s.old (Short n) }
    ensures { RunsHere linked.now out (Short n) s.old result s.new }
{
    push_value(linked, s, short_value(n))
}

/// `getscopeobject`.
pub fn run_scope_object(linked: &Linked, s: &mut State, n: u8) -> Result<(), Stop>
    ghost out: { Outer }
    requires { CanRun linked.now out s.old (ScopeObject n) }
    ensures { RunsHere linked.now out (ScopeObject n) s.old result s.new }
{
    read_scope(linked, s, n)
}

/// `debug`, which does nothing.
pub fn run_debug(
    linked: &Linked,
    s: &mut State,
    kind: u8,
    name: u32,
    reg: u8,
    extra: u32,
) -> Result<(), Stop>
    ghost out: { Outer }
    requires { CanRun linked.now out s.old (Debug kind name reg extra) }
    ensures { RunsHere linked.now out (Debug kind name reg extra) s.old result s.new }
{
    step_on(linked, s)
}
