ghost use Rattle.std.specs.Prelude.{◌≡◌, ◌∷◌, not};
ghost use Rattle.abc_meaning.specs.Simple.{switch_target};
ghost use Rattle.abc_heap_values.specs.declared.values.Value.TheVariants.{Num};
ghost use Rattle.abc_heap_values.specs.Numbers.{truth_of};
ghost use Rattle.abc_frames.specs.Ready.{HasFrameRoom};
ghost use Rattle.abc_frames.specs.Frame.{newest};
ghost use Rattle.abc_run_state.specs.Operands.{operand_at};
ghost use Rattle.abc_run_state.specs.Outer.{Outer, world};
ghost use Rattle.abc_run_state.specs.Standing.{IsSet};
ghost use Rattle.abc_run_state.specs.Stops.{IsOpen};
ghost use Rattle.abc_meaning.specs.World.{Went, World, pure};
ghost use Rattle.abc_run_state.specs.Plain.{branches_on, compares_both, opposite_of, switches_on};
ghost use Rattle.abc_run_state.specs.Doing.{Does};

use crate::operands::operand;
use crate::parts::compare;
use crate::state::{State, Stop};
use abc_frames::branch;
use abc_heap_values::{Value, is_true};
use abc_link::Linked;

/// Branches where a comparison of the two top operands is true.
#[inline(always)]
pub fn branch_so(linked: &Linked, s: &mut State, op: u8, target: u32) -> Result<(), Stop>
    ghost out: { Outer }
    requires set { IsSet linked.now s.old }
    requires ready { HasFrameRoom 2 0 s.old.frames }
    ensures { Does linked.now out (λ p f. branches_on 2 target f (compares_both p op f)) s.old result s.new }
{
    let x = operand(&s.frames, 1);
    let y = operand(&s.frames, 0);
    let is = compare(linked, s, op, x, y)?;
    s.frames.drop_operands(2);
    branch(&mut s.frames, is, target);
    Ok(())
}

/// Branches where a comparison of the two top operands is false.
#[inline(always)]
pub fn branch_not(linked: &Linked, s: &mut State, op: u8, target: u32) -> Result<(), Stop>
    ghost out: { Outer }
    requires set { IsSet linked.now s.old }
    requires ready { HasFrameRoom 2 0 s.old.frames }
    ensures { Does linked.now out (λ p f. branches_on 2 target f (opposite_of (compares_both p op f))) s.old
        result s.new }
{
    let x = operand(&s.frames, 1);
    let y = operand(&s.frames, 0);
    let is = compare(linked, s, op, x, y)?;
    s.frames.drop_operands(2);
    branch(&mut s.frames, !is, target);
    Ok(())
}

/// Branches where the top operand is true.
#[inline(always)]
pub fn branch_if(linked: &Linked, s: &mut State, target: u32) -> Result<(), Stop>
    ghost out: { Outer }
    requires { HasFrameRoom 1 0 s.old.frames }
    ensures { Does linked.now out (λ p f. branches_on 1 target f (pure (truth_of (operand_at 0 f)))) s.old
        result s.new }
{
    let v = operand(&s.frames, 0);
    let is = is_true(v);
    s.frames.drop_operands(1);
    branch(&mut s.frames, is, target);
    Ok(())
}

/// Branches where the top operand is not true.
#[inline(always)]
pub fn branch_unless(linked: &Linked, s: &mut State, target: u32) -> Result<(), Stop>
    ghost out: { Outer }
    requires { HasFrameRoom 1 0 s.old.frames }
    ensures { Does linked.now out (λ p f. branches_on 1 target f (pure (not (truth_of (operand_at 0 f)))))
        s.old result s.new }
{
    let v = operand(&s.frames, 0);
    let is = is_true(v);
    s.frames.drop_operands(1);
    branch(&mut s.frames, !is, target);
    Ok(())
}

/// The case of a number, or the default.
fn case_of(n: i64, default: u32, cases: &[u32]) -> u32
    ensures { (w : World) → switch_target (default ∷ cases.now) (Num n) w ≡ Went w result }
{
    if n >= 0 && (n as u64) < cases.len() as u64 {
        cases[n as usize]
    } else {
        default
    }
}

/// Where the number on top of the operands leads.
fn target_of(v: Value, default: u32, cases: &[u32]) -> u32
    ensures { (w : World) → IsOpen (switch_target (default ∷ cases.now) v w)
        → switch_target (default ∷ cases.now) v w ≡ Went w result }
{
    match v {
        Value::Num(n) => case_of(n, default, cases),
        _ => default,
    }
}

/// `lookupswitch`: the case of the number on top, or the default.
pub fn switch(linked: &Linked, s: &mut State, default: u32, cases: &[u32]) -> Result<(), Stop>
    ghost out: { Outer }
    requires ready { HasFrameRoom 1 0 s.old.frames }
    requires free { IsOpen (switches_on default cases.now (newest s.old.frames) (world s.old out)) }
    ensures { Does linked.now out (λ p. switches_on default cases.now) s.old result s.new }
{
    let v = operand(&s.frames, 0);
    let target = target_of(v, default, cases);
    s.frames.drop_operands(1);
    s.frames.go(target);
    Ok(())
}
