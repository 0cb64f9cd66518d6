ghost use Rattle.std.specs.Prelude.{◌≡◌, ◌≤◌, ◌<◌, ◌^◌, All, length, map};
ghost use Rattle.std.specs.Int.{w32, cast_signed};
ghost use Rattle.abc_file_types.specs.Starts.{IsRising};
ghost use Rattle.abc_file_types.specs.Targets.{target_of, found_target, cases_of, instr_of};
ghost use Rattle.abc_varint.specs.Reads.{stored_value};
ghost use Rattle.abc_instr.specs.Reading.{AreSmallStarts, with_targets, raw_instr};
ghost use Rattle.abc_instr.specs.Resolving.{Resolves};
ghost use Rattle.abc_instr.specs.declared.resolve.Missed.TheVariants as missed;

use crate::starts::Starts;
use abc_base::{NoMemory, Table};
use abc_file_types::{BoxedList, Instr};
use std::alloc::Global;

/// Why a target was not found.
#[derive(Clone, Copy, Debug, PartialEq, Eq)]
pub enum Missed {
    /// The offset at this place leads to no start.
    Target(u32),
    NoMemory,
}

impl From<NoMemory> for Missed {
    ghost from_gives = { λ _ e. e ≡ missed.NoMemory };

    fn from(_e: NoMemory) -> Missed {
        Missed::NoMemory
    }
}

/// The number of the instruction, or of the end, at an offset from a base.
fn target_at(starts: &Starts, base: u32, offset: i32) -> Option<u32>
    requires rising { IsRising starts.now }
    requires few { length starts.now < 2 ^ 32 }
    requires base { base ≤ 2 ^ 24 }
    ensures { result ≡ target_of starts.now base offset }
{
    let place = base as i64 + offset as i64;
    if place < 0 {
        return None;
    }
    starts.find(place as u32)
}

/// The number of the instruction, or of the end, at an offset from a base, which stands at a place.
fn resolve_at(starts: &Starts, base: u32, offset: i32, place: u32) -> Result<u32, Missed>
    requires rising { IsRising starts.now }
    requires few { length starts.now < 2 ^ 32 }
    requires base { base ≤ 2 ^ 24 }
    ensures { Resolves (found_target place (target_of starts.now base offset)) result }
{
    match target_at(starts, base, offset) {
        Some(target) => Ok(target),
        None => Err(Missed::Target(place)),
    }
}

/// The numbers for the offsets of the cases, the last of which stands just before `next`.
fn resolve_cases(
    alloc: Global,
    starts: &Starts,
    base: u32,
    next: u32,
    cases: &[u32],
) -> Result<Table<u32>, Missed>
    requires rising { IsRising starts.now }
    requires few { length starts.now < 2 ^ 32 }
    requires base { base ≤ 2 ^ 24 }
    ensures { Resolves (cases_of starts.now base next (map (cast_signed w32) cases.now)) result }
{
    let mut targets = Table::new(alloc);
    for (i, offset) in cases.iter().enumerate() {
        let after = cases.len() - i;
        let place = (next as usize).saturating_sub(after.saturating_mul(3)) as u32;
        let target = resolve_at(starts, base, offset.cast_signed(), place)?;
        targets.push(target)?;
    }
    Ok(targets)
}

/// An instruction that has offsets in the place of its targets, with its targets.
fn resolve_instr(
    alloc: Global,
    starts: &Starts,
    instr: Instr,
    here: u32,
    next: u32,
) -> Result<Instr, Missed>
    requires rising { IsRising starts.now }
    requires few { length starts.now < 2 ^ 32 }
    requires here { here ≤ 2 ^ 24 }
    requires next { next ≤ 2 ^ 24 }
    ensures { Resolves (instr_of starts.now here next (raw_instr instr)) result }
{
    match instr {
        Instr::Branch(op, offset) => {
            let target = resolve_at(starts, next, offset.cast_signed(), here + 1)?;
            Ok(Instr::Branch(op, target))
        }
        Instr::Switch { default, cases } => {
            let default = resolve_at(starts, here, default.cast_signed(), here + 1)?;
            let cases = resolve_cases(alloc, starts, here, next, cases.as_slice())?;
            let cases = BoxedList::new(alloc, cases)?;
            Ok(Instr::Switch { default, cases })
        }
        other => Ok(other),
    }
}

/// Gives each instruction with targets numbers for its offsets.
pub fn resolve_all(
    alloc: Global,
    starts: &Starts,
    aims: &[u32],
    instrs: &mut Table<Instr>,
) -> Result<(), Missed>
    requires places { AreSmallStarts (length instrs.old) starts.now }
    requires aims { All (λ a. a < length instrs.old) aims.now }
    ensures { Resolves (with_targets starts.now aims.now instrs.old) (stored_value result instrs.new) }
{
    let places = starts.as_slice();
    for aim in aims {
        let index = *aim as usize;
        let instr = instrs.replace(index, Instr::Plain(0));
        let instr = resolve_instr(alloc, starts, instr, places[index], places[index + 1])?;
        instrs.set(index, instr);
    }
    Ok(())
}
