ghost use Rattle.std.specs.Prelude.{◌≡◌, ◌<◌, ◌≤◌, ◌*◌, length, MatchResult};
ghost use Rattle.abc_objects.specs.Opening.{IsUnopened, IsOpeningWithin, global_slots as slots_of_globals, opening_counts, slot_count};
ghost use Rattle.abc_objects.specs.Starts.{StartsExist};

use crate::error::OpenError;
use abc_heap_store::{Limit, Limits};
use abc_link::Linked;
use abc_link_names::Part;

/// How many slots the global object of a script has.
fn slots_of_global(l: &Linked, script: u32) -> u32
    requires script { script < length l.now.file.scripts }
    requires starts { StartsExist l.now }
    ensures { result ≡ slot_count l.now script }
{
    l.linked_law();
    l.slots(l.layout_of(Part::Global(script))).len() as u32
}

/// How many slots all global objects have.
fn global_slots(l: &Linked) -> u64
    requires { StartsExist l.now }
    ensures slots { result ≡ slots_of_globals l.now }
    ensures few { result ≤ 4294967295 * length l.now.file.scripts }
{
    l.linked_law();
    let scripts = l.abc().scripts.len() as u32;
    let mut slots = 0;
    for script in 0..scripts {
        slots += u64::from(slots_of_global(l, script));
    }
    slots
}

/// Tests whether what every run begins with is within the limits, the objects first.
pub(crate) fn test_room(l: &Linked, limits: &Limits, formulas: u32) -> Result<(), OpenError>
    requires starts { StartsExist l.now }
    requires few { formulas ≤ 64 }
    ensures { MatchResult result (λ _. IsOpeningWithin (opening_counts l.now formulas) limits.now)
        (IsUnopened (opening_counts l.now formulas) limits.now) }
{
    l.linked_law();
    let scripts = l.abc().scripts.len() as u64;
    if u64::from(limits.objects) < 30 + u64::from(formulas) + scripts {
        return Err(OpenError::TooSmall(Limit::Objects));
    }
    if u64::from(limits.cells) < 29 + u64::from(formulas) + scripts + global_slots(l) {
        return Err(OpenError::TooSmall(Limit::Cells));
    }
    Ok(())
}
