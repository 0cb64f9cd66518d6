ghost use Rattle.std.specs.Prelude.{◌≡◌, ◌+◌, [], IfOk, MatchResult, false, length, replicate};
ghost use Rattle.abc_frames.specs.Frame.{no_frames};
ghost use Rattle.abc_run_finish.specs.Begun.{HasRoomForLocals, IsBegun};
ghost use Rattle.abc_meaning.specs.Openings.{IsOpeningRefused, setting};

use abc_base::{Host, NoMemory, Table, release};
use abc_file_types::Method;
use abc_frames::{Frames, Pile};
use abc_heap_store::Limits;
use abc_heap_values::Value;
use abc_link::Linked;
use abc_objects::{Arena, OpenError};
use abc_run_state::State;
use std::alloc::Global;

/// No script is started.
fn none_started(alloc: Global, scripts: usize) -> Result<Table<bool>, NoMemory>
    ensures { IfOk result (λ t. t ≡ replicate scripts false) }
{
    let mut started = Table::new(alloc);
    for _i in 0..scripts {
        started.push(false)?;
    }
    Ok(started)
}

/// How many first locals a method has at most: a receiver, its parameters and an array. More than can be counted find no memory.
fn first_locals(method: &Method) -> Result<u32, NoMemory>
    ensures { IfOk result (λ n. n ≡ length method.now.params + 2) }
{
    let params = method.params.len();
    if params >= 0xFFFF_FFFE {
        return Err(NoMemory);
    }
    Ok(params as u32 + 2)
}

/// How many first locals any method has at most.
fn most_locals(methods: &[Method]) -> Result<u32, NoMemory>
    ensures { IfOk result (HasRoomForLocals methods.now) }
{
    let mut most = 2;
    for method in methods {
        let count = first_locals(method)?;
        if count > most {
            most = count;
        }
    }
    Ok(most)
}

/// What a run fills beside its heap: frames, the scripts that were started, and the first locals of the method that is entered.
#[derive(Drop)]
struct Room {
    frames: Frames,
    started: Table<bool>,
    given: Pile<Value>,
}

/// Room for a run of a file, which nothing fills.
fn room_of(alloc: Global, linked: &Linked, limits: &Limits) -> Result<Room, NoMemory>
    ensures frames { IfOk result (λ r. r.frames ≡ no_frames (limits.now).frames (limits.now).stack) }
    ensures started { IfOk result (λ r. r.started ≡ replicate (length (linked.now).file.scripts) false) }
    ensures given { IfOk result (λ r. r.given.items ≡ []) }
    ensures room { IfOk result (λ r. HasRoomForLocals (linked.now).file.methods r.given.limit) }
{
    let frames = Frames::new(alloc, limits.frames, limits.stack)?;
    let started = none_started(alloc, linked.abc().scripts.len())?;
    let locals = most_locals(linked.abc().methods.as_slice())?;
    let given = Pile::new(alloc, locals)?;
    Ok(Room {
        frames,
        started,
        given,
    })
}

/// The state that a run of a file begins with, with all the memory that the run may fill: no script is started, and no frame
/// lives. It answers `TooSmall` exactly where the objects or, tried next, the cells that every run begins with pass their limit.
pub fn open_state<H: Host>(
    alloc: Global,
    linked: &Linked,
    limits: &Limits,
    host: &H,
) -> Result<State, OpenError>
    ensures { MatchResult result (IsBegun (setting linked.now (H.formulas host.now)) limits.now)
        (IsOpeningRefused (setting linked.now (H.formulas host.now)) limits.now) }
{
    linked.linked_law();
    let arena = Arena::open(alloc, linked, limits, host)?;
    match room_of(alloc, linked, limits) {
        Ok(room) => Ok(State {
            arena,
            frames: room.frames,
            started: room.started,
            given: room.given,
        }),
        Err(NoMemory) => {
            release(arena);
            Err(OpenError::NoMemory)
        }
    }
}
