ghost use Rattle.std.specs.Prelude.{◌≡◌, ◌<◌, ◌≤◌, ◌+◌, [], length, OnOk, OnErr};
ghost use Rattle.abc_frames.specs.Frame.{arguments, after_entry, newest, room_for, frames_at_start};

use crate::frames::Frames;
use crate::records::{Entry, Wait};
use abc_heap_store::Full;
use abc_heap_values::Value;

/// Enters a method over no frame, with its first locals, where there is room for it. Else nothing changes.
pub fn try_start(frames: &mut Frames, entry: Entry, locals: &[Value]) -> Result<(), Full>
    requires none { frames.old.living ≡ [] }
    requires locals { length locals.now ≤ entry.size.locals }
    ensures room { result ≡ room_for frames.old entry.size }
    ensures ok { OnOk result (frames.new ≡ frames_at_start entry locals.now frames.old) }
    ensures err { OnErr result (frames.new ≡ frames.old) }
{
    frames.room(entry.size)?;
    frames.start(entry, locals);
    Ok(())
}

/// Enters a method with the top operands as its first locals, where there is room for it. So many more operands, which are under
/// them, leave the caller with them. Without room nothing changes.
#[inline(always)]
pub fn try_enter(
    frames: &mut Frames,
    entry: Entry,
    args: u32,
    more: u32,
    wait: Wait,
) -> Result<(), Full>
    requires live { 0 < length frames.old.living }
    requires operands { args + more ≤ length (newest frames.old).stack }
    requires locals { args ≤ entry.size.locals }
    ensures room { result ≡ room_for frames.old entry.size }
    ensures ok { OnOk result
        (frames.new ≡ after_entry entry (arguments args (newest frames.old)) (args + more) wait frames.old) }
    ensures err { OnErr result (frames.new ≡ frames.old) }
{
    frames.room(entry.size)?;
    frames.enter(entry, args, more, wait);
    Ok(())
}

/// Enters a method with its first locals given, where there is room for it. So many operands leave the caller. Without room
/// nothing changes.
pub fn try_enter_with(
    frames: &mut Frames,
    entry: Entry,
    locals: &[Value],
    taken: u32,
    wait: Wait,
) -> Result<(), Full>
    requires live { 0 < length frames.old.living }
    requires operands { taken ≤ length (newest frames.old).stack }
    requires locals { length locals.now ≤ entry.size.locals }
    ensures room { result ≡ room_for frames.old entry.size }
    ensures ok { OnOk result (frames.new ≡ after_entry entry locals.now taken wait frames.old) }
    ensures err { OnErr result (frames.new ≡ frames.old) }
{
    frames.room(entry.size)?;
    frames.enter_with(entry, locals, taken, wait);
    Ok(())
}
