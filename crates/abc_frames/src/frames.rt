ghost use Rattle.std.specs.Prelude.{◌≡◌, ◌<◌, ◌≤◌, ◌+◌, ◌^◌, [], ℕ, length, IfOk, OnOk, Some, slice_get};
ghost use Rattle.abc_frames.specs.Frame.{no_frames, newest, newest_size, with_newest, after_push, with_operand, after_drop, dropped_under, with_local, with_scope, at_place, waiting, after_catch, HasRoomForFrame, room_for, frames_at_start, after_entry, arguments, after_leave, total_size};
ghost use Rattle.abc_frames.specs.Laid.{ground_head, new_head};
ghost use Rattle.abc_frames.specs.declared.records.Wait.TheVariants.{Not};

use crate::pile::Pile;
use crate::records::{Below, Entry, Head, Marks, Size, Wait};
use abc_base::NoMemory;
use abc_heap_store::{Full, Limit, ScopeEntry, ScopeId};
use abc_heap_values::Value;
use std::alloc::Global;
use std::marker::Model;

/// The frames of a run. No call takes memory but `new`.
#[derive(Debug, Drop)]
pub struct Frames {
    newest: Head,
    below: Pile<Below>,
    values: Pile<Value>,
    scopes: Pile<ScopeEntry>,
}

impl Model for Frames {
    ghost use Rattle.abc_frames.specs.Frame.{Frames};
    ghost use Rattle.abc_frames.specs.Laid.{frames_in, IsLaid};

    ghost Value = { Frames };

    ghost view = { λ f. frames_in f.newest f.below f.values f.scopes };

    ghost invariant = { λ f. IsLaid f.newest.marks f.below f.values f.scopes };
}

impl Frames {
    /// No frames, with memory for so many, and for as many values as these may keep together.
    pub fn new(alloc: Global, frames: u32, values: u32) -> Result<Frames, NoMemory>
        ensures { IfOk result (λ q. q ≡ no_frames frames values) }
    {
        let below = Pile::new(alloc, frames)?;
        let stack = Pile::new(alloc, values)?;
        let scopes = Pile::new(alloc, values)?;
        Ok(Frames {
            newest: ground(),
            below,
            values: stack,
            scopes,
        })
    }

    /// How many frames live.
    #[inline]
    pub fn depth(&self) -> u32
        ensures { result ≡ length self.now.living }
    {
        self.below.len()
    }

    /// The newest frame's method, by its index in the file.
    #[inline]
    pub fn method(&self) -> u32
        requires { 0 < length self.now.living }
        ensures { result ≡ (newest self.now).method }
    {
        self.newest.method
    }

    /// The newest frame's home script, by its index in the file.
    #[inline]
    pub fn home(&self) -> u32
        requires { 0 < length self.now.living }
        ensures { result ≡ (newest self.now).home }
    {
        self.newest.home
    }

    /// The newest frame's saved scope.
    #[inline]
    pub fn saved(&self) -> Option<ScopeId>
        requires { 0 < length self.now.living }
        ensures { result ≡ (newest self.now).saved }
    {
        self.newest.saved
    }

    /// The number of the instruction that the newest frame is at.
    #[inline]
    pub fn place(&self) -> u32
        requires { 0 < length self.now.living }
        ensures { result ≡ (newest self.now).place }
    {
        self.newest.place
    }

    /// Moves the newest frame to an instruction.
    #[inline]
    pub fn go(&mut self, place: u32)
        requires { 0 < length self.old.living }
        ensures { self.new ≡ with_newest (at_place place) self.old }
    {
        self.newest.place = place;
    }

    /// What the newest frame waits for; from here on it waits for nothing.
    #[inline]
    pub fn take_wait(&mut self) -> Wait
        requires { 0 < length self.old.living }
        ensures wait { result ≡ (newest self.old).wait }
        ensures frames { self.new ≡ with_newest (waiting Not) self.old }
    {
        let wait = self.newest.wait;
        self.newest.wait = Wait::Not;
        wait
    }

    /// Puts a value on the newest frame's operand stack.
    #[inline]
    pub fn push(&mut self, v: Value)
        requires { length (newest self.old).stack < (newest_size self.old).stack }
        ensures { self.new ≡ with_newest (after_push v) self.old }
    {
        self.values.push(v);
    }

    /// Takes the newest frame's top operand.
    #[inline]
    pub fn pop(&mut self) -> Value
        requires { 0 < length (newest self.old).stack }
        ensures popped { self.old ≡ with_newest (after_push result) self.new }
        ensures depth { length self.new.living ≡ length self.old.living }
    {
        self.values.pop()
    }

    /// The n-th operand of the newest frame, from the top.
    #[inline]
    pub fn operand(&self, n: u32) -> Value
        requires { n < length (newest self.now).stack }
        ensures { slice_get (newest self.now).stack n ≡ Some result }
    {
        self.values.get(self.values.len() - 1 - n)
    }

    /// Replaces the n-th operand of the newest frame, from the top.
    #[inline]
    pub fn set_operand(&mut self, n: u32, v: Value)
        requires { n < length (newest self.old).stack }
        ensures { self.new ≡ with_newest (with_operand n v) self.old }
    {
        let i = self.values.len() - 1 - n;
        self.values.set(i, v);
    }

    /// The top operands of the newest frame, so many, in the order in which they were pushed.
    #[inline]
    pub fn arguments(&self, count: u32) -> &[Value]
        requires { count ≤ length (newest self.now).stack }
        ensures { result.now ≡ arguments count (newest self.now) }
    {
        let from = self.values.len() - count;
        &self.values.as_slice()[from as usize..]
    }

    /// Drops the top operands of the newest frame, so many.
    #[inline]
    pub fn drop_operands(&mut self, count: u32)
        requires operands { count ≤ length (newest self.old).stack }
        requires live { 0 < length self.old.living }
        ensures { self.new ≡ with_newest (after_drop count) self.old }
    {
        let left = self.values.len() - count;
        self.values.cut(left);
    }

    /// Drops operands of the newest frame from under its top ones.
    pub fn drop_under(&mut self, kept: u32, count: u32)
        requires operands { kept + count ≤ length (newest self.old).stack }
        requires live { 0 < length self.old.living }
        ensures { self.new ≡ with_newest (dropped_under kept count) self.old }
    {
        let from = self.values.len() - kept - count;
        self.values.take_out(from, count);
    }

    /// A local of the newest frame.
    #[inline]
    pub fn local(&self, n: u32) -> Value
        requires { n < length (newest self.now).locals }
        ensures { slice_get (newest self.now).locals n ≡ Some result }
    {
        self.values.get(self.newest.marks.locals_at + n)
    }

    /// Writes a local of the newest frame.
    #[inline]
    pub fn set_local(&mut self, n: u32, v: Value)
        requires { n < length (newest self.old).locals }
        ensures { self.new ≡ with_newest (with_local n v) self.old }
    {
        self.values.set(self.newest.marks.locals_at + n, v);
    }

    /// The newest frame's local scopes, the bottom first.
    #[inline]
    pub fn scopes(&self) -> &[ScopeEntry]
        requires { 0 < length self.now.living }
        ensures { result.now ≡ (newest self.now).scopes }
    {
        &self.scopes.as_slice()[self.newest.marks.scopes_at as usize..]
    }

    /// Puts a scope on the newest frame's local scopes.
    #[inline]
    pub fn push_scope(&mut self, entry: ScopeEntry)
        requires { length (newest self.old).scopes < (newest_size self.old).scopes }
        ensures { self.new ≡ with_newest (with_scope entry) self.old }
    {
        self.scopes.push(entry);
    }

    /// Takes the newest frame's top scope.
    #[inline]
    pub fn pop_scope(&mut self) -> ScopeEntry
        requires { 0 < length (newest self.old).scopes }
        ensures popped { self.old ≡ with_newest (with_scope result) self.new }
        ensures depth { length self.new.living ≡ length self.old.living }
    {
        self.scopes.pop()
    }

    /// Goes on at a handler with a value: it alone is on the stack then, and no local scope is left.
    pub fn catch_at(&mut self, v: Value, target: u32)
        requires { 0 < (newest_size self.old).stack }
        ensures { self.new ≡ with_newest (after_catch v target) self.old }
    {
        self.values.cut(self.newest.marks.stack_at);
        self.values.push(v);
        self.scopes.cut(self.newest.marks.scopes_at);
        self.newest.place = target;
        self.newest.wait = Wait::Not;
    }

    /// Whether there is room for one more frame, and for the values that it may keep; the frames are tried first.
    pub fn room(&self, size: Size) -> Result<(), Full>
        ensures exact { result ≡ room_for self.now size }
        ensures room { OnOk result (HasRoomForFrame self.now size) }
    {
        if self.below.len() >= self.below.limit() {
            return Err(Full(Limit::Frames));
        }
        let need = u64::from(size.locals) + u64::from(size.stack) + u64::from(size.scopes);
        if u64::from(self.newest.marks.used) + need > u64::from(self.values.limit()) {
            return Err(Full(Limit::Stack));
        }
        Ok(())
    }

    /// Enters a method over no frame, with its first locals.
    pub fn start(&mut self, entry: Entry, locals: &[Value])
        requires none { self.old.living ≡ [] }
        requires locals { length locals.now ≤ entry.size.locals }
        requires room { HasRoomForFrame self.old entry.size }
        ensures { self.new ≡ frames_at_start entry locals.now self.old }
    {
        let at = self.values.len();
        let scopes_at = self.scopes.len();
        self.below
            .push(paused(self.newest, Wait::Not, at, scopes_at));
        self.newest = head_over(self.newest.marks, entry, at, scopes_at);
        let given = locals.len() as u32;
        self.values.extend(locals);
        self.values
            .fill(entry.size.locals - given, Value::Undefined);
    }

    /// Enters a method with the top operands as its first locals, which stay where they are. So many more operands, which
    /// are under them, leave the caller with them.
    #[inline(always)]
    pub fn enter(&mut self, entry: Entry, args: u32, more: u32, wait: Wait)
        requires live { 0 < length self.old.living }
        requires operands { args + more ≤ length (newest self.old).stack }
        requires locals { args ≤ entry.size.locals }
        requires room { HasRoomForFrame self.old entry.size }
        ensures { self.new
            ≡ after_entry entry (arguments args (newest self.old)) (args + more) wait self.old }
    {
        let at = self.values.len() - args;
        let scopes_at = self.scopes.len();
        self.below
            .push(paused(self.newest, wait, at - more, scopes_at));
        self.newest = head_over(self.newest.marks, entry, at, scopes_at);
        self.values.fill(entry.size.locals - args, Value::Undefined);
    }

    /// Enters a method with its first locals given. So many operands leave the caller.
    pub fn enter_with(&mut self, entry: Entry, locals: &[Value], taken: u32, wait: Wait)
        requires live { 0 < length self.old.living }
        requires operands { taken ≤ length (newest self.old).stack }
        requires locals { length locals.now ≤ entry.size.locals }
        requires room { HasRoomForFrame self.old entry.size }
        ensures { self.new ≡ after_entry entry locals.now taken wait self.old }
    {
        let at = self.values.len() - taken;
        let scopes_at = self.scopes.len();
        self.below.push(paused(self.newest, wait, at, scopes_at));
        self.newest = head_over(self.newest.marks, entry, at, scopes_at);
        self.values.cut(at);
        let given = locals.len() as u32;
        self.values.extend(locals);
        self.values
            .fill(entry.size.locals - given, Value::Undefined);
    }

    /// Leaves the newest frame, and all that it has.
    pub fn leave(&mut self)
        requires { 0 < length self.old.living }
        ensures { self.new ≡ after_leave self.old }
    {
        let last = self.below.len() - 1;
        let below = &self.below.as_slice()[last as usize];
        self.values.cut(below.values);
        self.scopes.cut(below.scopes);
        self.newest = below.head;
        self.below.cut(last);
    }
}

/// The head under all frames, which keeps nothing.
fn ground() -> Head
    ensures { result ≡ ground_head }
{
    Head {
        method: 0,
        home: 0,
        saved: None,
        place: 0,
        wait: Wait::Not,
        marks: Marks {
            locals_at: 0,
            stack_at: 0,
            scopes_at: 0,
            max_stack: 0,
            max_scopes: 0,
            used: 0,
        },
    }
}

/// A head as it waits under another, its operands and scopes up to these ends.
fn paused(head: Head, wait: Wait, values: u32, scopes: u32) -> Below
    ensures { result ≡ record { head = record head { wait = wait }; values = values; scopes = scopes } }
{
    Below {
        head: Head {
            method: head.method,
            home: head.home,
            saved: head.saved,
            place: head.place,
            wait,
            marks: head.marks,
        },
        values,
        scopes,
    }
}

/// The head of a method that is entered over a frame with these marks.
fn head_over(below: Marks, entry: Entry, locals_at: u32, scopes_at: u32) -> Head
    requires locals { locals_at + entry.size.locals < 2 ^ 32 }
    requires used { below.used + total_size entry.size < 2 ^ 32 }
    ensures { result ≡ new_head below entry locals_at scopes_at }
{
    let size = entry.size;
    Head {
        method: entry.method,
        home: entry.home,
        saved: entry.saved,
        place: 0,
        wait: Wait::Not,
        marks: Marks {
            locals_at,
            stack_at: locals_at + size.locals,
            scopes_at,
            max_stack: size.stack,
            max_scopes: size.scopes,
            used: below.used + (size.locals + size.stack + size.scopes),
        },
    }
}
