ghost use Rattle.std.specs.Prelude.{◌≡◌, ◌+◌, ◌++◌, ◌∷◌, ◌<◌, ◌≤◌, [], Some, cond, set, slice_get, length, IfOk, IsTrue, OnErr, OnOk};
ghost use Rattle.abc_link_names.specs.Linked.{IsLinkedFile};
ghost use Rattle.abc_verify_flow.specs.Kept.{HasLengths, IsStateBelow, IsHeadBehind, IsLonger, over};

use crate::below::{are_operands_below, are_scopes_below};
use crate::blocks::Blocks;
use crate::copies::copy_over;
use crate::edits::{add_all, put_all};
use crate::flow::Flow;
use crate::locals::{
    add_locals, are_blocks, are_locals_below, block_count, load_locals, put_locals,
};
use crate::span::{Span, part, span_behind};
use abc_base::{NoMemory, Table};
use abc_link_names::Kind;
use abc_verify_typing::{Scope, Stack, State};
use std::alloc::Global;
use std::marker::Model;

/// Where so many states are kept, room is made for many more at once.
const MANY_STATES: usize = 1 << 12;

/// Of so many places one has a state then, as far as there is room.
const PLACES_A_STATE: usize = 2;

/// Where the values of a state lie.
#[derive(Clone, Copy, Debug)]
pub(crate) struct Head {
    pub operands: Span,
    pub scopes: Span,
    /// The blocks of its locals.
    pub locals: Span,
}

/// States, whose values lie one behind the other: so one of them takes no memory of its own. Locals lie in blocks, which states
/// share. Contracts see the list of states.
#[derive(Drop)]
pub(crate) struct Kept {
    heads: Vec<Head>,
    /// The operands of each state, the top first.
    operands: Table<Kind>,
    /// The scopes of each state, the bottom first.
    scopes: Vec<Scope>,
    locals: Blocks,
}

impl Model for Kept {
    ghost use Rattle.std.specs.Prelude.{List, length};
    ghost use Rattle.abc_verify_typing.specs.declared.state.State.{State as AnyState};
    ghost use Rattle.abc_verify_flow.specs.Kept.{AreStatesLaid, states_of};

    ghost Value = { List AnyState };

    ghost view = { λ k. states_of k.operands k.scopes.items k.locals k.heads.items };

    ghost invariant = { λ k. AreStatesLaid k.heads.items (length k.operands) (length k.scopes.items)
        (length k.locals) };
}

/// Where the values of a state lie behind all others.
fn head_behind(
    operands: usize,
    scopes: usize,
    blocks: usize,
    state: &State,
) -> Result<Head, NoMemory>
    ensures { IfOk result (IsHeadBehind operands scopes blocks state.now) }
{
    Ok(Head {
        operands: span_behind(operands, state.stack.len())?,
        scopes: span_behind(scopes, state.scopes.len())?,
        locals: span_behind(blocks, block_count(state.locals.len()))?,
    })
}

/// Where the values of the state of a number lie.
#[inline]
fn head_at(heads: &Vec<Head>, index: usize) -> Head
    requires { index < length heads.now.items }
    ensures { slice_get heads.now.items index ≡ Some result }
{
    heads[index]
}

/// The first block of the last of the states, or 0 where there is none.
fn last_block(heads: &Vec<Head>) -> usize {
    match heads.last() {
        Some(head) => head.locals.first as usize,
        None => 0,
    }
}

/// Adds operands at the end, the top first.
fn add_operands(list: &mut Table<Kind>, stack: &Stack<Kind>) -> Result<(), NoMemory>
    ensures longer { IsLonger list.old list.new }
    ensures ok { OnOk result (list.new ≡ list.old ++ stack.now) }
{
    for depth in 0..stack.len() {
        list.push(stack.get_or(depth, Kind::Any))?;
    }
    Ok(())
}

/// Makes room for so many values more, where a list has many and is full. By doubling it would be copied again and again, and room
/// that no value takes is never touched. Where there is not so much memory, the list grows as ever.
#[inline]
fn make_room<T: Drop>(list: &mut Vec<T>, more: usize)
    ensures { list.new.items ≡ list.old.items }
{
    if list.len() >= MANY_STATES && list.len() == list.capacity() {
        let _ = list.reserve(more);
    }
}

/// Adds where the values of a state lie at the end, where there are so many places.
#[inline]
fn add_head(heads: &mut Vec<Head>, head: Head, places: usize) -> Result<(), NoMemory>
    ensures ok { OnOk result (heads.new.items ≡ heads.old.items ++ head ∷ []) }
    ensures err { OnErr result (heads.new.items ≡ heads.old.items) }
{
    make_room(heads, places / PLACES_A_STATE);
    heads.push(head)?;
    Ok(())
}

/// Puts operands in place of others, the top first.
fn put_operands(list: &mut Table<Kind>, span: Span, stack: &Stack<Kind>)
    requires inside { span.first + span.count ≤ length list.old }
    requires counted { length stack.now ≡ span.count }
    ensures { list.new ≡ over span list.old stack.now }
{
    for depth in 0..span.count as usize {
        list.set(span.first as usize + depth, stack.get_or(depth, Kind::Any));
    }
}

/// Copies operands over a stack, whose memory is used again. Mostly there are none.
fn load_operands(stack: &mut Stack<Kind>, operands: &[Kind]) -> Result<(), NoMemory>
    ensures { OnOk result (stack.new ≡ operands.now) }
{
    stack.clear();
    let mut depth = operands.len();
    while depth > 0 {
        depth -= 1;
        stack.push(operands[depth])?;
    }
    Ok(())
}

/// Whether a state has as many operands and scopes, and blocks of locals, as lie somewhere.
fn fits(head: Head, state: &State) -> bool
    ensures { IsTrue result → HasLengths head state.now }
{
    head.operands.count as usize == state.stack.len()
        && head.scopes.count as usize == state.scopes.len()
        && are_blocks(state.locals.as_slice(), head.locals)
}

impl Kept {
    /// No states. It takes no memory.
    pub(crate) fn new(alloc: Global) -> Kept
        ensures { result ≡ [] }
    {
        Kept {
            heads: Vec::new(alloc),
            operands: Table::new(alloc),
            scopes: Vec::new(alloc),
            locals: Blocks::new(alloc),
        }
    }

    /// How many states there are.
    #[inline]
    pub(crate) fn len(&self) -> usize
        ensures { result ≡ length self.now }
    {
        self.heads.len()
    }

    /// Forgets all states. Their memory is used again.
    pub(crate) fn clear(&mut self)
        ensures { self.new ≡ [] }
    {
        self.heads.clear();
        self.operands.truncate(0);
        self.scopes.clear();
        self.locals.clear();
    }

    /// Forgets all states, and gives their memory back.
    pub(crate) fn release(&mut self)
        ensures { self.new ≡ [] }
    {
        self.clear();
        self.heads.shrink_to_fit();
        self.scopes.shrink_to_fit();
        self.locals.release();
    }

    /// How many values are kept, and blocks of them.
    pub(crate) fn values(&self) -> usize {
        self.operands
            .len()
            .saturating_add(self.scopes.len())
            .saturating_add(self.locals.len())
            .saturating_add(self.locals.kinds())
    }

    /// A copy of a state is kept behind all others, which are those of so many places.
    pub(crate) fn push(&mut self, state: &State, places: usize) -> Result<(), NoMemory>
        ensures ok { OnOk result (self.new ≡ self.old ++ state.now ∷ []) }
        ensures err { OnErr result (self.new ≡ self.old) }
    {
        let head = head_behind(
            self.operands.len(),
            self.scopes.len(),
            self.locals.len(),
            state,
        )?;
        let like = last_block(&self.heads);
        add_operands(&mut self.operands, &state.stack)?;
        add_all(&mut self.scopes, state.scopes.as_slice())?;
        add_locals(
            &mut self.locals,
            head.locals.count,
            state.locals.as_slice(),
            like,
        )?;
        add_head(&mut self.heads, head, places)?;
        Ok(())
    }

    /// Copies the state of a number, which counts from 0, over another, whose memory is used again.
    pub(crate) fn load(&self, index: usize, state: &mut State) -> Result<(), NoMemory>
        requires { index < length self.now }
        ensures { OnOk result (slice_get self.now index ≡ Some state.new) }
    {
        let head = head_at(&self.heads, index);
        load_operands(
            &mut state.stack,
            part(self.operands.as_slice(), head.operands),
        )?;
        copy_over(&mut state.scopes, part(self.scopes.as_slice(), head.scopes))?;
        load_locals(&mut state.locals, &self.locals, head.locals)?;
        Ok(())
    }

    /// Whether a state is seen to be at most that of a number. Where it isn't seen, it may still be so.
    pub(crate) fn is_above<F: Flow>(&self, flow: &F, index: usize, state: &State) -> bool
        requires linked { IsLinkedFile (F.file flow.now) }
        requires inside { index < length self.now }
        ensures { IsTrue result → IsStateBelow (F.file flow.now) self.now index state.now }
    {
        let head = head_at(&self.heads, index);
        if !are_operands_below(
            flow,
            &state.stack,
            part(self.operands.as_slice(), head.operands),
        ) {
            return false;
        }
        if !are_locals_below(flow, state.locals.as_slice(), &self.locals, head.locals) {
            return false;
        }
        are_scopes_below(
            flow,
            state.scopes.as_slice(),
            part(self.scopes.as_slice(), head.scopes),
        )
    }

    /// Puts a state in place of that of a number, if it has as many values, and tells whether it was put.
    pub(crate) fn put(&mut self, index: usize, state: &State) -> Result<bool, NoMemory>
        requires { index < length self.old }
        ensures as_many { length self.new ≡ length self.old }
        ensures put { IfOk result (λ is_put. self.new ≡ cond is_put (set self.old index state.now) self.old) }
    {
        let head = head_at(&self.heads, index);
        if !fits(head, state) {
            return Ok(false);
        }
        put_locals(&mut self.locals, head.locals, state.locals.as_slice())?;
        put_operands(&mut self.operands, head.operands, &state.stack);
        put_all(&mut self.scopes, head.scopes, state.scopes.as_slice());
        Ok(true)
    }
}
