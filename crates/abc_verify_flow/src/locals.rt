ghost use Rattle.std.specs.Prelude.{◌≡◌, ◌+◌, ◌++◌, ◌*◌, ◌≤◌, drop, length, take, IsTrue, OnOk};
ghost use Rattle.abc_link_names.specs.Kinds.{IsAtMost};
ghost use Rattle.abc_link_names.specs.Linked.{IsLinkedFile};
ghost use Rattle.abc_verify_typing.specs.Lists.{Each2};
ghost use Rattle.abc_verify_flow.specs.Blocks.{blocks_of_64};
ghost use Rattle.abc_verify_flow.specs.Kept.{IsLonger, concat_blocks, over, part};

use crate::below::are_below;
use crate::blocks::Blocks;
use crate::flow::Flow;
use crate::span::Span;
use abc_base::{NoMemory, Table};
use abc_link_names::Kind;

/// So many locals are a block; the last block of a state may have fewer.
const BLOCK: usize = 64;

/// How many blocks so many locals are.
#[inline]
pub(crate) fn block_count(locals: usize) -> usize
    ensures { locals ≤ result * 64 }
{
    locals.div_ceil(BLOCK)
}

/// The locals of the block of a number, which counts from 0.
#[inline]
#[tactic(auto, using(crate::proofs::Cut::no_block))]
fn block_in(locals: &[Kind], index: u32) -> &[Kind]
    ensures { result.now ≡ take 64 (drop (index * 64) locals.now) }
{
    let first = index as usize * BLOCK;
    if first >= locals.len() {
        return &[];
    }
    let left = locals.len() - first;
    if left <= BLOCK {
        return &locals[first..];
    }
    &locals[first..first + BLOCK]
}

/// Adds so many blocks of the locals of a state at the end. Where the blocks from one on have the same kinds, they lie there too.
pub(crate) fn add_locals(
    blocks: &mut Blocks,
    count: u32,
    locals: &[Kind],
    like: usize,
) -> Result<(), NoMemory>
    ensures longer { IsLonger blocks.old blocks.new }
    ensures ok { OnOk result (blocks.new ≡ blocks.old ++ blocks_of_64 count locals.now) }
{
    for index in 0..count {
        blocks.push(block_in(locals, index), like.saturating_add(index as usize))?;
    }
    Ok(())
}

/// Puts the locals of a state in place of others, block by block. Where memory runs out some are put.
pub(crate) fn put_locals(blocks: &mut Blocks, span: Span, locals: &[Kind]) -> Result<(), NoMemory>
    requires { span.first + span.count ≤ length blocks.old }
    ensures as_many { length blocks.new ≡ length blocks.old }
    ensures ok { OnOk result (blocks.new ≡ over span blocks.old (blocks_of_64 span.count locals.now)) }
{
    for index in 0..span.count {
        blocks.put(
            span.first as usize + index as usize,
            block_in(locals, index),
        )?;
    }
    Ok(())
}

/// Copies locals over a list, whose memory is used again.
pub(crate) fn load_locals(
    copy: &mut Table<Kind>,
    blocks: &Blocks,
    span: Span,
) -> Result<(), NoMemory>
    requires { span.first + span.count ≤ length blocks.now }
    ensures { OnOk result (copy.new ≡ concat_blocks (part span blocks.now)) }
{
    copy.truncate(0);
    for index in 0..span.count {
        copy.extend_from_slice(blocks.get(span.first as usize + index as usize))?;
    }
    Ok(())
}

/// Whether locals are seen to be others or below them.
pub(crate) fn are_locals_below<F: Flow>(
    flow: &F,
    locals: &[Kind],
    blocks: &Blocks,
    span: Span,
) -> bool
    requires linked { IsLinkedFile (F.file flow.now) }
    requires inside { span.first + span.count ≤ length blocks.now }
    ensures { IsTrue result
        → Each2 (IsAtMost (F.file flow.now)) locals.now (concat_blocks (part span blocks.now)) }
{
    if !are_blocks(locals, span) {
        return false;
    }
    for index in 0..span.count {
        if !are_below(
            flow,
            block_in(locals, index),
            blocks.get(span.first as usize + index as usize),
        ) {
            return false;
        }
    }
    true
}

/// Whether locals are so many blocks.
pub(crate) fn are_blocks(locals: &[Kind], span: Span) -> bool
    ensures { IsTrue result → length locals.now ≤ span.count * 64 }
{
    block_count(locals.len()) == span.count as usize
}
