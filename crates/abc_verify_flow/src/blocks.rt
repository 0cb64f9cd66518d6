ghost use Rattle.std.specs.Prelude.{◌≡◌, ◌++◌, ◌∷◌, ◌<◌, [], Some, length, set, slice_get, IfOk, IsTrue, OnErr, OnOk};
ghost use Rattle.abc_verify_flow.specs.Blocks.{AreAlone, IsBlockFree, IsBlockMarked};
ghost use Rattle.abc_verify_flow.specs.Kept.{IsSpan, part};

use crate::below::are_same;
use crate::edits::{add_all, put_all};
use crate::span::{Span, part, span_behind};
use abc_base::NoMemory;
use abc_link_names::Kind;
use std::alloc::Global;
use std::marker::Model;

/// Where the kinds of a block lie.
#[derive(Clone, Copy, Debug)]
pub(crate) struct Block {
    pub span: Span,
    /// Whether the kinds of another block lie there too.
    pub is_shared: bool,
}

/// Blocks of kinds, of which equal ones may lie in one place. Contracts see the list of blocks.
#[derive(Drop)]
pub(crate) struct Blocks {
    blocks: Vec<Block>,
    kinds: Vec<Kind>,
}

impl Model for Blocks {
    ghost use Rattle.std.specs.Prelude.{List, length};
    ghost use Rattle.abc_link_names.specs.declared.types.Kind.{Kind as AnyKind};
    ghost use Rattle.abc_verify_flow.specs.Blocks.{AreAlone, blocks_of};

    ghost Value = { List (List AnyKind) };

    ghost view = { λ b. blocks_of b.kinds.items b.blocks.items };

    ghost invariant = { λ b. AreAlone b.blocks.items (length b.kinds.items) };
}

/// Where the kinds of the block of a number lie.
#[inline]
fn block_at(blocks: &Vec<Block>, index: usize) -> Block
    requires { index < length blocks.now.items }
    ensures { slice_get blocks.now.items index ≡ Some result }
{
    blocks[index]
}

/// The kinds of the block of a number are those of another too. The answer is where they lie.
fn mark_shared(blocks: &mut Vec<Block>, index: usize) -> Span
    requires { index < length blocks.old.items }
    ensures { IsBlockMarked blocks.old.items blocks.new.items index result }
{
    let span = block_at(blocks, index).span;
    blocks[index] = Block {
        span,
        is_shared: true,
    };
    span
}

/// Whether a block has so many kinds, and no other lies there.
fn is_free(block: Block, count: usize) -> bool
    ensures { IsTrue result → IsBlockFree block count }
{
    !block.is_shared && block.span.count as usize == count
}

/// Adds where the kinds of a block lie at the end.
fn add_block(blocks: &mut Vec<Block>, block: Block) -> Result<(), NoMemory>
    ensures ok { OnOk result (blocks.new.items ≡ blocks.old.items ++ block ∷ []) }
    ensures err { OnErr result (blocks.new.items ≡ blocks.old.items) }
{
    blocks.push(block)?;
    Ok(())
}

/// Puts where the kinds of a block lie in place of where those of the block of a number lay.
#[inline]
fn set_block(blocks: &mut Vec<Block>, index: usize, block: Block)
    requires { index < length blocks.old.items }
    ensures { blocks.new.items ≡ set blocks.old.items index block }
{
    blocks[index] = block;
}

impl Blocks {
    /// No blocks. It takes no memory.
    pub(crate) fn new(alloc: Global) -> Blocks
        ensures { result ≡ [] }
    {
        Blocks {
            blocks: Vec::new(alloc),
            kinds: Vec::new(alloc),
        }
    }

    /// How many blocks there are.
    #[inline]
    pub(crate) fn len(&self) -> usize
        ensures { result ≡ length self.now }
    {
        self.blocks.len()
    }

    /// How many kinds are kept, those that blocks share once.
    pub(crate) fn kinds(&self) -> usize {
        self.kinds.len()
    }

    /// Forgets all blocks. Their memory is used again.
    pub(crate) fn clear(&mut self)
        ensures { self.new ≡ [] }
    {
        self.blocks.clear();
        self.kinds.clear();
    }

    /// Forgets all blocks, and gives their memory back.
    pub(crate) fn release(&mut self)
        ensures { self.new ≡ [] }
    {
        self.clear();
        self.blocks.shrink_to_fit();
        self.kinds.shrink_to_fit();
    }

    /// The block of a number, which counts from 0.
    #[inline]
    pub(crate) fn get(&self, index: usize) -> &[Kind]
        requires { index < length self.now }
        ensures { slice_get self.now index ≡ Some result.now }
    {
        part(self.kinds.as_slice(), block_at(&self.blocks, index).span)
    }

    /// Whether the block of a number has these kinds.
    fn has(&self, index: usize, kinds: &[Kind]) -> bool
        ensures { IsTrue result → slice_get self.now index ≡ Some kinds.now }
    {
        if index >= self.len() {
            return false;
        }
        are_same(self.get(index), kinds)
    }

    /// A block comes behind all others, and lies where that of a number lies, which has its kinds.
    fn push_beside(&mut self, kinds: &[Kind], index: usize) -> Result<(), NoMemory>
        requires { slice_get self.old index ≡ Some kinds.now }
        ensures ok { OnOk result (self.new ≡ self.old ++ kinds.now ∷ []) }
        ensures err { OnErr result (self.new ≡ self.old) }
    {
        let _kinds = kinds;
        let span = mark_shared(&mut self.blocks, index);
        let block = Block {
            span,
            is_shared: true,
        };
        add_block(&mut self.blocks, block)?;
        Ok(())
    }

    /// A block comes behind all others.
    fn push_behind(&mut self, kinds: &[Kind]) -> Result<(), NoMemory>
        ensures ok { OnOk result (self.new ≡ self.old ++ kinds.now ∷ []) }
        ensures err { OnErr result (self.new ≡ self.old) }
    {
        let span = span_behind(self.kinds.len(), kinds.len())?;
        add_all(&mut self.kinds, kinds)?;
        let block = Block {
            span,
            is_shared: false,
        };
        add_block(&mut self.blocks, block)?;
        Ok(())
    }

    /// A block comes behind all others. Where that of a number has the same kinds it lies there too.
    pub(crate) fn push(&mut self, kinds: &[Kind], like: usize) -> Result<(), NoMemory>
        ensures ok { OnOk result (self.new ≡ self.old ++ kinds.now ∷ []) }
        ensures err { OnErr result (self.new ≡ self.old) }
    {
        if self.has(like, kinds) {
            self.push_beside(kinds, like)
        } else {
            self.push_behind(kinds)
        }
    }

    /// The block of a number lies behind all others from now on, with these kinds.
    fn put_behind(&mut self, index: usize, kinds: &[Kind]) -> Result<(), NoMemory>
        requires { index < length self.old }
        ensures ok { OnOk result (self.new ≡ set self.old index kinds.now) }
        ensures err { OnErr result (self.new ≡ self.old) }
    {
        let span = span_behind(self.kinds.len(), kinds.len())?;
        add_all(&mut self.kinds, kinds)?;
        let block = Block {
            span,
            is_shared: false,
        };
        set_block(&mut self.blocks, index, block);
        Ok(())
    }

    /// Puts these kinds in place of the block of a number, where that lies if no other lies there.
    pub(crate) fn put(&mut self, index: usize, kinds: &[Kind]) -> Result<(), NoMemory>
        requires { index < length self.old }
        ensures ok { OnOk result (self.new ≡ set self.old index kinds.now) }
        ensures err { OnErr result (self.new ≡ self.old) }
    {
        let block = block_at(&self.blocks, index);
        if is_free(block, kinds.len()) {
            put_all(&mut self.kinds, block.span, kinds);
            return Ok(());
        }
        if self.has(index, kinds) {
            return Ok(());
        }
        self.put_behind(index, kinds)
    }
}
