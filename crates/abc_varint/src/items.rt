ghost use Rattle.abc_base.specs.Numbers.{number_bytes};
ghost use Rattle.abc_file_types.specs.Canonical.{s32_bytes, text_bytes as bytes_of};
ghost use Rattle.abc_file_types.specs.Lists.{bytes_with_count};
ghost use Rattle.abc_file_types.specs.Numbers.{u32 as wide, s32 as signed, index_below as below, pool_index as in_pool, entry_index as of_entry};

use crate::codec::Codec;
use crate::error::ReadError;
use crate::number::{next_entry_index, next_index_below, next_pool_index, next_s32, next_u32};
use crate::put::{put_s32, put_text, put_u30, put_u32};
use crate::text::{pass_text, read_text};
use crate::window::Window;
use abc_base::{Bytes, NoMemory, Source};
use std::alloc::Global;

/// The codec of positions in a table of so many entries, which count from 0.
#[derive(Clone, Copy, Debug)]
pub struct IndexBelow(pub u32);

impl Codec for IndexBelow {
    type Item = u32;

    ghost part = { λ c. below c.0 };

    ghost canonical = { number_bytes };

    fn read<S: Source>(
        &self,
        _alloc: Global,
        w: &mut Window,
        source: &mut S,
    ) -> Result<u32, ReadError> {
        next_index_below(w, source, self.0)
    }

    fn put(item: &u32, out: &mut Vec<u8>) -> Result<(), NoMemory> {
        put_u30(*item, out)
    }
}

/// The codec of indices into a pool of so many entries, which count from 1; 0 names none of them.
#[derive(Clone, Copy, Debug)]
pub struct PoolIndex(pub u32);

impl Codec for PoolIndex {
    type Item = u32;

    ghost part = { λ c. in_pool c.0 };

    ghost canonical = { number_bytes };

    fn read<S: Source>(
        &self,
        _alloc: Global,
        w: &mut Window,
        source: &mut S,
    ) -> Result<u32, ReadError> {
        next_pool_index(w, source, self.0)
    }

    fn put(item: &u32, out: &mut Vec<u8>) -> Result<(), NoMemory> {
        put_u30(*item, out)
    }
}

/// The codec of indices into a pool of so many entries, which count from 1; 0 is refused.
#[derive(Clone, Copy, Debug)]
pub struct EntryIndex(pub u32);

impl Codec for EntryIndex {
    type Item = u32;

    ghost part = { λ c. of_entry c.0 };

    ghost canonical = { number_bytes };

    fn read<S: Source>(
        &self,
        _alloc: Global,
        w: &mut Window,
        source: &mut S,
    ) -> Result<u32, ReadError> {
        next_entry_index(w, source, self.0)
    }

    fn put(item: &u32, out: &mut Vec<u8>) -> Result<(), NoMemory> {
        put_u30(*item, out)
    }
}

/// The codec of numbers of 32 bits.
#[derive(Clone, Copy, Debug)]
pub struct Number32;

impl Codec for Number32 {
    type Item = u32;

    ghost part = { λ _. wide };

    ghost canonical = { number_bytes };

    fn read<S: Source>(
        &self,
        _alloc: Global,
        w: &mut Window,
        source: &mut S,
    ) -> Result<u32, ReadError> {
        next_u32(w, source)
    }

    fn put(item: &u32, out: &mut Vec<u8>) -> Result<(), NoMemory> {
        put_u32(*item, out)
    }
}

/// The codec of numbers of 32 bits in two's complement.
#[derive(Clone, Copy, Debug)]
pub struct Signed32;

impl Codec for Signed32 {
    type Item = i32;

    ghost part = { λ _. signed };

    ghost canonical = { s32_bytes };

    fn read<S: Source>(
        &self,
        _alloc: Global,
        w: &mut Window,
        source: &mut S,
    ) -> Result<i32, ReadError> {
        next_s32(w, source)
    }

    fn put(item: &i32, out: &mut Vec<u8>) -> Result<(), NoMemory> {
        put_s32(*item, out)
    }
}

/// The codec of texts: the number of their bytes, and the bytes.
#[derive(Clone, Copy, Debug)]
pub struct Text;

impl Codec for Text {
    type Item = Bytes;

    ghost part = { λ _. bytes_with_count };

    ghost canonical = { bytes_of };

    fn read<S: Source>(
        &self,
        alloc: Global,
        w: &mut Window,
        source: &mut S,
    ) -> Result<Bytes, ReadError> {
        read_text(alloc, w, source)
    }

    fn put(item: &Bytes, out: &mut Vec<u8>) -> Result<(), NoMemory> {
        put_text(item, out)
    }

    fn pass<S: Source>(
        &self,
        alloc: Global,
        w: &mut Window,
        source: &mut S,
        out: &mut Vec<u8>,
    ) -> Result<(), ReadError> {
        pass_text(alloc, w, source, out)?;
        Ok(())
    }
}
