ghost use Rattle.std.specs.Prelude.{◌≡◌, ◌≤◌, ◌∷◌, [], ◌++◌, Err, None, Some};
ghost use Rattle.abc_file_types.specs.Pools.{double, double_bytes};
ghost use Rattle.abc_varint.specs.Puts.{Puts};
ghost use Rattle.abc_varint.specs.Reads.{Reads, ReadsPart};
ghost use Rattle.abc_varint.specs.declared.error.ReadError.{ReadError};

use abc_base::{NoMemory, Source};
use abc_file_types::Eight;
use abc_varint::{Codec, ReadError, Window, read_u8};
use std::alloc::Global;

/// The codec of doubles: the eight bytes of each.
#[derive(Clone, Copy, Debug)]
pub struct Doubles;

impl Codec for Doubles {
    type Item = Eight;

    ghost part = { λ _. double };

    ghost canonical = { double_bytes };

    fn read<S: Source>(
        &self,
        _alloc: Global,
        w: &mut Window,
        source: &mut S,
    ) -> Result<Eight, ReadError> {
        read_double(w, source)
    }

    fn put(item: &Eight, out: &mut Vec<u8>) -> Result<(), NoMemory> {
        out.extend_from_slice(&item.0)?;
        Ok(())
    }
}

/// Eight bytes, in the order in which they stand.
#[tactic(auto, unfolding(abc_file_types::specs::Pools::double))]
fn read_double<S: Source>(w: &mut Window, source: &mut S) -> Result<Eight, ReadError>
    ensures value { ReadsPart S.left S.faults double w.old source.old w.new source.new result }
    ensures no_memory { result ≡ Err ReadError.NoMemory → ⊥ }
{
    let b0 = read_u8(w, source)?;
    let b1 = read_u8(w, source)?;
    let b2 = read_u8(w, source)?;
    let b3 = read_u8(w, source)?;
    let b4 = read_u8(w, source)?;
    let b5 = read_u8(w, source)?;
    let b6 = read_u8(w, source)?;
    let b7 = read_u8(w, source)?;
    Ok(Eight([b0, b1, b2, b3, b4, b5, b6, b7]))
}
