ghost use Rattle.std.specs.Prelude.{◌≡◌, ◌≤◌, ◌∷◌, [], ◌++◌, Err, None, Some};
ghost use Rattle.abc_base.specs.Numbers.{number_bytes};
ghost use Rattle.abc_file_types.specs.Pools.{namespace, namespace_bytes, namespace_code, namespace_kind};
ghost use Rattle.abc_varint.specs.Puts.{Puts};
ghost use Rattle.abc_varint.specs.Reads.{Reads, ReadsPart};
ghost use Rattle.abc_varint.specs.declared.error.ReadError.{ReadError};

use abc_base::{NoMemory, Source};
use abc_file_types::{Namespace, NsKind, Reason};
use abc_varint::{Codec, ReadError, Window, put_u8, put_u30, read_pool_index, read_u8};
use std::alloc::Global;

/// The codec of namespaces, where there are so many strings.
#[derive(Clone, Copy, Debug)]
pub struct Namespaces {
    pub strings: u32,
}

impl Codec for Namespaces {
    type Item = Namespace;

    ghost part = { λ c. namespace c.strings };

    ghost canonical = { namespace_bytes };

    fn read<S: Source>(
        &self,
        _alloc: Global,
        w: &mut Window,
        source: &mut S,
    ) -> Result<Namespace, ReadError> {
        read_namespace(w, source, self.strings)
    }

    fn put(item: &Namespace, out: &mut Vec<u8>) -> Result<(), NoMemory> {
        append_namespace(item, out)
    }
}

/// What a namespace is for: one of seven bytes, or it is refused there by `NamespaceKind`.
#[tactic(auto, unfolding(abc_file_types::specs::Pools::namespace_kind))]
fn read_namespace_kind<S: Source>(w: &mut Window, source: &mut S) -> Result<NsKind, ReadError>
    ensures value { ReadsPart S.left S.faults namespace_kind w.old source.old w.new source.new result }
    ensures no_memory { result ≡ Err ReadError.NoMemory → ⊥ }
{
    let place = w.place();
    match read_u8(w, source)? {
        0x05 => Ok(NsKind::Private),
        0x08 => Ok(NsKind::Namespace),
        0x16 => Ok(NsKind::Package),
        0x17 => Ok(NsKind::PackageInternal),
        0x18 => Ok(NsKind::Protected),
        0x19 => Ok(NsKind::Explicit),
        0x1a => Ok(NsKind::StaticProtected),
        _ => Err(ReadError::Refused {
            place,
            reason: Reason::NamespaceKind,
        }),
    }
}

/// A namespace: its kind, and its name among so many strings.
#[tactic(auto, unfolding(abc_file_types::specs::Pools::namespace))]
fn read_namespace<S: Source>(
    w: &mut Window,
    source: &mut S,
    strings: u32,
) -> Result<Namespace, ReadError>
    ensures value { ReadsPart S.left S.faults (namespace strings) w.old source.old w.new source.new result }
    ensures no_memory { result ≡ Err ReadError.NoMemory → ⊥ }
{
    let kind = read_namespace_kind(w, source)?;
    let name = read_pool_index(w, source, strings)?;
    Ok(Namespace { kind, name })
}

/// The byte of a namespace's kind.
fn kind_byte(kind: NsKind) -> u8
    ensures { result ≡ namespace_code kind }
{
    match kind {
        NsKind::Private => 0x05,
        NsKind::Namespace => 0x08,
        NsKind::Package => 0x16,
        NsKind::PackageInternal => 0x17,
        NsKind::Protected => 0x18,
        NsKind::Explicit => 0x19,
        NsKind::StaticProtected => 0x1a,
    }
}

/// Appends a namespace. Where memory runs out, the old bytes are still the front.
#[tactic(auto, unfolding(abc_file_types::specs::Pools::namespace_bytes), using(abc_varint::proofs::Putting::stays, std::proofs::Common::append_assoc))]
fn append_namespace(space: &Namespace, out: &mut Vec<u8>) -> Result<(), NoMemory>
    ensures { Puts out.old.items out.new.items result (namespace_bytes space.now) }
{
    put_u8(kind_byte(space.kind), out)?;
    put_u30(space.name, out)?;
    Ok(())
}
