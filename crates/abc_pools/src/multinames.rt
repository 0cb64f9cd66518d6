ghost use Rattle.std.specs.Prelude.{◌≡◌, ◌≤◌, ◌^◌, ◌∷◌, [], ◌++◌, Err, None, Some};
ghost use Rattle.abc_base.specs.Numbers.{number_bytes};
ghost use Rattle.abc_file_types.specs.Canonical.{counted_bytes};
ghost use Rattle.abc_file_types.specs.Pools.{multiname, multiname_bytes, multiname_code, multiname_fields, multiname_kind, type_fields};
ghost use Rattle.abc_varint.specs.Answers.{AnswersPart};
ghost use Rattle.abc_varint.specs.Passes.{Passes, PassesPart, nothing_told};
ghost use Rattle.abc_varint.specs.Puts.{Puts, PutsWhole};
ghost use Rattle.abc_varint.specs.Reads.{Reads, ReadsPart};
ghost use Rattle.abc_varint.specs.declared.error.ReadError.{ReadError};

use abc_base::{NoMemory, Source};
use abc_file_types::{BoxedList, Multiname, MultinameKind, Reason};
use abc_varint::{
    Codec, PoolIndex, ReadError, Window, pass_counted, put_counted, put_u8, put_u30, read_counted,
    read_entry_index, read_pool_index, read_u8,
};
use std::alloc::Global;

/// The codec of multinames, where there are so many strings, namespaces, sets of namespaces and multinames.
#[derive(Clone, Copy, Debug)]
pub struct Multinames {
    pub strings: u32,
    pub spaces: u32,
    pub sets: u32,
    pub names: u32,
}

impl Codec for Multinames {
    type Item = Multiname;

    ghost part = { λ c. multiname c.strings c.spaces c.sets c.names };

    ghost canonical = { multiname_bytes };

    fn read<S: Source>(
        &self,
        alloc: Global,
        w: &mut Window,
        source: &mut S,
    ) -> Result<Multiname, ReadError> {
        next_multiname(alloc, w, source, self)
    }

    fn put(item: &Multiname, out: &mut Vec<u8>) -> Result<(), NoMemory> {
        append_multiname(item, out)
    }

    fn pass<S: Source>(
        &self,
        alloc: Global,
        w: &mut Window,
        source: &mut S,
        out: &mut Vec<u8>,
    ) -> Result<(), ReadError> {
        pass_multiname(alloc, w, source, self, out)
    }
}

/// What a multiname consists of: one of eleven bytes, or it is refused there by `MultinameKind`.
#[tactic(auto, unfolding(abc_file_types::specs::Pools::multiname_kind))]
fn read_multiname_kind<S: Source>(
    w: &mut Window,
    source: &mut S,
) -> Result<MultinameKind, ReadError>
    ensures value { ReadsPart S.left S.faults multiname_kind w.old source.old w.new source.new result }
    ensures room { w.old.place ≤ 2 ^ 24 }
{
    let place = w.place();
    match read_u8(w, source)? {
        0x07 => Ok(MultinameKind::QName { attr: false }),
        0x0d => Ok(MultinameKind::QName { attr: true }),
        0x0f => Ok(MultinameKind::Rt { attr: false }),
        0x10 => Ok(MultinameKind::Rt { attr: true }),
        0x11 => Ok(MultinameKind::RtL { attr: false }),
        0x12 => Ok(MultinameKind::RtL { attr: true }),
        0x09 => Ok(MultinameKind::Multi { attr: false }),
        0x0e => Ok(MultinameKind::Multi { attr: true }),
        0x1b => Ok(MultinameKind::MultiL { attr: false }),
        0x1c => Ok(MultinameKind::MultiL { attr: true }),
        0x1d => Ok(MultinameKind::TypeName),
        _ => Err(ReadError::Refused {
            place,
            reason: Reason::MultinameKind,
        }),
    }
}

/// The fields that a kind asks for.
fn read_fields<S: Source>(
    alloc: Global,
    w: &mut Window,
    source: &mut S,
    pools: &Multinames,
    kind: MultinameKind,
) -> Result<Multiname, ReadError>
    requires { w.old.kept ≡ None }
    ensures { ReadsPart S.left S.faults
        (multiname_fields pools.now.strings pools.now.spaces pools.now.sets pools.now.names kind) w.old
        source.old w.new source.new result }
{
    match kind {
        MultinameKind::QName { attr } => {
            let ns = read_pool_index(w, source, pools.spaces)?;
            let name = read_pool_index(w, source, pools.strings)?;
            Ok(Multiname::QName { attr, ns, name })
        }
        MultinameKind::Rt { attr } => {
            let name = read_pool_index(w, source, pools.strings)?;
            Ok(Multiname::Rt { attr, name })
        }
        MultinameKind::RtL { attr } => Ok(Multiname::RtL { attr }),
        MultinameKind::Multi { attr } => {
            let name = read_pool_index(w, source, pools.strings)?;
            let set = read_entry_index(w, source, pools.sets)?;
            Ok(Multiname::Multi { attr, name, set })
        }
        MultinameKind::MultiL { attr } => {
            let set = read_entry_index(w, source, pools.sets)?;
            Ok(Multiname::MultiL { attr, set })
        }
        MultinameKind::TypeName => {
            let base = read_entry_index(w, source, pools.names)?;
            let params = read_counted(&PoolIndex(pools.names), alloc, w, source)?;
            let params = BoxedList::new(alloc, params)?;
            Ok(Multiname::TypeName { base, params })
        }
    }
}

/// A kind, and the fields that it asks for.
#[tactic(auto, unfolding(abc_file_types::specs::Pools::multiname))]
fn next_multiname<S: Source>(
    alloc: Global,
    w: &mut Window,
    source: &mut S,
    pools: &Multinames,
) -> Result<Multiname, ReadError>
    ensures value { ReadsPart S.left S.faults
        (multiname pools.now.strings pools.now.spaces pools.now.sets pools.now.names) w.old source.old w.new
        source.new result }
    ensures room { w.old.place ≤ 2 ^ 24 }
{
    let kind = read_multiname_kind(w, source)?;
    let name = read_fields(alloc, w, source, pools, kind)?;
    Ok(name)
}

/// A multiname, where the pools have so many strings, namespaces, sets of namespaces and multinames: a kind byte, and the
/// fields that the kind asks for. Each byte and number is refused as by `read_u8` and `read_u30`; the kind by
/// `MultinameKind` where it is none of the eleven, at its byte; a name, a namespace, a set, a base or a parameter by
/// `Index` where it is above how many there are, or is a set 0 or a base 0, at its first byte. The window does not keep
/// the last two. `ReadFault` comes only where the source's count of faults rose, and `NoMemory` where memory ran out: only
/// parameters take any, and none is reserved for those that have not come.
pub fn read_multiname<S: Source>(
    alloc: Global,
    w: &mut Window,
    source: &mut S,
    strings: u32,
    spaces: u32,
    sets: u32,
    names: u32,
) -> Result<Multiname, ReadError>
    ensures value { ReadsPart S.left S.faults (multiname strings spaces sets names) w.old source.old w.new
        source.new result }
    ensures answers { AnswersPart (multiname strings spaces sets names) w.old (S.left source.old) w.new
        (S.left source.new) result }
{
    let pools = Multinames {
        strings,
        spaces,
        sets,
        names,
    };
    next_multiname(alloc, w, source, &pools)
}

/// Reads a base and parameters, as a multiname of kind 1D has them, and appends their canonical bytes. No parameter is kept.
#[tactic(auto)]
fn pass_type_fields<S: Source>(
    alloc: Global,
    w: &mut Window,
    source: &mut S,
    names: u32,
    out: &mut Vec<u8>,
) -> Result<(), ReadError>
    requires { w.old.kept ≡ None }
    ensures { PassesPart S.left S.faults (type_fields names)
        (λ x. number_bytes x.0 ++ counted_bytes number_bytes x.1) nothing_told w.old source.old w.new
        source.new out.old.items out.new.items result }
{
    let base = read_entry_index(w, source, names)?;
    put_u30(base, out)?;
    pass_counted(&PoolIndex(names), alloc, w, source, out)?;
    Ok(())
}

/// Reads a multiname and appends its canonical bytes, as `read_multiname` and `put_multiname` do, and keeps none of it.
#[tactic(auto, unfolding(abc_file_types::specs::Pools::multiname))]
fn pass_multiname<S: Source>(
    alloc: Global,
    w: &mut Window,
    source: &mut S,
    pools: &Multinames,
    out: &mut Vec<u8>,
) -> Result<(), ReadError>
    ensures { PassesPart S.left S.faults
        (multiname pools.now.strings pools.now.spaces pools.now.sets pools.now.names) multiname_bytes
        nothing_told w.old source.old w.new source.new out.old.items out.new.items result }
{
    let kind = read_multiname_kind(w, source)?;
    if let MultinameKind::TypeName = kind {
        put_u8(0x1d, out)?;
        pass_type_fields(alloc, w, source, pools.names, out)?;
        return Ok(());
    }
    let name = read_fields(alloc, w, source, pools, kind)?;
    append_multiname(&name, out)?;
    Ok(())
}

/// The byte of a multiname's kind.
fn kind_byte(kind: MultinameKind) -> u8
    ensures { result ≡ multiname_code kind }
{
    match kind {
        MultinameKind::QName { attr: false } => 0x07,
        MultinameKind::QName { attr: true } => 0x0d,
        MultinameKind::Rt { attr: false } => 0x0f,
        MultinameKind::Rt { attr: true } => 0x10,
        MultinameKind::RtL { attr: false } => 0x11,
        MultinameKind::RtL { attr: true } => 0x12,
        MultinameKind::Multi { attr: false } => 0x09,
        MultinameKind::Multi { attr: true } => 0x0e,
        MultinameKind::MultiL { attr: false } => 0x1b,
        MultinameKind::MultiL { attr: true } => 0x1c,
        MultinameKind::TypeName => 0x1d,
    }
}

/// Appends a multiname. Where memory runs out, the old bytes are still the front.
#[tactic(auto, using(abc_varint::proofs::Putting::stays, std::proofs::Common::append_assoc))]
fn append_multiname(name: &Multiname, out: &mut Vec<u8>) -> Result<(), NoMemory>
    ensures { Puts out.old.items out.new.items result (multiname_bytes name.now) }
{
    match name {
        Multiname::QName { attr, ns, name } => {
            put_u8(kind_byte(MultinameKind::QName { attr: *attr }), out)?;
            put_u30(*ns, out)?;
            put_u30(*name, out)?;
        }
        Multiname::Rt { attr, name } => {
            put_u8(kind_byte(MultinameKind::Rt { attr: *attr }), out)?;
            put_u30(*name, out)?;
        }
        Multiname::RtL { attr } => put_u8(kind_byte(MultinameKind::RtL { attr: *attr }), out)?,
        Multiname::Multi { attr, name, set } => {
            put_u8(kind_byte(MultinameKind::Multi { attr: *attr }), out)?;
            put_u30(*name, out)?;
            put_u30(*set, out)?;
        }
        Multiname::MultiL { attr, set } => {
            put_u8(kind_byte(MultinameKind::MultiL { attr: *attr }), out)?;
            put_u30(*set, out)?;
        }
        Multiname::TypeName { base, params } => {
            put_u8(kind_byte(MultinameKind::TypeName), out)?;
            put_u30(*base, out)?;
            put_counted::<PoolIndex>(params.list(), out)?;
        }
    }
    Ok(())
}

/// Appends the shortest spelling of a multiname: its kind byte and its fields. `NoMemory` comes where memory ran out, and
/// then the bytes stay as they were.
pub fn put_multiname(name: &Multiname, out: &mut Vec<u8>) -> Result<(), NoMemory>
    ensures { PutsWhole out.old.items out.new.items result (multiname_bytes name.now) }
{
    let len = out.len();
    let done = append_multiname(name, out);
    if done.is_err() {
        out.truncate(len);
    }
    done
}
