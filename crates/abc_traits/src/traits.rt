ghost use Rattle.std.specs.Prelude.{◌≡◌, ◌≤◌, ◌+◌, ◌*◌, ◌%◌, ◌/◌, ℕ, [], ◌∷◌, ◌++◌, None, Some, Err};
ghost use Rattle.abc_base.specs.Numbers.{number_bytes};
ghost use Rattle.abc_file_types.specs.Numbers.{u30, index_below, pool_index};
ghost use Rattle.abc_file_types.specs.Part.{both, image};
ghost use Rattle.abc_file_types.specs.declared.traits.TraitBody.TheVariants as bodies;
ghost use Rattle.abc_file_types.specs.Traits.{slot_value, slot_value_bytes, trait_code, trait_kind, trait_kind_in, trait_fields, trait_fields_bytes, trait_info, trait_bytes};
ghost use Rattle.abc_varint.specs.Passes.{Passes, PassesPart, nothing_told};
ghost use Rattle.abc_varint.specs.Puts.{Puts};
ghost use Rattle.abc_varint.specs.Reads.{Reads, ReadsPart};

use crate::lists::{pass_counted_if, put_counted_if, read_counted_if};
use crate::options::{put_slot_value, read_slot_value};
use abc_base::{NoMemory, Source};
use abc_file_types::{
    HAS_METADATA, OptionValue, Reason, Sizes, TraitBody, TraitInfo, TraitKind, has_flag,
};
use abc_varint::{
    Codec, EntryIndex, IndexBelow, ReadError, Window, put_u8, put_u30, read_entry_index,
    read_index_below, read_pool_index, read_u8, read_u30,
};
use std::alloc::Global;

/// The kind of a trait, and its attributes.
#[tactic(auto, unfolding(abc_file_types::specs::Traits::trait_kind))]
fn read_trait_kind<S: Source>(w: &mut Window, source: &mut S) -> Result<(TraitKind, u8), ReadError>
    ensures { ReadsPart S.left S.faults trait_kind w.old source.old w.new source.new result }
{
    let place = w.place();
    let byte = read_u8(w, source)?;
    let kind = match byte % 16 {
        0 => TraitKind::Slot,
        1 => TraitKind::Method,
        2 => TraitKind::Getter,
        3 => TraitKind::Setter,
        4 => TraitKind::Class,
        5 => TraitKind::Function,
        6 => TraitKind::Const,
        _ => {
            return Err(ReadError::Refused {
                place,
                reason: Reason::TraitKind,
            });
        }
    };
    Ok((kind, byte / 16 % 16))
}

/// A number, and a position in a table of n entries.
fn read_pair<S: Source>(w: &mut Window, source: &mut S, n: u32) -> Result<(u32, u32), ReadError>
    ensures { ReadsPart S.left S.faults (both u30 (index_below n)) w.old source.old w.new source.new result }
{
    let number = read_u30(w, source)?;
    let index = read_index_below(w, source, n)?;
    Ok((number, index))
}

/// A slot or a constant.
fn read_slot<S: Source>(
    w: &mut Window,
    source: &mut S,
    sizes: &Sizes,
    constant: bool,
) -> Result<TraitBody, ReadError>
    ensures { ReadsPart S.left S.faults (image (λ x. bodies.Slot x.0 x.1.0 x.1.1 constant)
        (both u30 (both (pool_index (sizes.now).names) (slot_value sizes.now)))) w.old source.old w.new
        source.new result }
{
    let id = read_u30(w, source)?;
    let ty = read_pool_index(w, source, sizes.names)?;
    let value = read_slot_value(w, source, sizes)?;
    Ok(TraitBody::Slot {
        id,
        ty,
        value,
        constant,
    })
}

/// What a trait of a kind declares.
fn read_trait_fields<S: Source>(
    w: &mut Window,
    source: &mut S,
    sizes: &Sizes,
    kind: TraitKind,
) -> Result<TraitBody, ReadError>
    ensures { ReadsPart S.left S.faults (trait_fields sizes.now kind) w.old source.old w.new source.new
        result }
{
    match kind {
        TraitKind::Slot => read_slot(w, source, sizes, false),
        TraitKind::Method => {
            let (disp, method) = read_pair(w, source, sizes.methods)?;
            Ok(TraitBody::Method { disp, method })
        }
        TraitKind::Getter => {
            let (disp, method) = read_pair(w, source, sizes.methods)?;
            Ok(TraitBody::Getter { disp, method })
        }
        TraitKind::Setter => {
            let (disp, method) = read_pair(w, source, sizes.methods)?;
            Ok(TraitBody::Setter { disp, method })
        }
        TraitKind::Class => {
            let (id, class) = read_pair(w, source, sizes.classes)?;
            Ok(TraitBody::Class { id, class })
        }
        TraitKind::Function => {
            let (id, method) = read_pair(w, source, sizes.methods)?;
            Ok(TraitBody::Function { id, method })
        }
        TraitKind::Const => read_slot(w, source, sizes, true),
    }
}

#[tactic(auto, unfolding(abc_file_types::specs::Traits::trait_info))]
fn read_trait<S: Source>(
    alloc: Global,
    w: &mut Window,
    source: &mut S,
    sizes: &Sizes,
) -> Result<TraitInfo, ReadError>
    ensures { ReadsPart S.left S.faults (trait_info sizes.now) w.old source.old w.new source.new result }
{
    let name = read_entry_index(w, source, sizes.names)?;
    let (kind, attrs) = read_trait_kind(w, source)?;
    let body = read_trait_fields(w, source, sizes, kind)?;
    let described = has_flag(attrs, HAS_METADATA);
    let metadata = read_counted_if(described, &IndexBelow(sizes.metadata), alloc, w, source)?;
    Ok(TraitInfo {
        name,
        attrs,
        body,
        metadata,
    })
}

/// The low four bits of a trait's kind byte.
fn code_of(body: &TraitBody) -> u8
    ensures is { result ≡ trait_code (trait_kind_in body.now) }
    ensures bound { result ≤ 6 }
{
    match body {
        TraitBody::Slot {
            constant: false,
            ..
        } => 0,
        TraitBody::Method { .. } => 1,
        TraitBody::Getter { .. } => 2,
        TraitBody::Setter { .. } => 3,
        TraitBody::Class { .. } => 4,
        TraitBody::Function { .. } => 5,
        TraitBody::Slot { constant: true, .. } => 6,
    }
}

#[tactic(auto, using(abc_varint::proofs::Putting::stays, std::proofs::Common::append_assoc))]
fn put_pair(number: u32, index: u32, out: &mut Vec<u8>) -> Result<(), NoMemory>
    ensures { Puts out.old.items out.new.items result (number_bytes number ++ number_bytes index) }
{
    put_u30(number, out)?;
    put_u30(index, out)?;
    Ok(())
}

#[tactic(auto, using(abc_varint::proofs::Putting::stays, std::proofs::Common::append_assoc))]
fn put_slot(
    id: u32,
    ty: u32,
    value: &Option<OptionValue>,
    out: &mut Vec<u8>,
) -> Result<(), NoMemory>
    ensures { Puts out.old.items out.new.items result
        (number_bytes id ++ number_bytes ty ++ slot_value_bytes value.now) }
{
    put_u30(id, out)?;
    put_u30(ty, out)?;
    put_slot_value(value, out)?;
    Ok(())
}

fn put_trait_fields(body: &TraitBody, out: &mut Vec<u8>) -> Result<(), NoMemory>
    ensures { Puts out.old.items out.new.items result (trait_fields_bytes body.now) }
{
    match *body {
        TraitBody::Slot { id, ty, value, .. } => put_slot(id, ty, &value, out),
        TraitBody::Method { disp, method } => put_pair(disp, method, out),
        TraitBody::Getter { disp, method } => put_pair(disp, method, out),
        TraitBody::Setter { disp, method } => put_pair(disp, method, out),
        TraitBody::Class { id, class } => put_pair(id, class, out),
        TraitBody::Function { id, method } => put_pair(id, method, out),
    }
}

#[tactic(auto, unfolding(abc_file_types::specs::Traits::trait_bytes), using(abc_varint::proofs::Putting::stays, std::proofs::Common::append_assoc))]
fn put_trait(info: &TraitInfo, out: &mut Vec<u8>) -> Result<(), NoMemory>
    ensures { Puts out.old.items out.new.items result (trait_bytes info.now) }
{
    put_u30(info.name, out)?;
    put_u8(16 * (info.attrs % 16) + code_of(&info.body), out)?;
    put_trait_fields(&info.body, out)?;
    let described = has_flag(info.attrs, HAS_METADATA);
    put_counted_if::<IndexBelow>(described, &info.metadata, out)?;
    Ok(())
}

/// Reads a trait and appends its canonical bytes; none of it is kept.
#[tactic(auto, unfolding(abc_file_types::specs::Traits::trait_info, abc_file_types::specs::Traits::trait_bytes))]
fn pass_trait<S: Source>(
    alloc: Global,
    w: &mut Window,
    source: &mut S,
    sizes: &Sizes,
    out: &mut Vec<u8>,
) -> Result<(), ReadError>
    ensures { PassesPart S.left S.faults (trait_info sizes.now) trait_bytes nothing_told w.old source.old
        w.new source.new out.old.items out.new.items result }
{
    EntryIndex(sizes.names).pass(alloc, w, source, out)?;
    let (kind, attrs) = read_trait_kind(w, source)?;
    let body = read_trait_fields(w, source, sizes, kind)?;
    put_u8(16 * (attrs % 16) + code_of(&body), out)?;
    put_trait_fields(&body, out)?;
    let described = has_flag(attrs, HAS_METADATA);
    pass_counted_if(
        described,
        &IndexBelow(sizes.metadata),
        alloc,
        w,
        source,
        out,
    )?;
    Ok(())
}

/// Traits, over tables of these sizes.
#[derive(Clone, Copy, Debug)]
pub struct TraitCodec(pub Sizes);

impl Codec for TraitCodec {
    type Item = TraitInfo;

    ghost part = { λ c. trait_info c.0 };

    ghost canonical = { trait_bytes };

    /// Reads a trait. Its name is refused by `Index` where it is 0 or no multiname, its kind byte by `TraitKind`, an
    /// index of its fields or of its metadata by `Index`, and the kind of a slot's value by `OptionKind`, each at its
    /// first byte.
    fn read<S: Source>(
        &self,
        alloc: Global,
        w: &mut Window,
        source: &mut S,
    ) -> Result<TraitInfo, ReadError> {
        read_trait(alloc, w, source, &self.0)
    }

    /// Appends a trait. Of its attributes the low four bits count.
    fn put(item: &TraitInfo, out: &mut Vec<u8>) -> Result<(), NoMemory> {
        put_trait(item, out)
    }

    fn pass<S: Source>(
        &self,
        alloc: Global,
        w: &mut Window,
        source: &mut S,
        out: &mut Vec<u8>,
    ) -> Result<(), ReadError> {
        pass_trait(alloc, w, source, &self.0, out)
    }
}
