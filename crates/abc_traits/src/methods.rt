ghost use Rattle.std.specs.Prelude.{◌≡◌, ◌≤◌, ◌*◌, ◌/◌, ℕ, [], ◌∷◌, ◌++◌, None, Some, Err, length, not, nat_eq, bit_and};
ghost use Rattle.abc_file_types.specs.Lists.{times};
ghost use Rattle.abc_file_types.specs.Part.{when};
ghost use Rattle.abc_file_types.specs.Methods.{method, method_bytes, metadata, metadata_bytes};
ghost use Rattle.abc_varint.specs.Passes.{Passes, PassesPart, nothing_told};
ghost use Rattle.abc_varint.specs.Puts.{Puts};
ghost use Rattle.abc_varint.specs.Reads.{Reads, ReadsPart};

use crate::lists::{Number30, pass_times_if, put_counted_if, put_items_if, read_times_if};
use crate::options::{OptionCodec, pass_options_if, read_options_if};
use abc_base::{NoMemory, Source};
use abc_file_types::{HAS_OPTIONAL, HAS_PARAM_NAMES, Metadata, Method, Sizes, has_flag};
use abc_varint::{
    Codec, PoolIndex, ReadError, Window, pass_times, put_count, put_items, put_u8, put_u30,
    read_pool_index, read_times, read_u8, read_u30,
};
use std::alloc::Global;

#[tactic(auto, unfolding(abc_file_types::specs::Methods::method))]
fn read_method<S: Source>(
    alloc: Global,
    w: &mut Window,
    source: &mut S,
    sizes: &Sizes,
) -> Result<Method, ReadError>
    ensures { ReadsPart S.left S.faults (method sizes.now) w.old source.old w.new source.new result }
{
    let count = read_u30(w, source)?;
    let ret = read_pool_index(w, source, sizes.names)?;
    let params = read_times(&PoolIndex(sizes.names), alloc, w, source, count)?;
    let name = read_pool_index(w, source, sizes.strings)?;
    let flags = read_u8(w, source)?;
    let optional = has_flag(flags, HAS_OPTIONAL);
    let options = read_options_if(optional, alloc, w, source, sizes, count)?;
    let named = has_flag(flags, HAS_PARAM_NAMES);
    let param_names = read_times_if(named, &Number30, alloc, w, source, count)?;
    Ok(Method {
        ret,
        params,
        name,
        flags,
        options,
        param_names,
    })
}

#[tactic(auto, unfolding(abc_file_types::specs::Methods::method_bytes), using(abc_varint::proofs::Putting::stays, std::proofs::Common::append_assoc))]
fn put_method(method: &Method, out: &mut Vec<u8>) -> Result<(), NoMemory>
    ensures { Puts out.old.items out.new.items result (method_bytes method.now) }
{
    put_count(method.params.len(), out)?;
    put_u30(method.ret, out)?;
    put_items::<PoolIndex>(&method.params, out)?;
    put_u30(method.name, out)?;
    put_u8(method.flags, out)?;
    let optional = has_flag(method.flags, HAS_OPTIONAL);
    put_counted_if::<OptionCodec>(optional, &method.options, out)?;
    let named = has_flag(method.flags, HAS_PARAM_NAMES);
    put_items_if::<Number30>(named, &method.param_names, out)?;
    Ok(())
}

/// Reads a method and appends its canonical bytes; none of it is kept.
#[tactic(auto, unfolding(abc_file_types::specs::Methods::method, abc_file_types::specs::Methods::method_bytes))]
fn pass_method<S: Source>(
    alloc: Global,
    w: &mut Window,
    source: &mut S,
    sizes: &Sizes,
    out: &mut Vec<u8>,
) -> Result<(), ReadError>
    ensures { PassesPart S.left S.faults (method sizes.now) method_bytes nothing_told w.old source.old w.new
        source.new out.old.items out.new.items result }
{
    let count = read_u30(w, source)?;
    put_u30(count, out)?;
    PoolIndex(sizes.names).pass(alloc, w, source, out)?;
    pass_times(&PoolIndex(sizes.names), alloc, w, source, count, out)?;
    PoolIndex(sizes.strings).pass(alloc, w, source, out)?;
    let flags = read_u8(w, source)?;
    put_u8(flags, out)?;
    let optional = has_flag(flags, HAS_OPTIONAL);
    pass_options_if(optional, alloc, w, source, sizes, count, out)?;
    let named = has_flag(flags, HAS_PARAM_NAMES);
    pass_times_if(named, &Number30, alloc, w, source, count, out)?;
    Ok(())
}

/// Methods, over tables of these sizes.
#[derive(Clone, Copy, Debug)]
pub struct MethodCodec(pub Sizes);

impl Codec for MethodCodec {
    type Item = Method;

    ghost part = { λ c. method c.0 };

    ghost canonical = { method_bytes };

    fn read<S: Source>(
        &self,
        alloc: Global,
        w: &mut Window,
        source: &mut S,
    ) -> Result<Method, ReadError> {
        read_method(alloc, w, source, &self.0)
    }

    fn put(item: &Method, out: &mut Vec<u8>) -> Result<(), NoMemory> {
        put_method(item, out)
    }

    fn pass<S: Source>(
        &self,
        alloc: Global,
        w: &mut Window,
        source: &mut S,
        out: &mut Vec<u8>,
    ) -> Result<(), ReadError> {
        pass_method(alloc, w, source, &self.0, out)
    }
}

/// A name, a count, and twice as many strings.
#[tactic(auto, unfolding(abc_file_types::specs::Methods::metadata))]
fn read_metadata<S: Source>(
    alloc: Global,
    w: &mut Window,
    source: &mut S,
    sizes: &Sizes,
) -> Result<Metadata, ReadError>
    ensures { ReadsPart S.left S.faults (metadata sizes.now) w.old source.old w.new source.new result }
{
    let name = read_pool_index(w, source, sizes.strings)?;
    let count = read_u30(w, source)?;
    let items = read_times(&PoolIndex(sizes.strings), alloc, w, source, 2 * count)?;
    Ok(Metadata { name, items })
}

#[tactic(auto, unfolding(abc_file_types::specs::Methods::metadata_bytes), using(abc_varint::proofs::Putting::stays, std::proofs::Common::append_assoc))]
fn put_metadata(metadata: &Metadata, out: &mut Vec<u8>) -> Result<(), NoMemory>
    ensures { Puts out.old.items out.new.items result (metadata_bytes metadata.now) }
{
    put_u30(metadata.name, out)?;
    put_count(metadata.items.len() / 2, out)?;
    put_items::<PoolIndex>(&metadata.items, out)?;
    Ok(())
}

/// Reads metadata and appends its canonical bytes; none of it is kept.
#[tactic(auto, unfolding(abc_file_types::specs::Methods::metadata, abc_file_types::specs::Methods::metadata_bytes))]
fn pass_metadata<S: Source>(
    alloc: Global,
    w: &mut Window,
    source: &mut S,
    sizes: &Sizes,
    out: &mut Vec<u8>,
) -> Result<(), ReadError>
    ensures { PassesPart S.left S.faults (metadata sizes.now) metadata_bytes nothing_told w.old source.old
        w.new source.new out.old.items out.new.items result }
{
    PoolIndex(sizes.strings).pass(alloc, w, source, out)?;
    let count = read_u30(w, source)?;
    put_u30(count, out)?;
    pass_times(&PoolIndex(sizes.strings), alloc, w, source, 2 * count, out)?;
    Ok(())
}

/// Metadata, over tables of these sizes.
#[derive(Clone, Copy, Debug)]
pub struct MetadataCodec(pub Sizes);

impl Codec for MetadataCodec {
    type Item = Metadata;

    ghost part = { λ c. metadata c.0 };

    ghost canonical = { metadata_bytes };

    fn read<S: Source>(
        &self,
        alloc: Global,
        w: &mut Window,
        source: &mut S,
    ) -> Result<Metadata, ReadError> {
        read_metadata(alloc, w, source, &self.0)
    }

    fn put(item: &Metadata, out: &mut Vec<u8>) -> Result<(), NoMemory> {
        put_metadata(item, out)
    }

    fn pass<S: Source>(
        &self,
        alloc: Global,
        w: &mut Window,
        source: &mut S,
        out: &mut Vec<u8>,
    ) -> Result<(), ReadError> {
        pass_metadata(alloc, w, source, &self.0, out)
    }
}
