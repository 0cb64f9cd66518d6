ghost use Rattle.std.specs.Prelude.{◌≡◌, ◌≤◌, ℕ, [], ◌∷◌, ◌++◌, None, Some, Err, length};
ghost use Rattle.abc_file_types.specs.Lists.{count_and_items};
ghost use Rattle.abc_file_types.specs.Numbers.{pool_index};
ghost use Rattle.abc_file_types.specs.Part.{image, when};
ghost use Rattle.abc_file_types.specs.Classes.{some_index, instance, protected_bytes, instance_bytes, class_info, class_bytes, script, script_bytes};
ghost use Rattle.abc_varint.specs.Passes.{Passes, PassesPart, nothing_told};
ghost use Rattle.abc_varint.specs.Puts.{Puts};
ghost use Rattle.abc_varint.specs.Reads.{Reads, ReadsPart};

use crate::traits::TraitCodec;
use abc_base::{NoMemory, Source};
use abc_file_types::{ClassInfo, HAS_PROTECTED, Instance, Script, Sizes, has_flag};
use abc_varint::{
    Codec, EntryIndex, IndexBelow, PoolIndex, ReadError, Window, pass_counted, put_counted, put_u8,
    put_u30, read_counted, read_entry_index, read_index_below, read_pool_index, read_u8,
};
use std::alloc::Global;

/// A namespace where a flag asks for it.
#[tactic(auto, unfolding(abc_file_types::specs::Part::when))]
fn read_protected_if<S: Source>(
    flag: bool,
    w: &mut Window,
    source: &mut S,
    namespaces: u32,
) -> Result<Option<u32>, ReadError>
    requires { w.old.kept ≡ None }
    ensures { ReadsPart S.left S.faults (when flag None (image some_index (pool_index namespaces))) w.old
        source.old w.new source.new result }
{
    if !flag {
        return Ok(None);
    }
    let namespace = read_pool_index(w, source, namespaces)?;
    Ok(Some(namespace))
}

fn put_protected(namespace: Option<u32>, out: &mut Vec<u8>) -> Result<(), NoMemory>
    ensures { Puts out.old.items out.new.items result (protected_bytes namespace) }
{
    match namespace {
        None => Ok(()),
        Some(index) => put_u30(index, out),
    }
}

#[tactic(auto, unfolding(abc_file_types::specs::Classes::instance))]
fn read_instance<S: Source>(
    alloc: Global,
    w: &mut Window,
    source: &mut S,
    sizes: &Sizes,
) -> Result<Instance, ReadError>
    ensures { ReadsPart S.left S.faults (instance sizes.now) w.old source.old w.new source.new result }
{
    let name = read_entry_index(w, source, sizes.names)?;
    let super_name = read_pool_index(w, source, sizes.names)?;
    let flags = read_u8(w, source)?;
    let has_protected = has_flag(flags, HAS_PROTECTED);
    let protected_ns = read_protected_if(has_protected, w, source, sizes.namespaces)?;
    let interfaces = read_counted(&EntryIndex(sizes.names), alloc, w, source)?;
    let iinit = read_index_below(w, source, sizes.methods)?;
    let traits = read_counted(&TraitCodec(*sizes), alloc, w, source)?;
    Ok(Instance {
        name,
        super_name,
        flags,
        protected_ns,
        interfaces,
        iinit,
        traits,
    })
}

#[tactic(auto, unfolding(abc_file_types::specs::Classes::instance_bytes), using(abc_varint::proofs::Putting::stays, std::proofs::Common::append_assoc))]
fn put_instance(instance: &Instance, out: &mut Vec<u8>) -> Result<(), NoMemory>
    ensures { Puts out.old.items out.new.items result (instance_bytes instance.now) }
{
    put_u30(instance.name, out)?;
    put_u30(instance.super_name, out)?;
    put_u8(instance.flags, out)?;
    put_protected(instance.protected_ns, out)?;
    put_counted::<EntryIndex>(&instance.interfaces, out)?;
    put_u30(instance.iinit, out)?;
    put_counted::<TraitCodec>(&instance.traits, out)?;
    Ok(())
}

/// Passes a namespace where a flag asks for it.
#[tactic(auto, unfolding(abc_file_types::specs::Part::when))]
fn pass_protected_if<S: Source>(
    flag: bool,
    alloc: Global,
    w: &mut Window,
    source: &mut S,
    namespaces: u32,
    out: &mut Vec<u8>,
) -> Result<(), ReadError>
    requires { w.old.kept ≡ None }
    ensures { PassesPart S.left S.faults (when flag None (image some_index (pool_index namespaces)))
        protected_bytes nothing_told w.old source.old w.new source.new out.old.items out.new.items result }
{
    if flag {
        PoolIndex(namespaces).pass(alloc, w, source, out)?;
    }
    Ok(())
}

/// Reads an instance and appends its canonical bytes; none of it is kept.
#[tactic(auto, unfolding(abc_file_types::specs::Classes::instance, abc_file_types::specs::Classes::instance_bytes))]
fn pass_instance<S: Source>(
    alloc: Global,
    w: &mut Window,
    source: &mut S,
    sizes: &Sizes,
    out: &mut Vec<u8>,
) -> Result<(), ReadError>
    ensures { PassesPart S.left S.faults (instance sizes.now) instance_bytes nothing_told w.old source.old
        w.new source.new out.old.items out.new.items result }
{
    EntryIndex(sizes.names).pass(alloc, w, source, out)?;
    PoolIndex(sizes.names).pass(alloc, w, source, out)?;
    let flags = read_u8(w, source)?;
    put_u8(flags, out)?;
    let has_protected = has_flag(flags, HAS_PROTECTED);
    pass_protected_if(has_protected, alloc, w, source, sizes.namespaces, out)?;
    pass_counted(&EntryIndex(sizes.names), alloc, w, source, out)?;
    IndexBelow(sizes.methods).pass(alloc, w, source, out)?;
    pass_counted(&TraitCodec(*sizes), alloc, w, source, out)?;
    Ok(())
}

/// Instances, over tables of these sizes.
#[derive(Clone, Copy, Debug)]
pub struct InstanceCodec(pub Sizes);

impl Codec for InstanceCodec {
    type Item = Instance;

    ghost part = { λ c. instance c.0 };

    ghost canonical = { instance_bytes };

    fn read<S: Source>(
        &self,
        alloc: Global,
        w: &mut Window,
        source: &mut S,
    ) -> Result<Instance, ReadError> {
        read_instance(alloc, w, source, &self.0)
    }

    fn put(item: &Instance, out: &mut Vec<u8>) -> Result<(), NoMemory> {
        put_instance(item, out)
    }

    fn pass<S: Source>(
        &self,
        alloc: Global,
        w: &mut Window,
        source: &mut S,
        out: &mut Vec<u8>,
    ) -> Result<(), ReadError> {
        pass_instance(alloc, w, source, &self.0, out)
    }
}

#[tactic(auto, unfolding(abc_file_types::specs::Classes::class_info))]
fn read_class<S: Source>(
    alloc: Global,
    w: &mut Window,
    source: &mut S,
    sizes: &Sizes,
) -> Result<ClassInfo, ReadError>
    ensures { ReadsPart S.left S.faults (class_info sizes.now) w.old source.old w.new source.new result }
{
    let cinit = read_index_below(w, source, sizes.methods)?;
    let traits = read_counted(&TraitCodec(*sizes), alloc, w, source)?;
    Ok(ClassInfo { cinit, traits })
}

#[tactic(auto, unfolding(abc_file_types::specs::Classes::class_bytes), using(abc_varint::proofs::Putting::stays, std::proofs::Common::append_assoc))]
fn put_class(class: &ClassInfo, out: &mut Vec<u8>) -> Result<(), NoMemory>
    ensures { Puts out.old.items out.new.items result (class_bytes class.now) }
{
    put_u30(class.cinit, out)?;
    put_counted::<TraitCodec>(&class.traits, out)?;
    Ok(())
}

/// Reads a method and traits and appends their canonical bytes; none of them is kept.
#[tactic(auto, unfolding(abc_file_types::specs::Classes::class_info, abc_file_types::specs::Classes::class_bytes))]
fn pass_class<S: Source>(
    alloc: Global,
    w: &mut Window,
    source: &mut S,
    sizes: &Sizes,
    out: &mut Vec<u8>,
) -> Result<(), ReadError>
    ensures { PassesPart S.left S.faults (class_info sizes.now) class_bytes nothing_told w.old source.old
        w.new source.new out.old.items out.new.items result }
{
    IndexBelow(sizes.methods).pass(alloc, w, source, out)?;
    pass_counted(&TraitCodec(*sizes), alloc, w, source, out)?;
    Ok(())
}

/// What class objects are, over tables of these sizes.
#[derive(Clone, Copy, Debug)]
pub struct ClassCodec(pub Sizes);

impl Codec for ClassCodec {
    type Item = ClassInfo;

    ghost part = { λ c. class_info c.0 };

    ghost canonical = { class_bytes };

    fn read<S: Source>(
        &self,
        alloc: Global,
        w: &mut Window,
        source: &mut S,
    ) -> Result<ClassInfo, ReadError> {
        read_class(alloc, w, source, &self.0)
    }

    fn put(item: &ClassInfo, out: &mut Vec<u8>) -> Result<(), NoMemory> {
        put_class(item, out)
    }

    fn pass<S: Source>(
        &self,
        alloc: Global,
        w: &mut Window,
        source: &mut S,
        out: &mut Vec<u8>,
    ) -> Result<(), ReadError> {
        pass_class(alloc, w, source, &self.0, out)
    }
}

#[tactic(auto, unfolding(abc_file_types::specs::Classes::script))]
fn read_script<S: Source>(
    alloc: Global,
    w: &mut Window,
    source: &mut S,
    sizes: &Sizes,
) -> Result<Script, ReadError>
    ensures { ReadsPart S.left S.faults (script sizes.now) w.old source.old w.new source.new result }
{
    let init = read_index_below(w, source, sizes.methods)?;
    let traits = read_counted(&TraitCodec(*sizes), alloc, w, source)?;
    Ok(Script { init, traits })
}

#[tactic(auto, unfolding(abc_file_types::specs::Classes::script_bytes), using(abc_varint::proofs::Putting::stays, std::proofs::Common::append_assoc))]
fn put_script(script: &Script, out: &mut Vec<u8>) -> Result<(), NoMemory>
    ensures { Puts out.old.items out.new.items result (script_bytes script.now) }
{
    put_u30(script.init, out)?;
    put_counted::<TraitCodec>(&script.traits, out)?;
    Ok(())
}

/// Reads a method and traits and appends their canonical bytes; none of them is kept.
#[tactic(auto, unfolding(abc_file_types::specs::Classes::script, abc_file_types::specs::Classes::script_bytes))]
fn pass_script<S: Source>(
    alloc: Global,
    w: &mut Window,
    source: &mut S,
    sizes: &Sizes,
    out: &mut Vec<u8>,
) -> Result<(), ReadError>
    ensures { PassesPart S.left S.faults (script sizes.now) script_bytes nothing_told w.old source.old w.new
        source.new out.old.items out.new.items result }
{
    IndexBelow(sizes.methods).pass(alloc, w, source, out)?;
    pass_counted(&TraitCodec(*sizes), alloc, w, source, out)?;
    Ok(())
}

/// Scripts, over tables of these sizes.
#[derive(Clone, Copy, Debug)]
pub struct ScriptCodec(pub Sizes);

impl Codec for ScriptCodec {
    type Item = Script;

    ghost part = { λ c. script c.0 };

    ghost canonical = { script_bytes };

    fn read<S: Source>(
        &self,
        alloc: Global,
        w: &mut Window,
        source: &mut S,
    ) -> Result<Script, ReadError> {
        read_script(alloc, w, source, &self.0)
    }

    fn put(item: &Script, out: &mut Vec<u8>) -> Result<(), NoMemory> {
        put_script(item, out)
    }

    fn pass<S: Source>(
        &self,
        alloc: Global,
        w: &mut Window,
        source: &mut S,
        out: &mut Vec<u8>,
    ) -> Result<(), ReadError> {
        pass_script(alloc, w, source, &self.0, out)
    }
}
