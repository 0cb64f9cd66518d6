ghost use Rattle.std.specs.Prelude.{◌≡◌, ◌≤◌, ◌<◌, ◌^◌, ◌++◌, ℕ, None, Some, Err, OnErr, length};
ghost use Rattle.abc_file_types.specs.Lists.{times, count_and_items};
ghost use Rattle.abc_file_types.specs.Part.{both};
ghost use Rattle.abc_file_types.specs.Classes.{instance, class_info, script, sizes_with, definitions, definitions_bytes};
ghost use Rattle.abc_file_types.specs.Sizes.{capped_sizes};
ghost use Rattle.abc_traits.specs.Definitions.{with_later_tables, tables};
ghost use Rattle.abc_varint.specs.Answers.{AnswersPart};
ghost use Rattle.abc_varint.specs.Puts.{Puts, PutsWhole};
ghost use Rattle.abc_varint.specs.Reads.{Reads, ReadsPart, stored_value};

use crate::classes::{ClassCodec, InstanceCodec, ScriptCodec};
use crate::methods::{MetadataCodec, MethodCodec};
use abc_base::{NoMemory, Source, Table};
use abc_file_types::{Abc, ClassInfo, Instance, Metadata, Method, Script, Sizes, sizes_of};
use abc_varint::{
    ReadError, Window, put_count, put_counted, put_items, read_counted, read_times, read_u30,
};
use std::alloc::Global;

/// The tables that definitions fill.
#[derive(Drop)]
pub struct Definitions {
    pub methods: Table<Method>,
    pub metadata: Table<Metadata>,
    /// As many as classes.
    pub instances: Table<Instance>,
    pub classes: Table<ClassInfo>,
    pub scripts: Table<Script>,
}

/// The sizes of the pools, with no methods, metadata or classes.
fn pool_sizes(abc: &Abc) -> Sizes
    ensures { result ≡ capped_sizes (sizes_with abc.now 0 0 0) }
{
    Sizes {
        methods: 0,
        metadata: 0,
        classes: 0,
        ..sizes_of(abc)
    }
}

/// As many instances as classes, and scripts, over tables of these sizes.
fn read_classes<S: Source>(
    alloc: Global,
    w: &mut Window,
    source: &mut S,
    sizes: &Sizes,
    count: u32,
) -> Result<(Table<Instance>, (Table<ClassInfo>, Table<Script>)), ReadError>
    requires { w.old.kept ≡ None }
    ensures { ReadsPart S.left S.faults (both (times count (instance sizes.now))
        (both (times count (class_info sizes.now)) (count_and_items (script sizes.now)))) w.old source.old
        w.new source.new result }
{
    let instances = read_times(&InstanceCodec(*sizes), alloc, w, source, count)?;
    let classes = read_times(&ClassCodec(*sizes), alloc, w, source, count)?;
    let scripts = read_counted(&ScriptCodec(*sizes), alloc, w, source)?;
    Ok((instances, (classes, scripts)))
}

/// All definitions, over pools of these sizes.
#[tactic(auto, unfolding(crate::specs::Definitions::tables))]
fn read_tables<S: Source>(
    alloc: Global,
    w: &mut Window,
    source: &mut S,
    pools: &Sizes,
) -> Result<Definitions, ReadError>
    ensures { ReadsPart S.left S.faults (tables pools.now) w.old source.old w.new source.new result }
{
    let methods = read_counted(&MethodCodec(*pools), alloc, w, source)?;
    let metadata = read_counted(&MetadataCodec(*pools), alloc, w, source)?;
    let count = read_u30(w, source)?;
    let sizes = Sizes {
        methods: methods.len() as u32,
        metadata: metadata.len() as u32,
        classes: count,
        ..*pools
    };
    let (instances, (classes, scripts)) = read_classes(alloc, w, source, &sizes, count)?;
    Ok(Definitions {
        methods,
        metadata,
        instances,
        classes,
        scripts,
    })
}

/// Reads methods, metadata, as many instances as classes, and scripts, with their traits, beside the pools of an Abc,
/// whose tables they replace. After any Err the Abc is as it was.
///
/// The bytes are refused at a number or a byte as by `read_u30` and `read_u8`, and by `Index` where an index is outside
/// its table, by `OptionCount` where a method has more optional values than parameters, by `OptionKind` and `TraitKind`
/// where the kind of a value or of a trait is not known, each at the first byte of what is refused. An index whose kind
/// follows it is tested once the kind is accepted. The window keeps none of these but those of numbers and bytes.
/// `ReadFault` comes only where the source's count of faults rose, and `NoMemory` where memory ran out.
pub fn read_definitions<S: Source>(
    alloc: Global,
    w: &mut Window,
    source: &mut S,
    abc: &mut Abc,
) -> Result<(), ReadError>
    ensures value { ReadsPart S.left S.faults (definitions abc.old) w.old source.old w.new source.new
        (stored_value result abc.new) }
    ensures err { OnErr result (abc.new ≡ abc.old) }
    ensures answers { AnswersPart (definitions abc.old) w.old (S.left source.old) w.new (S.left source.new)
        (stored_value result abc.new) }
{
    let _ = w.place();
    let pools = pool_sizes(abc);
    match read_tables(alloc, w, source, &pools) {
        Ok(found) => {
            abc.methods = found.methods;
            abc.metadata = found.metadata;
            abc.instances = found.instances;
            abc.classes = found.classes;
            abc.scripts = found.scripts;
            Ok(())
        }
        Err(e) => Err(e),
    }
}

#[tactic(auto, unfolding(abc_file_types::specs::Classes::definitions_bytes), using(abc_varint::proofs::Putting::stays, std::proofs::Common::append_assoc))]
fn append_definitions(abc: &Abc, out: &mut Vec<u8>) -> Result<(), NoMemory>
    ensures { Puts out.old.items out.new.items result (definitions_bytes abc.now) }
{
    put_counted::<MethodCodec>(&abc.methods, out)?;
    put_counted::<MetadataCodec>(&abc.metadata, out)?;
    put_count(abc.classes.len(), out)?;
    put_items::<InstanceCodec>(&abc.instances, out)?;
    put_items::<ClassCodec>(&abc.classes, out)?;
    put_counted::<ScriptCodec>(&abc.scripts, out)?;
    Ok(())
}

/// Appends the canonical bytes of the methods, the metadata, the instances, the classes and the scripts. Where the bytes
/// of any list spell the definitions, these do, and none is shorter. Where memory runs out, the bytes stay as they were.
pub fn put_definitions(abc: &Abc, out: &mut Vec<u8>) -> Result<(), NoMemory>
    ensures { PutsWhole out.old.items out.new.items result (definitions_bytes abc.now) }
{
    let len = out.len();
    let done = append_definitions(abc, out);
    if done.is_err() {
        out.truncate(len);
    }
    done
}
