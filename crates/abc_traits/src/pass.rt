ghost use Rattle.std.specs.Prelude.{◌≡◌, ◌≤◌, ℕ, [], ◌∷◌, ◌++◌, None, Some, Err, IfOk, length};
ghost use Rattle.abc_file_types.specs.Classes.{definitions, definitions_bytes, sizes_of, sizes_with};
ghost use Rattle.abc_file_types.specs.declared.tables.Abc.{Abc as AnyAbc};
ghost use Rattle.abc_traits.specs.Definitions.{class_tables, class_tables_bytes, tables, tables_bytes, sizes_beside};
ghost use Rattle.abc_varint.specs.Passes.{Passes, PassesPart};
ghost use Rattle.abc_varint.specs.Reads.{Reads, ReadsPart};

use crate::classes::{ClassCodec, InstanceCodec, ScriptCodec};
use crate::methods::{MetadataCodec, MethodCodec};
use abc_base::Source;
use abc_file_types::Sizes;
use abc_varint::{ReadError, Window, pass_counted, pass_times, put_u30, read_u30};
use std::alloc::Global;

/// Passes as many instances as classes, and scripts, over tables of these sizes. Gives how many classes there are.
fn pass_classes<S: Source>(
    alloc: Global,
    w: &mut Window,
    source: &mut S,
    sizes: &Sizes,
    count: u32,
    out: &mut Vec<u8>,
) -> Result<u32, ReadError>
    requires { w.old.kept ≡ None }
    ensures value { PassesPart S.left S.faults (class_tables sizes.now count) class_tables_bytes
        (λ x. length x.1.0) w.old source.old w.new source.new out.old.items out.new.items result }
    ensures count { IfOk result (λ n. n ≡ count) }
{
    pass_times(&InstanceCodec(*sizes), alloc, w, source, count, out)?;
    pass_times(&ClassCodec(*sizes), alloc, w, source, count, out)?;
    pass_counted(&ScriptCodec(*sizes), alloc, w, source, out)?;
    Ok(count)
}

/// Passes the five tables, beside pools of these sizes. Gives how many entries the tables have.
#[tactic(auto, unfolding(crate::specs::Definitions::tables))]
fn pass_tables<S: Source>(
    alloc: Global,
    w: &mut Window,
    source: &mut S,
    pools: &Sizes,
    out: &mut Vec<u8>,
) -> Result<Sizes, ReadError>
    ensures { PassesPart S.left S.faults (tables pools.now) tables_bytes (sizes_beside pools.now) w.old
        source.old w.new source.new out.old.items out.new.items result }
{
    let methods = pass_counted(&MethodCodec(*pools), alloc, w, source, out)?;
    let metadata = pass_counted(&MetadataCodec(*pools), alloc, w, source, out)?;
    let count = read_u30(w, source)?;
    put_u30(count, out)?;
    let sizes = Sizes {
        methods,
        metadata,
        classes: count,
        ..*pools
    };
    pass_classes(alloc, w, source, &sizes, count, out)?;
    Ok(sizes)
}

/// Reads the definitions beside pools of these sizes, as `read_definitions` does, and appends the canonical bytes of each
/// field before the next is read. None is kept: gives how many entries the tables have. After an Err `out` may hold any
/// bytes.
pub fn pass_definitions<S: Source>(
    alloc: Global,
    w: &mut Window,
    source: &mut S,
    pools: &Sizes,
    out: &mut Vec<u8>,
) -> Result<Sizes, ReadError>
    ensures { (abc : AnyAbc) → pools.now ≡ sizes_with abc 0 0 0
        → PassesPart S.left S.faults (definitions abc) definitions_bytes sizes_of w.old source.old w.new
        source.new out.old.items out.new.items result }
{
    pass_tables(alloc, w, source, pools, out)
}
