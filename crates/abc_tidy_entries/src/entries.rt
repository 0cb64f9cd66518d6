ghost use Rattle.std.specs.Prelude.{◌≡◌, ◌<◌, ◌++◌, ◌^◌, [], map, replicate, IfOk, OnOk};
ghost use Rattle.abc_tidy_refs.specs.Nodes.{counts_of, node_count, node_of, set_node};
ghost use Rattle.abc_tidy_entries.specs.Entries.{graph_of, entry_name_parts as parts_of_name, set_parts, space_parts, value_graph};

use abc_base::{NoMemory, Table};
use abc_base_trees::Rows;
use abc_file_types::{Abc, Multiname, Namespace, Pool};
use abc_tidy_refs::Counts;
use std::alloc::Global;

/// The node of an index of a pool.
#[tactic(auto, using(crate::proofs::Nodes::node_small))]
pub(crate) fn node(counts: &Counts, pool: Pool, index: u32) -> u32
    requires { node_count counts.now < 2 ^ 32 }
    ensures { result ≡ node_of counts.now pool index }
{
    counts.node(pool, index) as u32
}

/// The node of an index of a set.
#[tactic(auto, using(crate::proofs::Nodes::set_node_small))]
fn node_of_set(counts: &Counts, index: u32) -> u32
    requires { node_count counts.now < 2 ^ 32 }
    ensures { result ≡ set_node counts.now index }
{
    counts.set_node(index) as u32
}

/// Adds the nodes of indices of one pool.
fn add_nodes(
    parts: &mut Table<u32>,
    counts: &Counts,
    pool: Pool,
    indices: &Table<u32>,
) -> Result<(), NoMemory>
    requires { node_count counts.now < 2 ^ 32 }
    ensures { OnOk result (parts.new ≡ parts.old ++ map (node_of counts.now pool) indices.now) }
{
    for index in indices.as_slice() {
        parts.push(node(counts, pool, *index))?;
    }
    Ok(())
}

/// Puts the nodes of the entries that a name's indices name in the place of those that there are.
fn put_parts(parts: &mut Table<u32>, counts: &Counts, name: &Multiname) -> Result<(), NoMemory>
    requires { node_count counts.now < 2 ^ 32 }
    ensures { OnOk result (parts.new ≡ parts_of_name counts.now name.now) }
{
    parts.truncate(0);
    match name {
        Multiname::QName { ns, name, .. } => {
            parts.push(node(counts, Pool::Space, *ns))?;
            parts.push(node(counts, Pool::Text, *name))
        }
        Multiname::Rt { name, .. } => parts.push(node(counts, Pool::Text, *name)),
        Multiname::RtL { .. } => Ok(()),
        Multiname::Multi { name, set, .. } => {
            parts.push(node(counts, Pool::Text, *name))?;
            parts.push(node_of_set(counts, *set))
        }
        Multiname::MultiL { set, .. } => parts.push(node_of_set(counts, *set)),
        Multiname::TypeName { base, params } => {
            parts.push(node(counts, Pool::Name, *base))?;
            add_nodes(parts, counts, Pool::Name, params.list())
        }
    }
}

/// Adds so many values, which lead to nothing.
fn add_values(graph: &mut Rows<u32>, count: usize) -> Result<(), NoMemory>
    ensures { OnOk result (graph.new ≡ graph.old ++ replicate count []) }
{
    for _i in 0..count {
        graph.push(&[])?;
    }
    Ok(())
}

fn add_spaces(
    graph: &mut Rows<u32>,
    counts: &Counts,
    spaces: &Table<Namespace>,
) -> Result<(), NoMemory>
    requires { node_count counts.now < 2 ^ 32 }
    ensures { OnOk result (graph.new ≡ graph.old ++ map (space_parts counts.now) spaces.now) }
{
    for space in spaces.as_slice() {
        let name = node(counts, Pool::Text, space.name);
        graph.push(&[name])?;
    }
    Ok(())
}

fn add_sets(
    alloc: Global,
    graph: &mut Rows<u32>,
    counts: &Counts,
    sets: &Table<Table<u32>>,
) -> Result<(), NoMemory>
    requires { node_count counts.now < 2 ^ 32 }
    ensures { OnOk result (graph.new ≡ graph.old ++ map (set_parts counts.now) sets.now) }
{
    let mut parts = Table::new(alloc);
    for set in sets.as_slice() {
        parts.truncate(0);
        add_nodes(&mut parts, counts, Pool::Space, set)?;
        graph.push(parts.as_slice())?;
    }
    Ok(())
}

fn add_names(
    alloc: Global,
    graph: &mut Rows<u32>,
    counts: &Counts,
    names: &Table<Multiname>,
) -> Result<(), NoMemory>
    requires { node_count counts.now < 2 ^ 32 }
    ensures { OnOk result (graph.new ≡ graph.old ++ map (parts_of_name counts.now) names.now) }
{
    let mut parts = Table::new(alloc);
    for name in names.as_slice() {
        put_parts(&mut parts, counts, name)?;
        graph.push(parts.as_slice())?;
    }
    Ok(())
}

/// What node 0 and the entries that have no indices lead to.
fn value_rows(alloc: Global, abc: &Abc) -> Result<Rows<u32>, NoMemory>
    ensures { IfOk result (λ g. g ≡ value_graph abc.now) }
{
    let mut graph = Rows::new(alloc);
    graph.push(&[])?;
    add_values(&mut graph, abc.ints.len())?;
    add_values(&mut graph, abc.uints.len())?;
    add_values(&mut graph, abc.doubles.len())?;
    add_values(&mut graph, abc.strings.len())?;
    Ok(graph)
}

/// The entries of a file's pools as nodes, in file order after node 0: for each the nodes of those that its indices name.
pub fn entries_of(alloc: Global, abc: &Abc, counts: &Counts) -> Result<Rows<u32>, NoMemory>
    requires counts { counts.now ≡ counts_of abc.now }
    requires few { node_count counts.now < 2 ^ 32 }
    ensures { IfOk result (λ g. g ≡ graph_of abc.now) }
{
    let mut graph = value_rows(alloc, abc)?;
    add_spaces(&mut graph, counts, &abc.namespaces)?;
    add_sets(alloc, &mut graph, counts, &abc.sets)?;
    add_names(alloc, &mut graph, counts, &abc.names)?;
    Ok(graph)
}
