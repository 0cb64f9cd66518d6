ghost use Rattle.std.specs.Prelude.{◌≡◌, ◌<◌, ◌+◌, ◌++◌, ◌^◌, length, IfOk, OnOk};
ghost use Rattle.abc_tidy_refs.specs.Refs.{file_refs};
ghost use Rattle.abc_tidy_entries.specs.Firsts.{IsFirstCyclic};
ghost use Rattle.abc_tidy_entries.specs.NameGraph.{is_name_index, name_graph as graph_of_names, name_indices as indices_of_names, name_targets as targets_of_name, names_among as those_among};
ghost use Rattle.abc_tidy_entries.specs.Kept.{AreRowsKept, row_kept as row_of};

use abc_base::{NoMemory, Table};
use abc_base_graphs::{first_return, reached};
use abc_file_types::{Abc, Multiname, Pool};
use abc_tidy_refs::Ref;
use std::alloc::Global;

/// Whether an index is one of so many names.
fn is_name(count: usize, index: u32) -> bool
    ensures { result ≡ is_name_index count index }
{
    index != 0 && index as usize <= count
}

/// Adds those of some indices that are names.
#[tactic(auto, using(crate::proofs::Filtered::kept_next, crate::proofs::Filtered::left_next))]
fn add_names(targets: &mut Table<u32>, count: usize, indices: &[u32]) -> Result<(), NoMemory>
    ensures { OnOk result (targets.new ≡ targets.old ++ those_among count indices.now) }
{
    for index in indices {
        if is_name(count, *index) {
            targets.push(*index)?;
        }
    }
    Ok(())
}

/// The names that a name leads to.
fn targets_of(alloc: Global, count: usize, name: &Multiname) -> Result<Table<u32>, NoMemory>
    ensures { IfOk result (λ t. t ≡ targets_of_name count name.now) }
{
    let mut targets = Table::new(alloc);
    if let Multiname::TypeName { base, params } = name {
        add_names(&mut targets, count, &[*base])?;
        add_names(&mut targets, count, params.as_slice())?;
    }
    Ok(targets)
}

/// The indices of names among some indices.
fn name_indices(alloc: Global, refs: &[Ref]) -> Result<Table<u32>, NoMemory>
    ensures { IfOk result (λ t. t ≡ indices_of_names refs.now) }
{
    let mut indices = Table::new(alloc);
    for index in refs {
        if index.pool == Pool::Name {
            indices.push(index.index)?;
        }
    }
    Ok(indices)
}

/// The graph of the names: what each leads to, and what the definitions and bodies do.
fn name_graph(alloc: Global, abc: &Abc, refs: &Table<Ref>) -> Result<Table<Table<u32>>, NoMemory>
    requires { refs.now ≡ file_refs abc.now }
    ensures { IfOk result (λ g. g ≡ graph_of_names abc.now) }
{
    let count = abc.names.len();
    let indices = name_indices(alloc, refs.as_slice())?;
    let mut roots = Table::new(alloc);
    add_names(&mut roots, count, indices.as_slice())?;
    let mut graph = Table::new(alloc);
    graph.push(roots)?;
    for name in abc.names.as_slice() {
        let targets = targets_of(alloc, count, name)?;
        graph.push(targets)?;
    }
    Ok(graph)
}

/// What a node leads to, if it is marked.
fn kept_row(
    alloc: Global,
    graph: &Table<Table<u32>>,
    marks: &[bool],
    node: usize,
) -> Result<Table<u32>, NoMemory>
    requires known { node < length graph.now }
    requires marks { length marks.now ≡ length graph.now }
    ensures { IfOk result (λ t. t ≡ row_of marks.now graph.now node) }
{
    if !marks[node] {
        return Ok(Table::new(alloc));
    }
    Table::from_slice(alloc, graph.get(node).as_slice())
}

/// The graph with the edges of its marked nodes alone.
#[tactic(auto, using(crate::proofs::Cyclic::kept_next, crate::proofs::Cyclic::kept_none, crate::proofs::Cyclic::kept_all))]
fn kept_rows(
    alloc: Global,
    graph: &Table<Table<u32>>,
    marks: &[bool],
) -> Result<Table<Table<u32>>, NoMemory>
    requires { length marks.now ≡ length graph.now }
    ensures { IfOk result (λ rows. AreRowsKept marks.now graph.now rows) }
{
    let mut rows = Table::new(alloc);
    for node in 0..graph.len() {
        let row = kept_row(alloc, graph, marks, node)?;
        rows.push(row)?;
    }
    Ok(rows)
}

/// The index of the first name that is visited and reaches itself, if there is one.
#[tactic(auto, using(crate::proofs::Cyclic::names_are_graph, crate::proofs::Cyclic::names_count, crate::proofs::Cyclic::kept_graph))]
pub fn first_cyclic(alloc: Global, abc: &Abc, refs: &Table<Ref>) -> Result<Option<u32>, NoMemory>
    requires refs { refs.now ≡ file_refs abc.now }
    requires few { length (abc.now).names + 1 < 2 ^ 32 }
    ensures { IfOk result (λ r. IsFirstCyclic abc.now r) }
{
    let graph = name_graph(alloc, abc, refs)?;
    let marks = reached(alloc, &graph, 0)?;
    let rows = kept_rows(alloc, &graph, &marks)?;
    let first = first_return(alloc, &rows)?;
    Ok(first)
}
