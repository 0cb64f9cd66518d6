//! Ranks of nodes, of which nothing is proved but how many there are.

use abc_base::Table;
use abc_base_graphs::ranks_of;
use std::alloc::Global;
use std::test::*;

fn graph(alloc: Global, edges: &[&[u32]]) -> Result<Table<Table<u32>>, Fail> {
    let mut graph = Table::new(alloc);
    for targets in edges {
        let mut table = Table::new(alloc);
        for target in targets.iter() {
            table.push(*target)?;
        }
        graph.push(table)?;
    }
    Ok(graph)
}

#[test]
fn ranks_are_well_chosen(rt: HostRuntime) -> Result<(), Fail> {
    let alloc = rt.alloc();
    let g = graph(alloc, &[&[1], &[2], &[3, 4], &[2], &[], &[0, 4], &[6]])?;
    assert_eq!(rt; g.len(), 7);
    let ranks = ranks_of(alloc, &g)?;
    assert_eq!(rt; ranks.as_slice(), [4, 3, 2, 2, 1, 5, 6].as_slice());
    Ok(())
}
