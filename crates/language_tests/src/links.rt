//! A walk along links: what no contract says, that each place is come to once.

use std::alloc::{AllocError, Global};
use std::test::Fail;
use td_graph::{Graph, Leads, reached};

const LINKS: &[(usize, usize)] = &[(0, 1), (1, 2), (2, 1), (1, 3), (3, 9)];

// Four places with these links, of which the last leads to no place.
fn sample_graph(alloc: Global) -> Result<Graph, AllocError> {
    let mut graph = Graph::new(alloc, 4)?;
    for (from, to) in LINKS {
        if *from < graph.places() {
            graph.add(*from, *to)?;
        }
    }
    Ok(graph)
}

#[test]
fn a_walk_ends_where_it_has_been(rt: HostRuntime) -> Result<(), Fail> {
    let graph = sample_graph(rt.alloc())?;
    let found = reached(rt.alloc(), &graph, &[1])?;
    assert!(rt; found.as_slice() == [1, 2, 3].as_slice());
    Ok(())
}
