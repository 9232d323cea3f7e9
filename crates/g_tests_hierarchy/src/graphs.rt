//! Small graphs: what a node leads to, which nodes lead to themselves, and an order of all nodes.

ghost use Rattle.std.specs.Prelude.{IfOk};
ghost use Rattle.g_graph.specs.Graph.{InRange};

use g_graph::cycles::cycles;
use g_graph::edges::{add_edge, bare};
use g_graph::reach::reach;
use g_graph_order::order;
use std::alloc::{AllocError, Global};
use std::test::Fail;

/// A graph of so many nodes with these edges.
fn graph_of(
    alloc: Global,
    nodes: usize,
    edges: &[(usize, usize)],
) -> Result<Vec<Vec<usize>>, AllocError>
    ensures { IfOk result (λ graph. InRange graph.items) }
{
    let mut graph = bare(alloc, nodes)?;
    for edge in edges {
        let (from, to) = *edge;
        if from >= nodes {
            return Err(AllocError);
        }
        if to >= nodes {
            return Err(AllocError);
        }
        add_edge(&mut graph, from, to)?;
    }
    Ok(graph)
}

/// A ring of nodes that each lead to the next.
fn ring(alloc: Global, nodes: usize) -> Result<Vec<Vec<usize>>, AllocError>
    ensures { IfOk result (λ graph. InRange graph.items) }
{
    let mut graph = bare(alloc, nodes)?;
    for node in 0..nodes {
        add_edge(&mut graph, node, (node + 1) % nodes)?;
    }
    Ok(graph)
}

/// The nodes that are marked.
fn marked(alloc: Global, marks: &[bool]) -> Result<Vec<usize>, AllocError> {
    let mut nodes = Vec::new(alloc);
    for node in 0..marks.len() {
        if marks[node] {
            nodes.push(node)?;
        }
    }
    Ok(nodes)
}

/// An order of the nodes, or none of them where there is none.
fn ordered(alloc: Global, graph: &[Vec<usize>]) -> Result<Vec<usize>, AllocError>
    requires { InRange graph.now }
{
    match order(alloc, graph)? {
        None => Ok(Vec::new(alloc)),
        Some(nodes) => Ok(nodes),
    }
}

/// From which node to which.
type Edges = &'static [(usize, usize)];

/// A number of nodes, edges, a node, the nodes to which it leads, the nodes that lead to themselves, and an
/// order: a chain with an edge twice; a node to itself and a node between two rings.
const CASES: [(usize, Edges, usize, &[usize], &[usize], &[usize]); 2] = [
    (3, &[(0, 2), (0, 2), (2, 1)], 0, &[1, 2], &[], &[0, 2, 1]),
    (
        4,
        &[(0, 0), (0, 1), (1, 2), (2, 3), (3, 2)],
        1,
        &[2, 3],
        &[0, 2, 3],
        &[],
    ),
];

#[test]
fn small_graphs(rt: HostRuntime) -> Result<(), Fail> {
    let alloc = rt.alloc();
    for (nodes, edges, from, reached, turning, in_order) in &CASES {
        let graph = graph_of(alloc, *nodes, *edges)?;
        let marks = reach(alloc, graph.as_slice(), *from)?;
        assert_eq!(rt; marked(alloc, marks.as_slice())?.as_slice(), *reached);
        let marks = cycles(alloc, graph.as_slice())?;
        assert_eq!(rt; marked(alloc, marks.as_slice())?.as_slice(), *turning);
        assert_eq!(rt; ordered(alloc, graph.as_slice())?.as_slice(), *in_order);
    }
    Ok(())
}

/// With a search for each node this would take hours; no clause speaks of time.
#[test]
fn a_long_ring_takes_one_search(rt: HostRuntime) -> Result<(), Fail> {
    let alloc = rt.alloc();
    let graph = ring(alloc, 200_000)?;
    let marks = cycles(alloc, graph.as_slice())?;
    assert_eq!(rt; marked(alloc, marks.as_slice())?.len(), 200_000);
    Ok(())
}
