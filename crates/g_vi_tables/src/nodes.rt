//! The nodes of a VI by their diagrams.

ghost use Rattle.std.specs.Prelude.{◌≡◌, ◌==◌, ◌&&◌, ◌++◌, ◌∷◌, [], ℕ, length, map, if◌then◌else◌, Some, None, IfOk, OnOk};
ghost use Rattle.std.specs.Option.{option_or};
ghost use Rattle.g_diagram.specs.Lines.{nodes_of};
ghost use Rattle.g_diagram_table.specs.Seen.{seen};
ghost use Rattle.g_vi_tables.specs.Kept.{AreNodePlaces};
ghost use Rattle.g_vi_tables.specs.Tables.{items_or_none, nodes_at, node_place_in};

use g_diagram_table::Entry;
use std::alloc::{AllocError, Global};
use std::collections::BTreeMap;

/// The nodes of each diagram, by line.
pub type Nodes<'m> = BTreeMap<u32, Vec<Entry<'m>>>;

/// The places of nodes in their diagrams, by diagram and line. Of two on one line the first counts.
pub type NodePlaces = BTreeMap<(u32, u32), usize>;

fn nodes_or_none<'m>(alloc: Global, nodes: Option<Vec<Entry<'m>>>) -> Vec<Entry<'m>>
    ensures { result.items ≡ items_or_none nodes.entry }
{
    match nodes {
        None => Vec::new(alloc),
        Some(nodes) => nodes,
    }
}

/// Keeps a place, unless there is one.
fn add_place(
    places: &mut NodePlaces,
    diagram: u32,
    line: u32,
    place: usize,
) -> Result<(), AllocError>
    ensures { OnOk result ((d l : ℕ) → node_place_in places.new d l ≡ option_or (node_place_in places.old d l) (if (diagram == d) && (line == l) then Some place else None)) }
{
    if places.contains_key(&(diagram, line)) {
        return Ok(());
    }
    places.insert((diagram, line), place)?;
    Ok(())
}

/// Takes the nodes of a diagram out, and puts them back with one more, whose place it tells.
fn push_node<'m>(
    alloc: Global,
    nodes: &mut Nodes<'m>,
    entry: Entry<'m>,
) -> Result<usize, AllocError>
    ensures place { IfOk result (λ k. k ≡ length (nodes_at nodes.old entry.entry.diagram)) }
    ensures nodes { OnOk result ((d : ℕ) → nodes_at nodes.new d ≡ nodes_at nodes.old d ++ (if entry.entry.diagram == d then entry.entry ∷ [] else [])) }
{
    let diagram = entry.diagram;
    let mut of_diagram = nodes_or_none(alloc, nodes.remove(&diagram));
    let place = of_diagram.len();
    of_diagram.push(entry)?;
    nodes.insert(diagram, of_diagram)?;
    Ok(place)
}

/// Adds a node to those of its diagram, with its place.
fn add_node<'m>(
    alloc: Global,
    nodes: &mut Nodes<'m>,
    places: &mut NodePlaces,
    entry: Entry<'m>,
) -> Result<(), AllocError>
    requires { AreNodePlaces nodes.old places.old }
    ensures nodes { OnOk result ((d : ℕ) → map seen (nodes_at nodes.new d) ≡ map seen (nodes_at nodes.old d) ++ nodes_of d (seen entry.entry ∷ [])) }
    ensures places { OnOk result (AreNodePlaces nodes.new places.new) }
{
    let diagram = entry.diagram;
    let line = entry.line;
    let place = push_node(alloc, nodes, entry)?;
    add_place(places, diagram, line, place)
}

/// The nodes by their diagrams, with their places.
#[derive(Drop)]
pub struct KeptNodes<'m> {
    pub nodes: Nodes<'m>,
    pub places: NodePlaces,
}

/// Nodes by their diagrams.
pub fn by_diagram<'m>(alloc: Global, entries: Vec<Entry<'m>>) -> Result<KeptNodes<'m>, AllocError>
    ensures nodes { IfOk result (λ kept. (d : ℕ) → map seen (nodes_at kept.nodes d) ≡ nodes_of d (map seen entries.entry.items)) }
    ensures places { IfOk result (λ kept. AreNodePlaces kept.nodes kept.places) }
{
    let mut nodes = BTreeMap::new(alloc);
    let mut places = BTreeMap::new(alloc);
    for entry in entries {
        add_node(alloc, &mut nodes, &mut places, entry)?;
    }
    Ok(KeptNodes { nodes, places })
}
