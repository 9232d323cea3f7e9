//! The look-ups of a VI.

ghost use Rattle.std.specs.Prelude.{◌≡◌, ◌≤◌, [], List as TheList, length, map, Option as Maybe, true, false, slice_get, leb, ltb};
ghost use Rattle.std.specs.List.Sorted.{IsNonDecreasingBy, IsPartitionPoint};
ghost use Rattle.std.specs.Option.{option_and_then, option_copied, option_map_or};
ghost use Rattle.g_values.specs.declared.value.Value.{Value as Item};
ghost use Rattle.g_border.specs.Bodies.{inside_of};
ghost use Rattle.g_border.specs.Readers.{source_of};
ghost use Rattle.g_diagram_table.specs.Seen.{seen};
ghost use Rattle.g_frames.specs.Panels.{cell_number};
ghost use Rattle.g_frames.specs.Program.{FlatVi};
ghost use Rattle.g_frames.specs.State.{nodes_in, sources_in};
ghost use Rattle.g_typing.specs.Typing.{panel_type};
ghost use Rattle.g_wire_values.specs.Wires.{reader, reader_by};
ghost use Rattle.g_vi_tables.specs.Places.{node_place, source_place};
ghost use Rattle.g_vi_tables.specs.Tables.{IsViTable, reader_at};

use crate::names::Names;
use crate::nodes::{NodePlaces, Nodes};
use crate::numbers::NameNumbers;
use crate::places::{SourcePlaces, Sources};
use crate::types::{Scope, WireTypes};
use g_border::WireSource;
use g_diagram::{Clones, PanelItem, Vi};
use g_diagram_table::Entry;
use g_types::Ty;
use g_values::Value;
use g_wire_values::{SourceNames, Wires};

/// One VI, with its nodes and sources by diagram, line and name.
#[derive(Drop)]
pub struct ViTable<'m> {
    pub(crate) vi: &'m Vi,
    /// All nodes, by line.
    pub(crate) entries: Vec<Entry<'m>>,
    pub(crate) nodes: Nodes<'m>,
    pub(crate) node_places: NodePlaces,
    pub(crate) sources: Sources,
    pub(crate) source_places: SourcePlaces,
    pub(crate) names: Names<'m>,
    pub(crate) types: WireTypes<'m>,
    /// The cells of the panel.
    pub(crate) cells: NameNumbers<'m>,
    /// The types of its controls and indicators.
    pub(crate) objects: Scope<'m>,
}

/// How many nodes, of some by line, are on lines up to this one.
fn count_to(entries: &[Entry<'_>], line: u32) -> usize
    ensures bound { result ≤ length entries.now }
    ensures point { IsNonDecreasingBy (λ e. e.line) entries.now → IsPartitionPoint (λ e. leb e.line line ≡ true) (λ e. leb e.line line ≡ false) entries.now result }
{
    entries.partition_point(|entry| entry.line <= line)
}

/// How many nodes, of some by line, are on lines before this one.
fn count_before(entries: &[Entry<'_>], line: u32) -> usize
    ensures bound { result ≤ length entries.now }
    ensures point { IsNonDecreasingBy (λ e. e.line) entries.now → IsPartitionPoint (λ e. ltb e.line line ≡ true) (λ e. ltb e.line line ≡ false) entries.now result }
{
    entries.partition_point(|entry| entry.line < line)
}

/// The nodes between two lines, of some by line.
fn between<'t, 'm>(entries: &'t [Entry<'m>], body: u32, finish: u32) -> &'t [Entry<'m>]
    ensures { IsNonDecreasingBy (λ e. e.line) entries.now → map seen result.now ≡ inside_of body finish (map seen entries.now) }
{
    let first = count_to(entries, body);
    let rest = &entries[first..];
    let count = count_before(rest, finish);
    &rest[..count]
}

fn source_at(sources: &[WireSource], place: usize) -> Option<WireSource>
    ensures { slice_get sources.now place ≡ result }
{
    sources.get(place).copied()
}

impl<'m> ViTable<'m> {
    /// The VI.
    pub fn vi(&self) -> &'m Vi
        ensures name { (vi : FlatVi) → IsViTable vi self.now → result.now.name ≡ vi.name }
        ensures clones { (vi : FlatVi) → IsViTable vi self.now → result.now.clones ≡ vi.clones }
        ensures panel { (vi : FlatVi) → IsViTable vi self.now → result.now.panel ≡ vi.panel }
    {
        self.vi
    }

    /// Who enters which data space of it.
    pub fn clones(&self) -> Clones
        ensures { (vi : FlatVi) → IsViTable vi self.now → result ≡ vi.clones }
    {
        self.vi.clones
    }

    pub fn panel(&self) -> &'m [PanelItem]
        ensures { (vi : FlatVi) → IsViTable vi self.now → result.now ≡ vi.panel }
    {
        self.vi.panel.as_slice()
    }

    /// The number of the cell of a name among those of the panel, from 0, or how many there are.
    pub fn cell_number(&self, name: &[u8]) -> u32
        ensures { (vi : FlatVi) → IsViTable vi self.now → result ≡ cell_number vi.panel name.now }
    {
        self.cells.get(name)
    }

    /// The type of the control or indicator of a name, where there is one.
    pub fn panel_type(&self, name: &[u8]) -> Option<&'m Ty>
        ensures { (vi : FlatVi) → IsViTable vi self.now → option_copied result ≡ panel_type vi.panel name.now }
    {
        self.objects.get(name).copied()
    }

    /// The places of a diagram's named sources, with which `Wires` finds values by name.
    pub fn names(&self, diagram: u32) -> Option<&SourceNames<'m>>
        ensures { (vi : FlatVi) → IsViTable vi self.now → (values : TheList (Maybe Item)) → reader_by (option_map_or (λ names. names.now) result []) values ≡ reader_at vi diagram values }
    {
        self.names.get(&diagram)
    }

    /// The values on the wires of a diagram, by the values of its sources.
    pub fn wires<'a>(&'a self, diagram: u32, values: &'a [Option<Value>]) -> Wires<'a>
        ensures { (vi : FlatVi) → IsViTable vi self.now → reader result ≡ reader_at vi diagram values.now }
    {
        Wires {
            names: self.names(diagram),
            values,
        }
    }

    /// The nodes of a diagram, by line.
    pub fn entries(&self, diagram: u32) -> &[Entry<'m>]
        ensures { (vi : FlatVi) → IsViTable vi self.now → map seen result.now ≡ nodes_in vi diagram }
    {
        if let Some(nodes) = self.nodes.get(&diagram) {
            return nodes.as_slice();
        }
        &self.entries.as_slice()[..0]
    }

    /// The place of the node on a line among the nodes of its diagram, from 0.
    pub fn find(&self, diagram: u32, line: u32) -> Option<usize>
        ensures { (vi : FlatVi) → IsViTable vi self.now → result ≡ node_place line (nodes_in vi diagram) }
    {
        self.node_places.get(&(diagram, line)).copied()
    }

    /// All nodes, by line.
    pub fn all_entries(&self) -> &[Entry<'m>]
        ensures { (vi : FlatVi) → IsViTable vi self.now → map seen result.now ≡ vi.entries }
    {
        self.entries.as_slice()
    }

    /// The sources of a diagram, in the order of their places.
    pub fn sources(&self, diagram: u32) -> &[WireSource]
        ensures { (vi : FlatVi) → IsViTable vi self.now → result.now ≡ sources_in diagram vi.ports }
    {
        if let Some(sources) = self.sources.get(&diagram) {
            return sources.as_slice();
        }
        &[]
    }

    /// The place of a source among those of a diagram, from 0.
    pub fn source_place(&self, diagram: u32, source: WireSource) -> Option<usize>
        ensures { (vi : FlatVi) → IsViTable vi self.now → result ≡ source_place source (sources_in diagram vi.ports) }
    {
        self.source_places.get(&(diagram, source)).copied()
    }

    /// The place of the source of a name in a diagram.
    fn named_place(&self, diagram: u32, name: &[u8]) -> Option<usize>
        ensures { (vi : FlatVi) → IsViTable vi self.now → result ≡ option_and_then (λ p. source_place p (sources_in diagram vi.ports)) (source_of vi.ports diagram name.now) }
    {
        match self.names.get(&diagram) {
            Some(names) => names.find(name),
            None => None,
        }
    }

    /// The source of a name in a diagram.
    pub fn source_of(&self, diagram: u32, name: &[u8]) -> Option<WireSource>
        ensures { (vi : FlatVi) → IsViTable vi self.now → result ≡ source_of vi.ports diagram name.now }
    {
        match self.named_place(diagram, name) {
            Some(place) => source_at(self.sources(diagram), place),
            None => None,
        }
    }

    /// The type of the wire of a name in a diagram, where it is known.
    pub fn type_of(&self, diagram: u32, name: &[u8]) -> Option<&'m Ty>
        ensures { (vi : FlatVi) → IsViTable vi self.now → option_copied result ≡ vi.types diagram name.now }
    {
        self.types.get(diagram, name)
    }

    /// The nodes between two lines: those of a body in place and of all diagrams inside it.
    pub fn inside(&self, body: u32, finish: u32) -> &[Entry<'m>]
        ensures { (vi : FlatVi) → IsViTable vi self.now → map seen result.now ≡ inside_of body finish vi.entries }
    {
        between(self.entries.as_slice(), body, finish)
    }
}
