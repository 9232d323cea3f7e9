//! The sources of a VI by their diagrams.

ghost use Rattle.std.specs.Prelude.{◌≡◌, ◌==◌, ◌&&◌, ◌++◌, ◌∷◌, [], ℕ, length, map, if◌then◌else◌, Some, None, IfOk, OnOk};
ghost use Rattle.std.specs.Option.{option_or};
ghost use Rattle.g_border.specs.declared.place.WireSource.{WireSource as ThePlace};
ghost use Rattle.g_border.specs.Readers.{same_source};
ghost use Rattle.g_vi_tables.specs.Kept.{AreSourcePlaces};
ghost use Rattle.g_vi_tables.specs.Sources.{seen, places_in};
ghost use Rattle.g_vi_tables.specs.Tables.{items_or_none, sources_at, source_place_in};

use crate::sources::Source;
use g_border::WireSource;
use std::alloc::{AllocError, Global};
use std::collections::BTreeMap;

/// The sources of each diagram, in the order of their places.
pub type Sources = BTreeMap<u32, Vec<WireSource>>;

/// The places of sources among those of their diagrams. Of two that are the same the first counts.
pub type SourcePlaces = BTreeMap<(u32, WireSource), usize>;

fn sources_or_none(alloc: Global, sources: Option<Vec<WireSource>>) -> Vec<WireSource>
    ensures { result.items ≡ items_or_none sources }
{
    match sources {
        None => Vec::new(alloc),
        Some(sources) => sources,
    }
}

/// Keeps a place, unless there is one.
fn add_place(
    places: &mut SourcePlaces,
    diagram: u32,
    source: WireSource,
    place: usize,
) -> Result<(), AllocError>
    ensures { OnOk result ((d : ℕ) (p : ThePlace) → source_place_in places.new d p ≡ option_or (source_place_in places.old d p) (if (diagram == d) && same_source source p then Some place else None)) }
{
    if places.contains_key(&(diagram, source)) {
        return Ok(());
    }
    places.insert((diagram, source), place)?;
    Ok(())
}

/// Takes the sources of a diagram out, and puts them back with one more, whose place it tells.
fn push_source(
    alloc: Global,
    sources: &mut Sources,
    diagram: u32,
    source: WireSource,
) -> Result<usize, AllocError>
    ensures place { IfOk result (λ k. k ≡ length (sources_at sources.old diagram)) }
    ensures sources { OnOk result ((d : ℕ) → sources_at sources.new d ≡ sources_at sources.old d ++ (if diagram == d then source ∷ [] else [])) }
{
    let mut of_diagram = sources_or_none(alloc, sources.remove(&diagram));
    let place = of_diagram.len();
    of_diagram.push(source)?;
    sources.insert(diagram, of_diagram)?;
    Ok(place)
}

/// Adds a source to those of its diagram, with its place.
fn add_source(
    alloc: Global,
    sources: &mut Sources,
    places: &mut SourcePlaces,
    diagram: u32,
    source: WireSource,
) -> Result<(), AllocError>
    requires { AreSourcePlaces sources.old places.old }
    ensures sources { OnOk result ((d : ℕ) → sources_at sources.new d ≡ sources_at sources.old d ++ (if diagram == d then source ∷ [] else [])) }
    ensures places { OnOk result (AreSourcePlaces sources.new places.new) }
{
    let place = push_source(alloc, sources, diagram, source)?;
    add_place(places, diagram, source, place)
}

/// The sources by their diagrams, with their places.
#[derive(Drop)]
pub struct KeptSources {
    pub sources: Sources,
    pub places: SourcePlaces,
}

/// Sources by their diagrams.
pub fn by_diagram(alloc: Global, all: &[Source<'_>]) -> Result<KeptSources, AllocError>
    ensures sources { IfOk result (λ kept. (d : ℕ) → sources_at kept.sources d ≡ places_in d (map seen all.now)) }
    ensures places { IfOk result (λ kept. AreSourcePlaces kept.sources kept.places) }
{
    let mut sources = BTreeMap::new(alloc);
    let mut places = BTreeMap::new(alloc);
    for source in all {
        add_source(
            alloc,
            &mut sources,
            &mut places,
            source.diagram,
            source.place,
        )?;
    }
    Ok(KeptSources { sources, places })
}
