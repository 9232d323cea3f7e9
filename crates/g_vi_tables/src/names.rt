//! The named sources of a VI by their diagrams.

ghost use Rattle.std.specs.Prelude.{◌≡◌, ◌==◌, ◌&&◌, ◌∷◌, [], ℕ, List as TheList, map, if◌then◌else◌, Some, None, IfOk, OnOk};
ghost use Rattle.std.specs.Option.{option_or, unwrap_or};
ghost use Rattle.std.specs.Str.{bytes_eq};
ghost use Rattle.g_wire_values.specs.Names.{named};
ghost use Rattle.g_vi_tables.specs.Kept.{number_in};
ghost use Rattle.g_vi_tables.specs.Sources.{seen, first_named};
ghost use Rattle.g_vi_tables.specs.Tables.{names_at, numbers_or_none, source_place_in};

use crate::places::SourcePlaces;
use crate::sources::Source;
use g_wire_values::SourceNames;
use std::alloc::{AllocError, Global};
use std::collections::BTreeMap;

/// The places of the named sources of each diagram.
pub type Names<'m> = BTreeMap<u32, SourceNames<'m>>;

fn names_or_none<'m>(alloc: Global, names: Option<SourceNames<'m>>) -> SourceNames<'m>
    ensures { result ≡ numbers_or_none names.entry }
{
    match names {
        None => SourceNames::new(alloc),
        Some(names) => names,
    }
}

/// Takes the names of a diagram out, and puts them back with one more.
fn add_name<'m>(
    alloc: Global,
    names: &mut Names<'m>,
    diagram: u32,
    name: &'m [u8],
    place: usize,
) -> Result<(), AllocError>
    ensures { OnOk result ((d : ℕ) (other : TheList ℕ) → named (names_at names.new d) other ≡ option_or (named (names_at names.old d) other) (if (diagram == d) && bytes_eq other name.now then Some place else None)) }
{
    let mut of_diagram = names_or_none(alloc, names.remove(&diagram));
    of_diagram.add(name, place)?;
    names.insert(diagram, of_diagram)?;
    Ok(())
}

/// The place of a source, or 0 where there is none.
fn place_of(places: &SourcePlaces, source: &Source<'_>) -> usize
    ensures { result ≡ unwrap_or (source_place_in places.now source.now.diagram source.now.place) 0 }
{
    places
        .get(&(source.diagram, source.place))
        .copied()
        .unwrap_or(0)
}

fn add_source<'m>(
    alloc: Global,
    names: &mut Names<'m>,
    places: &SourcePlaces,
    source: &Source<'m>,
) -> Result<(), AllocError>
    ensures { OnOk result ((d : ℕ) (name : TheList ℕ) → named (names_at names.new d) name ≡ option_or (named (names_at names.old d) name) (number_in places.now d name (seen source.now ∷ []))) }
{
    match source.wire {
        None => Ok(()),
        Some(name) => {
            let place = place_of(places, source);
            add_name(alloc, names, source.diagram, name.as_slice(), place)
        }
    }
}

/// The places of named sources by their diagrams. Of two with one name the first counts.
pub fn by_diagram<'m>(
    alloc: Global,
    places: &SourcePlaces,
    all: &[Source<'m>],
) -> Result<Names<'m>, AllocError>
    ensures { IfOk result (λ names. (d : ℕ) (name : TheList ℕ) → named (names_at names d) name ≡ number_in places.now d name (map seen all.now)) }
{
    let mut names = BTreeMap::new(alloc);
    for source in all {
        add_source(alloc, &mut names, places, source)?;
    }
    Ok(names)
}
