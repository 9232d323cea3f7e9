//! The sources of a diagram by their names.

ghost use Rattle.std.specs.Prelude.{◌≡◌, [], length, slice_get, OnOk};
ghost use Rattle.std.specs.Option.{option_map};

use indexmap::IndexMap;
use std::alloc::{AllocError, Global};
use std::marker::Model;

/// The numbers of a diagram's named sources among all its sources, from 0, by name. Of two sources with
/// one name the first counts.
#[derive(Drop)]
pub struct SourceNames<'a> {
    map: IndexMap<&'a [u8], usize>,
}

impl<'a> Model for SourceNames<'a> {
    ghost use Rattle.std.specs.Prelude.{ℕ, List as Many, map as each};
    ghost use Rattle.std.specs.Coded.{codes};

    ghost Value = { Many (Many ℕ × ℕ) };

    ghost coded = { Prim.hlevel (codes) };

    ghost view = { λ m. each (λ e. (e.0.now, e.1)) m.map.entries };
}

impl<'a> SourceNames<'a> {
    ghost use Rattle.g_wire_values.specs.Names.{named, add_name};

    /// No name.
    pub fn new(alloc: Global) -> SourceNames<'a>
        ensures { result ≡ [] }
    {
        SourceNames {
            map: IndexMap::new(alloc),
        }
    }

    /// The number of the source of a name, where there is one.
    pub fn find(&self, name: &[u8]) -> Option<usize>
        ensures { result ≡ named self.now name.now }
    {
        self.map.get(&name).copied()
    }

    /// How many names there are.
    pub fn len(&self) -> usize
        ensures { result ≡ length self.now }
    {
        self.map.len()
    }

    /// A name by its place among the names, with its number.
    pub fn entry(&self, at: usize) -> Option<(&'a [u8], usize)>
        ensures { option_map (λ e. (e.0.now, e.1)) result ≡ slice_get self.now at }
    {
        match self.map.get_index(at) {
            Some((name, number)) => Some((*name, *number)),
            None => None,
        }
    }

    /// Adds the source of a name, unless there is one of this name.
    pub fn add(&mut self, name: &'a [u8], number: usize) -> Result<(), AllocError>
        ensures { OnOk result (self.new ≡ add_name self.old name.now number) }
    {
        if self.find(name).is_some() {
            return Ok(());
        }
        self.map.insert(name, number)?;
        Ok(())
    }
}
