//! Numbers of names.

ghost use Rattle.std.specs.Prelude.{◌≡◌, ◌+◌, ℕ, List as TheList, length, map, if◌then◌else◌, Some, None, IfOk, OnOk};
ghost use Rattle.std.specs.Option.{option_or};
ghost use Rattle.std.specs.Str.{bytes_eq};
ghost use Rattle.g_frames.specs.Panels.{place_of};
ghost use Rattle.g_vi_tables.specs.Numbers.{AreNumbers, number_in, number_from};

use std::alloc::{AllocError, Global};
use std::collections::BTreeMap;

/// The numbers of names: that of a name is the place of the first of this name, from 0.
#[derive(Drop)]
pub struct NameNumbers<'m> {
    numbers: BTreeMap<&'m [u8], u32>,
    count: u32,
}

/// Numbers a name, unless it has a number.
fn add<'m>(
    numbers: &mut BTreeMap<&'m [u8], u32>,
    name: &'m [u8],
    number: u32,
) -> Result<(), AllocError>
    ensures { OnOk result ((other : TheList ℕ) → number_in numbers.new other ≡ option_or (number_in numbers.old other) (if bytes_eq name.now other then Some number else None)) }
{
    if numbers.contains_key(&name) {
        return Ok(());
    }
    numbers.insert(name, number)?;
    Ok(())
}

impl<'m> NameNumbers<'m> {
    /// The numbers of these names. Only want of memory refuses it, as which 2^32 names are told too.
    pub fn of(alloc: Global, names: &[&'m [u8]]) -> Result<NameNumbers<'m>, AllocError>
        ensures { IfOk result (AreNumbers (map (λ n. n.now) names.now)) }
    {
        let mut numbers = BTreeMap::new(alloc);
        let mut count: u32 = 0;
        for name in names {
            add(&mut numbers, *name, count)?;
            count = count.checked_add(1).ok_or(AllocError)?;
        }
        Ok(NameNumbers { numbers, count })
    }

    /// How many names there are.
    pub fn count(&self) -> u32
        ensures { (names : TheList (TheList ℕ)) → AreNumbers names self.now → result ≡ length names }
    {
        self.count
    }

    /// The number of a name, or how many names there are.
    pub fn get(&self, name: &[u8]) -> u32
        ensures { (names : TheList (TheList ℕ)) → AreNumbers names self.now → result ≡ place_of name.now names }
    {
        match self.numbers.get(name) {
            Some(number) => *number,
            None => self.count,
        }
    }
}
