//! Numbers of keys.

ghost use Rattle.std.specs.Prelude.{◌≡◌, ℕ, List, length, Some, cond, IfOk, OnOk};
ghost use Rattle.std.specs.BTreeMap.{get};
ghost use Rattle.std.specs.Ordering.{is_eq};
ghost use Rattle.g_program.specs.Numbers.{AreNumbers, place_by};

use std::alloc::{AllocError, Global};
use std::collections::BTreeMap;

/// The numbers of keys: that of a key is the place of the first that is equal to it, from 0.
#[derive(Drop)]
pub struct Numbers<K: Ord> {
    numbers: BTreeMap<K, u32>,
    count: u32,
}

fn number_as_u32(count: usize) -> Result<u32, AllocError>
    ensures { IfOk result (λ n. n ≡ count) }
{
    match u32::try_from(count) {
        Ok(number) => Ok(number),
        Err(_) => Err(AllocError),
    }
}

impl<K: Copy + Ord + Drop> Numbers<K> {
    /// The numbers of these keys. Only want of memory refuses it, as which 2^32 keys are told too.
    pub fn of(alloc: Global, keys: &[K]) -> Result<Numbers<K>, AllocError>
        ensures { IfOk result (AreNumbers K.cmp keys.now) }
    {
        let count = number_as_u32(keys.len())?;
        let mut numbers = BTreeMap::new(alloc);
        for done in 0..keys.len() {
            let at = keys.len() - 1 - done;
            numbers.insert(keys[at], at as u32)?;
        }
        Ok(Numbers { numbers, count })
    }

    /// How many keys there are.
    pub fn count(&self) -> u32
        ensures { (keys : List K) → AreNumbers K.cmp keys self.now → result ≡ length keys }
    {
        self.count
    }

    /// The number of a key, or how many keys there are.
    pub fn get(&self, key: K) -> u32
        ensures { (keys : List K) → AreNumbers K.cmp keys self.now → result ≡ place_by K.cmp key keys }
    {
        match self.numbers.get(&key) {
            Some(number) => *number,
            None => self.count,
        }
    }
}
