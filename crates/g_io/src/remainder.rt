//! The bytes that a source in memory still has to give.

ghost use Rattle.std.specs.Prelude.{◌≡◌, ◌≤◌, List, ℕ, length, min, take, drop, ◌++◌};

use g_types::Bytes;
use std::marker::Model;

/// The bytes that are left of a buffer, which contracts see as their list.
#[derive(Debug, Drop)]
pub struct Remainder {
    bytes: Vec<u8>,
    at: usize,
}

impl Model for Remainder {
    ghost Value = { List ℕ };

    ghost view = { λ r. drop r.at r.bytes.items };

    ghost invariant = { λ r. r.at ≤ length r.bytes.items };
}

impl Remainder {
    /// All of the bytes.
    pub fn new(bytes: Bytes) -> Self
        ensures { result ≡ bytes }
    {
        Remainder {
            bytes: bytes.into_vec(),
            at: 0,
        }
    }

    /// Moves as many bytes to the front of `into` as are there and have room, `most` at most, and
    /// answers how many.
    pub fn take_into(&mut self, into: &mut [u8], most: usize) -> usize
        ensures count { result ≡ min (min (length into.old) most) (length self.old) }
        ensures given { into.new ≡ take result self.old ++ drop result into.old }
        ensures rest { self.new ≡ drop result self.old }
    {
        let rest = &self.bytes[self.at..];
        let count = into.len().min(most).min(rest.len());
        into[..count].copy_from_slice(&rest[..count]);
        self.at += count;
        count
    }
}
