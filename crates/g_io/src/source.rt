//! Where bytes come from.

ghost use Rattle.std.specs.Prelude.{List, ℕ, Option};
ghost use Rattle.std.specs.Io.{ReadsAtMost};
ghost use Rattle.std.specs.Io.KnownBytes.{ReadConsumes};
ghost use Rattle.g_io.specs.Causes.{HasCause};

use thiserror::Error;

/// A device did not do what it was asked to, and its count of faults says so.
#[derive(Clone, Copy, Debug, PartialEq, Eq, Error)]
#[error("the device failed")]
pub struct Failed;

/// A device that gives bytes.
pub trait Source {
    /// The bytes that it still has to give, where it tells.
    ghost left: { Self → Option (List ℕ) };

    /// How many calls failed so far. The count stays at its greatest value, `u64::MAX`.
    ghost faults: { Self → ℕ };

    /// Takes a front of what is left into `into` and answers its length, which is 0 only at the
    /// end of the input or where `into` is empty. A call fails only where the count of faults
    /// rises, and then takes nothing.
    fn read(&mut self, into: &mut [u8]) -> Result<usize, Failed>
        ensures bound { ReadsAtMost result into.new }
        ensures bytes { ReadConsumes (left self.old) (left self.new) result into.new }
        ensures cause { HasCause (faults self.old) (faults self.new) result };
}
