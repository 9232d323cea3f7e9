//! Where bytes go.

ghost use Rattle.std.specs.Prelude.{◌≡◌, ◌<◌, List, ℕ, Option, length, IfOk};
ghost use Rattle.std.specs.Io.{WritesAtMost};
ghost use Rattle.std.specs.Io.KnownBytes.{WriteAppends};
ghost use Rattle.g_io.specs.Causes.{HasCause};
ghost use Rattle.g_io.specs.MadeWith.{MadeWith};

use crate::source::Failed;

/// A device that takes bytes.
pub trait Sink {
    /// The bytes that it holds, where it tells.
    ghost held: { Self → Option (List ℕ) };

    /// How many calls failed so far. The count stays at its greatest value, `u64::MAX`.
    ghost faults: { Self → ℕ };

    /// What it was made with, if anything. No call changes it.
    ghost made_with: { Self → Option MadeWith };

    /// Appends a front of the piece and answers its length, which is 0 only where the piece is
    /// empty. A call fails only where the count of faults rises, and then appends nothing.
    fn write(&mut self, piece: &[u8]) -> Result<usize, Failed>
        ensures bound { WritesAtMost result piece.now }
        ensures progress { IfOk result (λ count. 0 < length piece.now → 0 < count) }
        ensures bytes { WriteAppends (held self.old) (held self.new) result piece.now }
        ensures cause { HasCause (faults self.old) (faults self.new) result }
        ensures kept { made_with self.new ≡ made_with self.old };
}
