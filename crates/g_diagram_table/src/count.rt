//! Numbers of lines, kept in place names: one of 2^32 or more is told as want of memory.

ghost use Rattle.std.specs.Prelude.{◌≡◌, ◌+◌, IfOk};

use std::alloc::AllocError;

/// The sum of two numbers of lines. One of 2^32 or more is told as want of memory, since no place has
/// such a line.
pub fn add(a: u32, b: u32) -> Result<u32, AllocError>
    ensures { IfOk result (λ n. n ≡ a + b) }
{
    a.checked_add(b).ok_or(AllocError)
}

/// A number of lines, in the same way.
pub fn number(n: usize) -> Result<u32, AllocError>
    ensures { IfOk result (λ m. m ≡ n) }
{
    u32::try_from(n).ok().ok_or(AllocError)
}
