//! Lines by number.

ghost use Rattle.std.specs.Prelude.{◌≡◌, ◌+◌, IfOk};

use std::alloc::AllocError;

/// The next line. Want of memory tells that there is none.
pub fn next(line: u32) -> Result<u32, AllocError>
    ensures { IfOk result (λ n. n ≡ line + 1) }
{
    line.checked_add(1).ok_or(AllocError)
}
