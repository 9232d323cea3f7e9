//! Numbers of what is listed.

ghost use Rattle.std.specs.Prelude.{◌≡◌, ◌+◌, IfOk};

use std::alloc::AllocError;

/// The next number. Want of memory tells that there is none.
pub fn next(n: u32) -> Result<u32, AllocError>
    ensures { IfOk result (λ m. m ≡ n + 1) }
{
    n.checked_add(1).ok_or(AllocError)
}

/// A count as a number. Want of memory tells that there is none.
pub fn as_number(count: usize) -> Result<u32, AllocError>
    ensures { IfOk result (λ n. n ≡ count) }
{
    match u32::try_from(count) {
        Ok(number) => Ok(number),
        Err(_) => Err(AllocError),
    }
}
