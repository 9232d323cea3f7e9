//! Breaks that are found.

ghost use Rattle.std.specs.Prelude.{◌≡◌, ◌++◌, ◌+◌, ◌∷◌, [], IfOk, OnOk};
ghost use Rattle.g_rules_lines.specs.Spots.{break, spot_at};

use g_diagram::{Break, Place};
use std::alloc::AllocError;

/// Adds a break at an operand of a line, 0 for the line itself.
pub fn push_at(
    vi: u32,
    rule: u8,
    line: u32,
    operand: u32,
    breaks: &mut Vec<Break>,
) -> Result<(), AllocError>
    ensures { OnOk result (breaks.new.items ≡ breaks.old.items ++ break vi rule (spot_at line operand) ∷ []) }
{
    let place = Place { vi, line, operand };
    breaks.push(Break { place, rule })?;
    Ok(())
}

/// The next number. One of 2^32 is told as want of memory, since no place has it.
pub fn next(n: u32) -> Result<u32, AllocError>
    ensures { IfOk result (λ m. m ≡ n + 1) }
{
    n.checked_add(1).ok_or(AllocError)
}
