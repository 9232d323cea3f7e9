//! Places at which a rule is broken.

ghost use Rattle.std.specs.Prelude.{◌≡◌, ◌+◌, ◌++◌, ◌∷◌, [], IfOk, OnOk, if◌then◌else◌};
ghost use Rattle.g_typing.specs.Types as spec;

use g_diagram::Place;
use std::alloc::AllocError;

/// An operand of a line of a VI.
pub fn place(vi: u32, line: u32, operand: u32) -> Place
    ensures { result ≡ spec.place vi line operand }
{
    Place { vi, line, operand }
}

/// The next line or operand. Want of memory tells that there is none, since no place has such a number.
pub fn next(n: u32) -> Result<u32, AllocError>
    ensures { IfOk result (λ m. m ≡ n + 1) }
{
    n.checked_add(1).ok_or(AllocError)
}

/// Adds the place where what is asked of it doesn't hold.
pub fn push_unless(places: &mut Vec<Place>, holds: bool, place: Place) -> Result<(), AllocError>
    ensures { OnOk result (places.new.items ≡ places.old.items ++ (if holds then [] else place ∷ [])) }
{
    if !holds {
        places.push(place)?;
    }
    Ok(())
}
