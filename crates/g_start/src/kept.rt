//! The kept registers with which a run begins.

ghost use Rattle.std.specs.Prelude.{◌≡◌, IfOk};
ghost use Rattle.g_frames.specs.State as state;

use g_frames::KeptPlace;
use g_values::{Value, default_of};
use std::alloc::{AllocError, Global};

/// The default of each kept register.
pub fn first_kept(alloc: Global, places: &[KeptPlace]) -> Result<Vec<Value>, AllocError>
    ensures { IfOk result (λ kept. kept.items ≡ state.first_kept places.now) }
{
    let mut kept = Vec::new(alloc);
    for place in places {
        kept.push(default_of(alloc, &place.content)?)?;
    }
    Ok(kept)
}
