//! Values at places.

ghost use Rattle.std.specs.Prelude.{◌≡◌, IfOk};
ghost use Rattle.g_border.specs.Readers as readers;

use g_border::WireSource;
use g_lists::List;
use g_values::Value;
use std::alloc::{AllocError, Global};

/// Values at places, one after another, as far as there are places. Only want of memory refuses it.
pub fn paired(
    alloc: Global,
    places: &[WireSource],
    values: List<Value>,
) -> Result<List<(WireSource, Value)>, AllocError>
    ensures { IfOk result (λ given. given ≡ readers.paired places.now values) }
{
    let mut given = Vec::new(alloc);
    for value in values.into_vec() {
        match places.get(given.len()) {
            Some(place) => given.push((*place, value))?,
            None => return Ok(List::from_vec(given)),
        }
    }
    Ok(List::from_vec(given))
}
