//! The values that references name, as a run begins.

ghost use Rattle.std.specs.Prelude.{◌≡◌, ◌∷◌, ◌++◌, [], OnOk};
ghost use Rattle.std.specs.List.{All};
ghost use Rattle.g_types.specs.declared.ty.Ty.TheVariants as ty;
ghost use Rattle.g_values.specs.Spelled.{IsSpelled};
ghost use Rattle.g_shared.specs.Cells.{new_cell};
ghost use Rattle.g_frames.specs.Contents as content;
ghost use Rattle.g_frames.specs.State.{first_cells};

use crate::count::next;
use g_frames::CellPlace;
use g_objects::Object;
use g_refs::Cell;
use g_types::copy;
use std::alloc::{AllocError, Global};

fn push_cell(
    alloc: Global,
    objects: &mut Vec<Object>,
    number: u32,
    place: &CellPlace,
) -> Result<(), AllocError>
    requires { IsSpelled (ty.ValueRef place.now.content) }
    ensures { OnOk result (objects.new.items ≡ objects.old.items ++ content.Cell (new_cell number place.now.content) ∷ []) }
{
    let content = copy(alloc, &place.content)?;
    objects.push(Object::of_cell(Cell::new(number, content)))?;
    Ok(())
}

/// Adds the values that references name, none of which is live, with their numbers from one on.
pub fn push_cells(
    alloc: Global,
    objects: &mut Vec<Object>,
    first: u32,
    cells: &[CellPlace],
) -> Result<(), AllocError>
    requires { All (λ c. IsSpelled (ty.ValueRef c.content)) cells.now }
    ensures { OnOk result (objects.new.items ≡ objects.old.items ++ first_cells first cells.now) }
{
    let mut number = first;
    for cell in cells {
        push_cell(alloc, objects, number, cell)?;
        number = next(number)?;
    }
    Ok(())
}
