//! The types of a VI's wires, as its table keeps them.

ghost use Rattle.std.specs.Prelude.{◌≡◌, ℕ, List as TheList, IfOk};
ghost use Rattle.std.specs.Option.{option_copied};
ghost use Rattle.g_infer.specs.Answer.{types_in};
ghost use Rattle.g_vi_tables.specs.Types.{types_of};
ghost use Rattle.g_run_tables.specs.Types.{types_or_none};

use crate::branches::branches_of;
use crate::cases::case_scopes;
use crate::sources::own_types;
use g_infer::ViTypes;
use g_vi_tables::WireTypes;
use std::alloc::{AllocError, Global};

/// The types that are told of a VI's wires.
fn wire_types<'m>(alloc: Global, told: &'m ViTypes) -> Result<WireTypes<'m>, AllocError>
    ensures { IfOk result (λ types. (d : ℕ) (name : TheList ℕ) → types_of types d name ≡ types_in told.now d name) }
{
    let own = own_types(alloc, told.sources.as_slice())?;
    let cases = case_scopes(alloc, told.cases.as_slice())?;
    let branches = branches_of(alloc, told.branches.as_slice())?;
    Ok(WireTypes {
        own,
        cases,
        branches,
    })
}

/// The same, or none where nothing is told of the VI.
pub(crate) fn known_types<'m>(
    alloc: Global,
    told: Option<&'m ViTypes>,
) -> Result<WireTypes<'m>, AllocError>
    ensures { IfOk result (λ types. (d : ℕ) (name : TheList ℕ) → types_of types d name ≡ types_or_none (option_copied told.entry) d name) }
{
    match told {
        None => Ok(WireTypes::new(alloc)),
        Some(told) => wire_types(alloc, told),
    }
}
