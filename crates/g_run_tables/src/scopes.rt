//! The types of names, as they grow.

ghost use Rattle.std.specs.Prelude.{◌≡◌, ℕ, List as TheList, if◌then◌else◌, Some, None, OnOk};
ghost use Rattle.std.specs.Option.{option_or};
ghost use Rattle.std.specs.Str.{bytes_eq};
ghost use Rattle.g_vi_tables.specs.Types.{named_type};

use g_types::Ty;
use g_vi_tables::Scope;
use std::alloc::AllocError;

/// Keeps the type of a name, unless there is one.
pub(crate) fn add_name<'m>(
    scope: &mut Scope<'m>,
    name: &'m [u8],
    ty: &'m Ty,
) -> Result<(), AllocError>
    ensures { OnOk result ((other : TheList ℕ) → named_type scope.new other ≡ option_or (named_type scope.old other) (if bytes_eq name.now other then Some ty.now else None)) }
{
    if scope.contains_key(&name) {
        return Ok(());
    }
    scope.insert(name, ty)?;
    Ok(())
}
