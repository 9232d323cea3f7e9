//! Sets of names.

ghost use Rattle.std.specs.Prelude.{◌≡◌, ◌||◌, ℕ, List as TheList, OnOk};
ghost use Rattle.std.specs.Str.{bytes_eq};
ghost use Rattle.g_rules_lines.specs.Names.{has_name};

use g_types::Name;
use std::alloc::AllocError;
use std::collections::BTreeSet;

/// Names, borrowed from the hierarchy.
pub type Names<'a> = BTreeSet<&'a [u8]>;

/// Whether the name is one of them.
pub fn is_among(names: &Names<'_>, name: &Name) -> bool
    ensures { result ≡ has_name names.now name.now }
{
    names.contains(name.as_slice())
}

/// Adds a name.
pub fn add_name<'a>(names: &mut Names<'a>, name: &'a Name) -> Result<(), AllocError>
    ensures { OnOk result ((n : TheList ℕ) → has_name names.new n ≡ (has_name names.old n || bytes_eq name.now n)) }
{
    let _is_new = names.insert(name.as_slice())?;
    Ok(())
}
