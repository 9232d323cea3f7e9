//! What the tunnels of cases give to names.

ghost use Rattle.std.specs.Prelude.{◌≡◌, ℕ, List as TheList, IfOk};
ghost use Rattle.g_infer.specs.Answer.{named_type as told_type};
ghost use Rattle.g_vi_tables.specs.Types.{named_type};
ghost use Rattle.g_run_tables.specs.Told.{AreScopes};

use crate::scopes::add_name;
use g_infer::{CaseTypes, NamedType};
use g_vi_tables::Scope;
use std::alloc::{AllocError, Global};
use std::collections::BTreeMap;

/// The types of the names of a case. Of two with one name the first counts.
fn case_scope<'m>(alloc: Global, names: &'m [NamedType]) -> Result<Scope<'m>, AllocError>
    ensures { IfOk result (λ scope. (name : TheList ℕ) → named_type scope name ≡ told_type names.now name) }
{
    let mut scope = BTreeMap::new(alloc);
    for named in names {
        add_name(&mut scope, named.name.as_slice(), &named.ty)?;
    }
    Ok(scope)
}

/// The types of the names of each case.
pub(crate) fn case_scopes<'m>(
    alloc: Global,
    cases: &'m [CaseTypes],
) -> Result<Vec<Scope<'m>>, AllocError>
    ensures { IfOk result (λ scopes. AreScopes cases.now scopes.items) }
{
    let mut scopes = Vec::new(alloc);
    for case in cases {
        scopes.push(case_scope(alloc, case.names.as_slice())?)?;
    }
    Ok(scopes)
}
