//! The cases of which diagrams are branches.

ghost use Rattle.std.specs.Prelude.{◌≡◌, ◌==◌, ℕ, if◌then◌else◌, Some, None, IfOk, OnOk};
ghost use Rattle.std.specs.Option.{option_or};
ghost use Rattle.g_infer.specs.Answer.{branch_cases};
ghost use Rattle.g_vi_tables.specs.Types.{cases_of};
ghost use Rattle.g_run_tables.specs.Told.{kept_cases};

use g_infer::BranchCases;
use std::alloc::{AllocError, Global};
use std::collections::BTreeMap;

/// The cases of which each diagram is a branch, by their numbers.
pub(crate) type Branches<'m> = BTreeMap<u32, &'m [usize]>;

/// Keeps the cases of a diagram, unless they are kept already.
fn add_branch<'m>(
    branches: &mut Branches<'m>,
    diagram: u32,
    cases: &'m [usize],
) -> Result<(), AllocError>
    ensures { OnOk result ((d : ℕ) → kept_cases branches.new d ≡ option_or (kept_cases branches.old d) (if diagram == d then Some cases.now else None)) }
{
    if branches.contains_key(&diagram) {
        return Ok(());
    }
    branches.insert(diagram, cases)?;
    Ok(())
}

/// The cases of diagrams. Of two lists of one diagram the first counts.
pub(crate) fn branches_of<'m>(
    alloc: Global,
    listed: &'m [BranchCases],
) -> Result<Branches<'m>, AllocError>
    ensures { IfOk result (λ branches. (d : ℕ) → cases_of branches d ≡ branch_cases listed.now d) }
{
    let mut branches = BTreeMap::new(alloc);
    for branch in listed {
        add_branch(&mut branches, branch.diagram, branch.cases.as_slice())?;
    }
    Ok(branches)
}
