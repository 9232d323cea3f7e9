//! Breaks in order, each once.

ghost use Rattle.std.specs.Prelude.{◌≡◌, IfOk};
ghost use Rattle.std.specs.List.Sorted.{IsStrictlySortedBy};
ghost use Rattle.std.specs.BTreeSet.{contains};
ghost use Rattle.g_diagram.specs.declared.place.Break.{Break as TheBreak};
ghost use Rattle.g_rules_breaks.specs.Breaks.{break_cmp, has_break};

use g_diagram::Break;
use std::alloc::{AllocError, Global};
use std::collections::BTreeSet;

/// The same breaks as a set.
fn break_set(alloc: Global, breaks: &[Break]) -> Result<BTreeSet<Break>, AllocError>
    ensures { IfOk result (λ set. (q : TheBreak) → contains break_cmp set q ≡ has_break breaks.now q) }
{
    let mut set = BTreeSet::new(alloc);
    for item in breaks {
        let _is_new = set.insert(*item)?;
    }
    Ok(set)
}

/// The same breaks in order, each once.
pub fn listed(alloc: Global, breaks: &[Break]) -> Result<Vec<Break>, AllocError>
    ensures order { IfOk result (λ bs. IsStrictlySortedBy break_cmp bs.items) }
    ensures same { IfOk result (λ bs. (q : TheBreak) → has_break bs.items q ≡ has_break breaks.now q) }
{
    let set = break_set(alloc, breaks)?;
    set.iter().copied().collect(alloc)
}
