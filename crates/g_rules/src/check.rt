//! What is broken in a hierarchy, or the types of its wires and what its MAIN reaches.

ghost use Rattle.std.specs.Prelude.{◌≡◌, ◌<◌, ◌∷◌, ◌++◌, [], length, IfOk, MatchResult};
ghost use Rattle.std.specs.List.Sorted.{IsStrictlySortedBy};
ghost use Rattle.g_diagram.specs.declared.place.Break.{Break as TheBreak};
ghost use Rattle.g_hier.specs.Answer.{Links};
ghost use Rattle.g_hier.specs.Outlines.{number_of, outlines_of};
ghost use Rattle.g_infer.specs.Answer.{IsTyped};
ghost use Rattle.g_typing.specs.Breaks.{TypeBreak};
ghost use Rattle.g_rules_breaks.specs.Breaks.{break_cmp, has_break};
ghost use Rattle.g_wires.specs.Breaks.{IsWiring};
ghost use Rattle.g_rules.specs.Checked.{IsChecked, main_break};
ghost use Rattle.g_rules.specs.Parts.{LinkBreak, Tells};

use g_diagram::{Break, Hierarchy, Place};
use g_hier::{LinkRefused, Linked, link};
use g_infer::infer::infer;
use g_infer::{InferRefused, Typed};
use g_lists::List;
use g_rules_breaks::listed;
use g_rules_lines::next;
use g_types::Name;
use g_wires::{BreakList, wiring};
use std::alloc::{AllocError, Global};

/// What is found of a hierarchy and its MAIN.
#[derive(Drop)]
pub enum Checked {
    /// All breaks, in the order of VI, line, operand and rule. There is one at least.
    Broken(List<Break>),
    /// There is none.
    Unbroken(Typed, Linked),
}

/// The types of wires, or the breaks of the rules on types.
fn types_of(
    alloc: Global,
    h: &Hierarchy,
    main: &Name,
) -> Result<Result<Typed, BreakList>, AllocError>
    requires { IsWiring h.now main.now [] }
    ensures { IfOk result (λ found. MatchResult found (IsTyped h.now) (λ bs. Tells (TypeBreak h.now) bs × (0 < length bs))) }
{
    match infer(alloc, h, main) {
        Ok(typed) => Ok(Ok(typed)),
        Err(InferRefused::Broken(breaks)) => Ok(Err(breaks)),
        Err(InferRefused::Memory(error)) => Err(error),
    }
}

/// The number of the first VI of MAIN's name, or how many VIs there are.
fn main_number(h: &Hierarchy, main: &Name) -> Result<u32, AllocError>
    ensures { IfOk result (λ number. number ≡ number_of h.now.vis main.now) }
{
    let mut number = 0;
    for vi in h.vis.as_slice() {
        if vi.name.as_slice() == main.as_slice() {
            return Ok(number);
        }
        number = next(number)?;
    }
    Ok(number)
}

/// The break of rule 20, which is told at line 0 of MAIN.
fn too_large(alloc: Global, h: &Hierarchy, main: &Name) -> Result<BreakList, AllocError>
    ensures { IfOk result (λ bs. bs ≡ main_break h.now main.now ∷ []) }
{
    let vi = main_number(h, main)?;
    let place = Place {
        vi,
        line: 0,
        operand: 0,
    };
    List::from_slice(alloc, &[Break { place, rule: 20 }])
}

/// What MAIN reaches, or the breaks of the rules 19 and 20.
fn links_of(
    alloc: Global,
    h: &Hierarchy,
    main: &Name,
) -> Result<Result<Linked, BreakList>, AllocError>
    requires { IsWiring h.now main.now [] }
    ensures { IfOk result (λ found. MatchResult found (Links (outlines_of h.now) (number_of h.now.vis main.now)) (λ bs. Tells (LinkBreak h.now main.now) bs × (0 < length bs))) }
{
    match link(alloc, h, main) {
        Ok(linked) => Ok(Ok(linked)),
        Err(LinkRefused::Recursive(breaks)) => Ok(Err(breaks)),
        Err(LinkRefused::TooLarge(_)) => Ok(Err(too_large(alloc, h, main)?)),
        Err(LinkRefused::Memory(error)) => Err(error),
    }
}

/// Breaks of two lists in order, each once.
fn merged(alloc: Global, first: &[Break], second: &[Break]) -> Result<BreakList, AllocError>
    ensures order { IfOk result (λ bs. IsStrictlySortedBy break_cmp bs) }
    ensures same { IfOk result (λ bs. (q : TheBreak) → has_break bs q ≡ has_break (first.now ++ second.now) q) }
{
    let mut all = Vec::new(alloc);
    all.extend_from_slice(first)?;
    all.extend_from_slice(second)?;
    Ok(List::from_vec(listed(alloc, all.as_slice())?))
}

/// The check by the rules that are looked at where none of the rules 1 to 14 is broken.
fn check_wired(alloc: Global, h: &Hierarchy, main: &Name) -> Result<Checked, AllocError>
    requires { IsWiring h.now main.now [] }
    ensures { IfOk result (IsChecked h.now main.now) }
{
    let types = types_of(alloc, h, main)?;
    let links = links_of(alloc, h, main)?;
    match types {
        Ok(typed) => match links {
            Ok(linked) => Ok(Checked::Unbroken(typed, linked)),
            Err(breaks) => Ok(Checked::Broken(merged(alloc, &[], breaks.as_slice())?)),
        },
        Err(first) => match links {
            Ok(_) => Ok(Checked::Broken(merged(alloc, first.as_slice(), &[])?)),
            Err(second) => Ok(Checked::Broken(merged(alloc, first.as_slice(), second.as_slice())?)),
        },
    }
}

/// Checks a hierarchy by all rules. Those on types, on calls that lead back and on the number of nodes
/// are looked at where none of the rules 1 to 14 is broken. Only want of memory refuses it, as which 2^32
/// VIs, and 2^32 lines of one VI, are told too.
pub fn check(alloc: Global, h: &Hierarchy, main: &Name) -> Result<Checked, AllocError>
    ensures { IfOk result (IsChecked h.now main.now) }
{
    let breaks = wiring(alloc, h, main)?;
    if breaks.is_empty() {
        return check_wired(alloc, h, main);
    }
    Ok(Checked::Broken(breaks))
}
