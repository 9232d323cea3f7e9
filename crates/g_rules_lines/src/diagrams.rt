//! Sets of diagrams, by their lines.

ghost use Rattle.std.specs.Prelude.{◌≡◌, ◌||◌, ◌==◌, ℕ, false, map, IfOk, OnOk};
ghost use Rattle.std.specs.List.{list_any};
ghost use Rattle.g_diagram_table.specs.Seen as table;
ghost use Rattle.g_rules_lines.specs.InPlaceBodies as spec;
ghost use Rattle.g_rules_lines.specs.Names.{has_diagram};

use g_diagram_table::{Arm, Entry, Kind, Part};
use std::alloc::{AllocError, Global};
use std::collections::BTreeSet;

/// Diagrams, by their lines.
pub type Diagrams = BTreeSet<u32>;

fn no_diagrams(alloc: Global) -> Diagrams
    ensures { (d : ℕ) → has_diagram result d ≡ false }
{
    BTreeSet::new(alloc)
}

/// Whether the diagram is one of them.
pub fn is_one(diagrams: &Diagrams, diagram: u32) -> bool
    ensures { result ≡ has_diagram diagrams.now diagram }
{
    diagrams.contains(&diagram)
}

fn add_diagram(diagrams: &mut Diagrams, diagram: u32) -> Result<(), AllocError>
    ensures { OnOk result ((d : ℕ) → has_diagram diagrams.new d ≡ (has_diagram diagrams.old d || (diagram == d))) }
{
    let _is_new = diagrams.insert(diagram)?;
    Ok(())
}

fn add_arms(diagrams: &mut Diagrams, arms: &[Arm<'_>]) -> Result<(), AllocError>
    ensures { OnOk result ((d : ℕ) → has_diagram diagrams.new d ≡ (has_diagram diagrams.old d || list_any (λ x. x == d) (map (λ a. a.body) (map table.seen_arm arms.now)))) }
{
    for arm in arms {
        add_diagram(diagrams, arm.body)?;
    }
    Ok(())
}

fn add_parts(diagrams: &mut Diagrams, parts: &[Part<'_>]) -> Result<(), AllocError>
    ensures { OnOk result ((d : ℕ) → has_diagram diagrams.new d ≡ (has_diagram diagrams.old d || list_any (λ x. x == d) (map (λ p. p.body) (map table.seen_part parts.now)))) }
{
    for part in parts {
        add_diagram(diagrams, part.body)?;
    }
    Ok(())
}

/// Adds the diagrams inside a node.
fn add_kind(diagrams: &mut Diagrams, kind: &Kind<'_>) -> Result<(), AllocError>
    ensures { OnOk result ((d : ℕ) → has_diagram diagrams.new d ≡ (has_diagram diagrams.old d || list_any (λ x. x == d) (spec.diagrams_in (table.seen_kind kind.now)))) }
{
    match kind {
        Kind::Loop { body, .. } => add_diagram(diagrams, *body),
        Kind::Case { arms, .. } => add_arms(diagrams, arms.as_slice()),
        Kind::Sequence { parts } => add_parts(diagrams, parts.as_slice()),
        Kind::InPlace { body, .. } => add_diagram(diagrams, *body),
        _ => Ok(()),
    }
}

fn is_in_place(kind: &Kind<'_>) -> bool
    ensures { result ≡ spec.is_in_place (table.seen_kind kind.now) }
{
    matches!(kind, Kind::InPlace { .. })
}

fn is_case(kind: &Kind<'_>) -> bool
    ensures { result ≡ spec.is_case (table.seen_kind kind.now) }
{
    matches!(kind, Kind::Case { .. })
}

/// Whether a node is looked into: a structure in place, and in a body a case.
fn has_body(bodies: &Diagrams, diagram: u32, kind: &Kind<'_>) -> bool
    ensures { result ≡ spec.has_body (has_diagram bodies.now) diagram (table.seen_kind kind.now) }
{
    if is_in_place(kind) {
        return true;
    }
    is_one(bodies, diagram) && is_case(kind)
}

fn is_inside(diagrams: &Diagrams, diagram: u32, kind: &Kind<'_>) -> bool
    ensures { result ≡ spec.is_inside (has_diagram diagrams.now) diagram (table.seen_kind kind.now) }
{
    if is_in_place(kind) {
        return true;
    }
    is_one(diagrams, diagram)
}

fn add_if(looks: bool, diagrams: &mut Diagrams, kind: &Kind<'_>) -> Result<(), AllocError>
    ensures { OnOk result ((d : ℕ) → has_diagram diagrams.new d ≡ spec.with_node looks (table.seen_kind kind.now) (has_diagram diagrams.old) d) }
{
    if !looks {
        return Ok(());
    }
    add_kind(diagrams, kind)
}

/// The bodies in place, wherever they stand, and the branches of cases in them.
pub fn bodies(alloc: Global, entries: &[Entry<'_>]) -> Result<Diagrams, AllocError>
    ensures { IfOk result (λ diagrams. (d : ℕ) → has_diagram diagrams d ≡ spec.bodies (map table.seen entries.now) d) }
{
    let mut diagrams = no_diagrams(alloc);
    for entry in entries {
        let looks = has_body(&diagrams, entry.diagram, &entry.kind);
        add_if(looks, &mut diagrams, &entry.kind)?;
    }
    Ok(diagrams)
}

/// All diagrams that stand somewhere inside a body in place, and that body.
pub fn insides(alloc: Global, entries: &[Entry<'_>]) -> Result<Diagrams, AllocError>
    ensures { IfOk result (λ diagrams. (d : ℕ) → has_diagram diagrams d ≡ spec.insides (map table.seen entries.now) d) }
{
    let mut diagrams = no_diagrams(alloc);
    for entry in entries {
        let looks = is_inside(&diagrams, entry.diagram, &entry.kind);
        add_if(looks, &mut diagrams, &entry.kind)?;
    }
    Ok(diagrams)
}
