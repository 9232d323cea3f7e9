//! The types of all wires of a hierarchy.

ghost use Rattle.std.specs.Prelude.{◌≡◌, ◌++◌, ℕ, List as TheList, [], length, map, Some, slice_get, IfOk, IfErr, MatchResult};
ghost use Rattle.g_diagram.specs.declared.hierarchy.Vi.{Vi as TheVi};
ghost use Rattle.g_diagram.specs.Leads.{Leads};
ghost use Rattle.g_diagram.specs.Lines.{entries_of};
ghost use Rattle.g_diagram.specs.Ports.{ports_of, has_wire};
ghost use Rattle.g_diagram_table.specs.Seen.{seen};
ghost use Rattle.g_typing_laws.specs.Typable.{IsTypable};
ghost use Rattle.g_typing.proofs.Agreed.{Typed as IsTypingBy};
ghost use Rattle.g_typing.specs.Breaks.{breaks_with};
ghost use Rattle.g_typing.specs.Typing.{called_panel, panel_type};
ghost use Rattle.g_wires.specs.Breaks.{IsWiring};
ghost use Rattle.g_infer.specs.Answer.{IsTyped, Refuses, types_in};
ghost use Rattle.g_infer.specs.Inferred.{Inferred, told_branch, told_case, told_source};
ghost use Rattle.g_rules_types.specs.Known.{types_of};
ghost use Rattle.g_rules_types.specs.Panels.{callees_in, objects_in};

use crate::typed::{BranchCases, CaseTypes, InferRefused, NamedType, SourceType, Typed, ViTypes};
use crate::walk::vi_types;
use g_diagram::{Break, Hierarchy, PanelItem, Vi};
use g_diagram_table::Entry;
use g_diagram_table::table::table;
use g_lists::List;
use g_rules_breaks::listed;
use g_rules_types::panels::{ObjectTypes, Panels, object_types, panels};
use g_rules_types::passes::push_type_breaks;
use g_rules_types::places::next;
use g_rules_types::types::{Branches, Scope, WireTypes};
use g_types::{Name, Ty};
use g_typing_laws::typable_laws;
use std::alloc::{AllocError, Global};
use std::collections::BTreeMap;

fn listed_sources<'a>(
    alloc: Global,
    own: BTreeMap<(u32, &'a [u8]), Ty>,
) -> Result<List<SourceType>, AllocError>
    ensures { IfOk result (λ sources. sources ≡ map told_source own.entry.entries) }
{
    let mut sources = Vec::new(alloc);
    for ((diagram, name), ty) in own {
        let name = List::from_slice(alloc, name)?;
        sources.push(SourceType { diagram, name, ty })?;
    }
    Ok(List::from_vec(sources))
}

fn listed_case<'a>(alloc: Global, scope: Scope<'a>) -> Result<CaseTypes, AllocError>
    ensures { IfOk result (λ told. told ≡ told_case scope.entry) }
{
    let mut names = Vec::new(alloc);
    for (name, ty) in scope {
        let name = List::from_slice(alloc, name)?;
        names.push(NamedType { name, ty })?;
    }
    Ok(CaseTypes {
        names: List::from_vec(names),
    })
}

fn listed_cases<'a>(alloc: Global, scopes: Vec<Scope<'a>>) -> Result<List<CaseTypes>, AllocError>
    ensures { IfOk result (λ cases. cases ≡ map told_case scopes.entry.items) }
{
    let mut cases = Vec::new(alloc);
    for scope in scopes {
        cases.push(listed_case(alloc, scope)?)?;
    }
    Ok(List::from_vec(cases))
}

fn listed_branches(alloc: Global, branches: Branches) -> Result<List<BranchCases>, AllocError>
    ensures { IfOk result (λ listed. listed ≡ map told_branch branches.entries) }
{
    let mut listed = Vec::new(alloc);
    for (diagram, cases) in branches {
        let cases = List::from_vec(cases);
        listed.push(BranchCases { diagram, cases })?;
    }
    Ok(List::from_vec(listed))
}

/// The types as they are told.
fn listed_types<'a>(alloc: Global, types: WireTypes<'a>) -> Result<ViTypes, AllocError>
    ensures { IfOk result (λ found. (d : ℕ) (name : TheList ℕ) → types_in found d name ≡ types_of types.entry d name) }
{
    let WireTypes {
        own,
        cases,
        branches,
    } = types;
    let sources = listed_sources(alloc, own)?;
    let cases = listed_cases(alloc, cases)?;
    let branches = listed_branches(alloc, branches)?;
    Ok(ViTypes {
        sources,
        cases,
        branches,
    })
}

/// The types of the wires of a VI with this panel and these nodes, whose breaks are added.
fn infer_wires<'p, 'm>(
    alloc: Global,
    panels: &Panels<'p>,
    objects: &ObjectTypes<'p>,
    number: u32,
    panel: &'m [PanelItem],
    entries: &'m [Entry<'m>],
    breaks: &mut Vec<Break>,
) -> Result<ViTypes, AllocError>
    requires objects { objects_in objects.now ≡ panel_type panel.now }
    requires typable { IsTypable (callees_in panels.now) panel.now (map seen entries.now) }
    ensures typing { IfOk result (λ found. IsTypingBy (callees_in panels.now) panel.now (map seen entries.now) (types_in found)) }
    ensures breaks { IfOk result (λ found. breaks.new.items ≡ breaks.old.items ++ breaks_with (callees_in panels.now) panel.now (types_in found) number (map seen entries.now)) }
{
    let types = vi_types(alloc, panels, objects, panel, entries)?;
    push_type_breaks(
        alloc, breaks, panels, objects, &types, number, panel, entries,
    )?;
    let found = listed_types(alloc, types)?;
    Ok(found)
}

/// The types of the wires of a VI, whose breaks are added.
fn infer_vi<'p>(
    alloc: Global,
    panels: &Panels<'p>,
    number: u32,
    vi: &'p Vi,
    breaks: &mut Vec<Break>,
) -> Result<ViTypes, AllocError>
    requires { IsTypable (callees_in panels.now) vi.now.panel (entries_of vi.now) }
    ensures typing { IfOk result (λ found. IsTypingBy (callees_in panels.now) vi.now.panel (entries_of vi.now) (types_in found)) }
    ensures breaks { IfOk result (λ found. breaks.new.items ≡ breaks.old.items ++ breaks_with (callees_in panels.now) vi.now.panel (types_in found) number (entries_of vi.now)) }
{
    let panel = vi.panel.as_slice();
    let objects = object_types(alloc, panel)?;
    let entries = table(alloc, vi)?;
    let found = infer_wires(
        alloc,
        panels,
        &objects,
        number,
        panel,
        entries.as_slice(),
        breaks,
    )?;
    Ok(found)
}

/// The types of the wires of each VI, and all breaks by them.
#[derive(Drop)]
struct Findings {
    vis: Vec<ViTypes>,
    breaks: Vec<Break>,
}

/// What is found of all VIs.
fn infer_vis(alloc: Global, vis: &[Vi]) -> Result<Findings, AllocError>
    requires { (k : ℕ) (vi : TheVi) → slice_get vis.now k ≡ Some vi → IsTypable (called_panel vis.now) vi.panel (entries_of vi) }
    ensures { IfOk result (λ found. Inferred (called_panel vis.now) vis.now (length vis.now) found.vis.items found.breaks.items) }
{
    let known = panels(alloc, vis)?;
    let mut found = Findings {
        vis: Vec::new(alloc),
        breaks: Vec::new(alloc),
    };
    let mut number = 0;
    for vi in vis {
        let types = infer_vi(alloc, &known, number, vi, &mut found.breaks)?;
        found.vis.push(types)?;
        number = next(number)?;
    }
    Ok(found)
}

/// The types of all wires, or all breaks, but for want of memory.
fn answer(alloc: Global, h: &Hierarchy) -> Result<Result<Typed, InferRefused>, AllocError>
    requires turns { (k : ℕ) (vi : TheVi) → slice_get h.now.vis k ≡ Some vi → (v : ℕ) → Leads (has_wire (ports_of h.now.vis vi)) v v → ⊥ }
    requires typable { (k : ℕ) (vi : TheVi) → slice_get h.now.vis k ≡ Some vi → IsTypable (called_panel h.now.vis) vi.panel (entries_of vi) }
    ensures { IfOk result (λ answer. MatchResult answer (IsTyped h.now) (Refuses h.now)) }
{
    let vis = h.vis.as_slice();
    let found = infer_vis(alloc, vis)?;
    let breaks = listed(alloc, found.breaks.as_slice())?;
    if breaks.len() > 0 {
        return Ok(Err(InferRefused::Broken(List::from_vec(breaks))));
    }
    Ok(Ok(Typed {
        vis: List::from_vec(found.vis),
    }))
}

/// The type of each named source of a hierarchy in which none of the rules 1 to 14 is broken: each
/// source has the type that its line gives it. It is refused where rules on types are broken, with all
/// their breaks, and for want of memory.
pub fn infer(alloc: Global, h: &Hierarchy, _main: &Name) -> Result<Typed, InferRefused>
    requires wired { IsWiring h.now _main.now [] }
    ensures typed { IfOk result (IsTyped h.now) }
    ensures refused { IfErr result (Refuses h.now) }
{
    typable_laws();
    match answer(alloc, h) {
        Ok(answer) => answer,
        Err(failed) => Err(InferRefused::Memory(failed)),
    }
}
