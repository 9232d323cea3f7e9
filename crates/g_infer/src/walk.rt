//! The types of a VI's wires, step by step.

ghost use Rattle.std.specs.Prelude.{◌≡◌, ◌<◌, ◌∷◌, [], ℕ, List, length, map, slice_get, Some, None, IfOk, OnOk};
ghost use Rattle.std.specs.Str.{bytes_eq};
ghost use Rattle.g_diagram_table.specs.Seen.{seen, seen_arm};
ghost use Rattle.g_typing.proofs.Agreed.{Typed as IsTypingBy};
ghost use Rattle.g_typing.proofs.Walked.{Adds};
ghost use Rattle.g_typing.specs.Typing.{arms_inside, panel_type};
ghost use Rattle.g_typing_laws.specs.Typable.{IsTypable};
ghost use Rattle.g_infer.specs.Given.{seen_given};
ghost use Rattle.g_infer.specs.Gives.{form_gives};
ghost use Rattle.g_rules_types.specs.Known.{types_of, IsIndexed};
ghost use Rattle.g_rules_types.specs.Panels.{callees_in, found, objects_in};
ghost use Rattle.g_infer.specs.Steps.{seen_step};
ghost use Rattle.g_infer.specs.Walking.{CanWalk, HasWalked, IsAfter, IsFresh, IsScope, named_after, put, steps_of};

use crate::feeds::step_graph;
use crate::gives::push_gives;
use crate::giving::{Given, push_inside};
use crate::steps::{Step, all_steps};
use g_diagram::{PanelItem, Tunnel};
use g_diagram_table::{Arm, Entry};
use g_graph_order::order;
use g_rules_types::panels::{ObjectTypes, Panels};
use g_rules_types::types::{Scope, WireTypes};
use std::alloc::{AllocError, Global};
use std::collections::BTreeMap;

/// Keeps what is given to a name, where its type is known.
fn keep<'m>(types: &mut WireTypes<'m>, given: Given<'m>) -> Result<(), AllocError>
    ensures types { OnOk result (IsAfter (types_of types.old) (types_of types.new) (seen_given given.entry ∷ [])) }
    ensures indexed { IsIndexed types.old → IsIndexed types.new }
{
    let Given { diagram, name, ty } = given;
    match ty {
        None => Ok(()),
        Some(ty) => {
            types.insert(diagram, name, ty)?;
            Ok(())
        }
    }
}

/// Keeps all that is given.
fn keep_all<'m>(types: &mut WireTypes<'m>, givens: Vec<Given<'m>>) -> Result<(), AllocError>
    ensures types { OnOk result (IsAfter (types_of types.old) (types_of types.new) (map seen_given givens.entry.items)) }
    ensures indexed { OnOk result (IsIndexed types.old → IsIndexed types.new) }
{
    for given in givens {
        keep(types, given)?;
    }
    Ok(())
}

/// Keeps what is given to a name in each branch of a case, where its type is known.
fn keep_named<'m>(scope: &mut Scope<'m>, given: Given<'m>) -> Result<(), AllocError>
    ensures { OnOk result ((n : List ℕ) → found scope.new n ≡ put (bytes_eq given.entry.name.now n) given.entry.ty (found scope.old n)) }
{
    let Given { name, ty, .. } = given;
    match ty {
        None => Ok(()),
        Some(ty) => {
            scope.insert(name, ty)?;
            Ok(())
        }
    }
}

fn keep_names<'m>(alloc: Global, givens: Vec<Given<'m>>) -> Result<Scope<'m>, AllocError>
    ensures { IfOk result (λ scope. (n : List ℕ) → found scope n ≡ named_after (map seen_given givens.entry.items) n None) }
{
    let mut scope = BTreeMap::new(alloc);
    for given in givens {
        keep_named(&mut scope, given)?;
    }
    Ok(scope)
}

/// What the tunnels of a case give to names in each of its branches, here in diagram 0.
fn scope_of<'m>(
    alloc: Global,
    types: &WireTypes<'m>,
    outer: u32,
    lines: &'m [Tunnel],
) -> Result<Scope<'m>, AllocError>
    ensures { IfOk result (λ scope. IsScope (types_of types.now) outer lines.now scope) }
{
    let mut givens = Vec::new(alloc);
    push_inside(alloc, &mut givens, types, outer, 0, None, lines)?;
    let scope = keep_names(alloc, givens)?;
    Ok(scope)
}

/// Adds what the tunnels of a case give, once for all its branches.
fn take_branches<'m>(
    alloc: Global,
    types: &mut WireTypes<'m>,
    outer: u32,
    lines: &'m [Tunnel],
    arms: &'m [Arm<'m>],
) -> Result<(), AllocError>
    requires indexed { IsIndexed types.now }
    requires fresh { IsFresh (types_of types.now) (arms_inside (types_of types.now) outer lines.now (map seen_arm arms.now)) }
    ensures indexed { OnOk result (IsIndexed types.new) }
    ensures adds { OnOk result (Adds (types_of types.old) (types_of types.new) (arms_inside (types_of types.old) outer lines.now (map seen_arm arms.now))) }
{
    let scope = scope_of(alloc, types, outer, lines)?;
    types.insert_in_branches(alloc, scope, arms)?;
    Ok(())
}

/// Adds what a step gives, name by name.
fn take_by_name<'p, 'm>(
    alloc: Global,
    types: &mut WireTypes<'m>,
    panels: &Panels<'p>,
    objects: &ObjectTypes<'p>,
    step: Step<'m>,
) -> Result<(), AllocError>
    requires indexed { IsIndexed types.now }
    requires fresh { IsFresh (types_of types.now) (form_gives (callees_in panels.now) (objects_in objects.now) (types_of types.now) (seen_step step)) }
    ensures indexed { OnOk result (IsIndexed types.new) }
    ensures adds { OnOk result (Adds (types_of types.old) (types_of types.new) (form_gives (callees_in panels.now) (objects_in objects.now) (types_of types.old) (seen_step step.entry))) }
{
    let mut givens = Vec::new(alloc);
    push_gives(alloc, &mut givens, panels, objects, types, step)?;
    keep_all(types, givens)?;
    Ok(())
}

/// Adds what a step gives by the types so far.
fn take_step<'p, 'm>(
    alloc: Global,
    types: &mut WireTypes<'m>,
    panels: &Panels<'p>,
    objects: &ObjectTypes<'p>,
    step: Step<'m>,
) -> Result<(), AllocError>
    requires indexed { IsIndexed types.now }
    requires fresh { IsFresh (types_of types.now) (form_gives (callees_in panels.now) (objects_in objects.now) (types_of types.now) (seen_step step)) }
    ensures indexed { OnOk result (IsIndexed types.new) }
    ensures adds { OnOk result (Adds (types_of types.old) (types_of types.new) (form_gives (callees_in panels.now) (objects_in objects.now) (types_of types.old) (seen_step step.entry))) }
{
    match step {
        Step::Branches { outer, lines, arms } => take_branches(alloc, types, outer, lines, arms),
        _ => take_by_name(alloc, types, panels, objects, step),
    }
}

/// The step of a number.
fn step_at<'m>(steps: &[Step<'m>], node: usize) -> Step<'m>
    requires { node < length steps.now }
    ensures { slice_get steps.now node ≡ Some result }
{
    steps[node]
}

/// The types after all steps, in an order in which each reads only what those before it give.
fn walk_steps<'p, 'm>(
    alloc: Global,
    panels: &Panels<'p>,
    objects: &ObjectTypes<'p>,
    steps: &[Step<'m>],
    nodes: &[usize],
) -> Result<WireTypes<'m>, AllocError>
    requires { CanWalk (steps_of (callees_in panels.now) (objects_in objects.now) (map seen_step steps.now)) nodes.now }
    ensures { IfOk result (λ types. HasWalked (steps_of (callees_in panels.now) (objects_in objects.now) (map seen_step steps.now)) nodes.now (length nodes.now) (types_of types)) }
{
    let mut types = WireTypes::new(alloc);
    for node in nodes {
        let step = step_at(steps, *node);
        take_step(alloc, &mut types, panels, objects, step)?;
    }
    Ok(types)
}

/// The types of a VI's wires: each source has what its line gives it, and what no line gives has none.
pub fn vi_types<'p, 'm>(
    alloc: Global,
    panels: &Panels<'p>,
    objects: &ObjectTypes<'p>,
    panel: &'m [PanelItem],
    entries: &'m [Entry<'m>],
) -> Result<WireTypes<'m>, AllocError>
    requires objects { objects_in objects.now ≡ panel_type panel.now }
    requires typable { IsTypable (callees_in panels.now) panel.now (map seen entries.now) }
    ensures { IfOk result (λ types. IsTypingBy (callees_in panels.now) panel.now (map seen entries.now) (types_of types)) }
{
    let steps = all_steps(alloc, panel, entries)?;
    let graph = step_graph(alloc, steps.as_slice())?;
    match order(alloc, graph.as_slice())? {
        None => unreachable!(),
        Some(nodes) => walk_steps(alloc, panels, objects, steps.as_slice(), nodes.as_slice()),
    }
}
