//! What steps give, by the types at the operands that they read.

ghost use Rattle.std.specs.Prelude.{◌≡◌, ◌++◌, map, OnOk};
ghost use Rattle.g_diagram_table.specs.Seen.{seen};
ghost use Rattle.g_typing.specs.Rows.{has_rows};
ghost use Rattle.g_typing.specs.Typing as spec;
ghost use Rattle.g_infer.specs.Given.{seen_given};
ghost use Rattle.g_infer.specs.Gives.{form_gives};
ghost use Rattle.g_rules_types.specs.Known.{types_of};
ghost use Rattle.g_rules_types.specs.Panels.{callees_in, objects_in};
ghost use Rattle.g_infer.specs.Steps.{seen_step};

use crate::giving::{
    Given, has_rows, push, push_arms, push_controls, push_inside, push_node, push_outside,
    push_result, whole,
};
use crate::steps::Step;
use g_diagram::Tunnel;
use g_diagram_table::Entry;
use g_rules_types::panels::{ObjectTypes, Panels};
use g_rules_types::types::WireTypes;
use std::alloc::{AllocError, Global};

/// What a node's border lines give outside.
fn push_closing<'m>(
    alloc: Global,
    givens: &mut Vec<Given<'m>>,
    types: &WireTypes<'m>,
    entry: &'m Entry<'m>,
    inner: u32,
    lines: &'m [Tunnel],
) -> Result<(), AllocError>
    ensures { OnOk result (map seen_given givens.new.items ≡ map seen_given givens.old.items
        ++ spec.lines_outside (types_of types.now) (has_rows (types_of types.now) (seen entry.now)) entry.now.diagram inner lines.now) }
{
    let ok = has_rows(alloc, types, entry)?;
    push_outside(alloc, givens, types, ok, entry.diagram, inner, lines)
}

/// What a step gives.
pub fn push_gives<'p, 'm>(
    alloc: Global,
    givens: &mut Vec<Given<'m>>,
    panels: &Panels<'p>,
    objects: &ObjectTypes<'p>,
    types: &WireTypes<'m>,
    step: Step<'m>,
) -> Result<(), AllocError>
    ensures { OnOk result (map seen_given givens.new.items ≡ map seen_given givens.old.items
        ++ form_gives (callees_in panels.now) (objects_in objects.now) (types_of types.now) (seen_step step.entry)) }
{
    match step {
        Step::Controls(items) => push_controls(alloc, givens, items),
        Step::Plain(entry) => push_node(alloc, givens, panels, objects, types, entry),
        Step::Iteration { body, wire } => push(givens, body, wire, Some(whole())),
        Step::Branches { outer, lines, arms } => {
            push_arms(alloc, givens, types, outer, lines, arms)
        }
        Step::Opening {
            outer,
            inner,
            before,
            lines,
        } => push_inside(alloc, givens, types, outer, inner, before, lines),
        Step::Closing {
            entry,
            inner,
            lines,
        } => push_closing(alloc, givens, types, entry, inner, lines),
        Step::FrameClosing {
            outer,
            inner,
            lines,
        } => push_outside(alloc, givens, types, true, outer, inner, lines),
        Step::Result {
            outer,
            number,
            arms,
            tunnel,
        } => push_result(alloc, givens, types, outer, number, arms, tunnel),
    }
}
