//! The steps of a body in place.

ghost use Rattle.std.specs.Prelude.{◌≡◌, ◌∷◌, ◌++◌, [], ℕ, List as TheList, map, IfOk, OnOk};
ghost use Rattle.std.specs.Option.{option_map, option_to_list};
ghost use Rattle.g_diagram.specs.Lines as lines;
ghost use Rattle.g_diagram.specs.Lines.{Wire as TheWire};
ghost use Rattle.g_border.specs.Bodies as body;
ghost use Rattle.g_border.specs.Bodies.{Readers, kind_steps};
ghost use Rattle.g_diagram_table.specs.Seen.{seen, seen_arm, seen_kind};
ghost use Rattle.g_typing.specs.Types.{Types};
ghost use Rattle.g_bodies.specs.Steps.{step_of, first_step, results_step, outputs_step, AllFit, InputsFit, NodeFits, NodesFit};

use crate::reads::{Reads, push_all_inside, push_all_outside, push_arms, push_wire, push_wires};
use g_diagram::{Lit, Tunnel, Wire};
use g_diagram_table::{Arm, Entry, Kind};
use g_types::Ty;
use g_values::Primitive;
use std::alloc::{AllocError, Global};

/// What a step does.
#[derive(Drop)]
pub enum Work<'t, 'm> {
    /// A constant gives its value.
    Const {
        entry: &'t Entry<'m>,
        ty: &'m Ty,
        literal: &'m Lit,
    },
    /// A primitive gives its outputs.
    Apply {
        entry: &'t Entry<'m>,
        primitive: Primitive,
        inputs: &'m [Wire],
    },
    /// A structure gives what its lines have inside.
    Inside {
        entry: &'t Entry<'m>,
        lines: &'m [Tunnel],
    },
    /// A case gives the results of the branch that it takes.
    Results {
        entry: &'t Entry<'m>,
        selector: &'m Wire,
        lines: &'m [Tunnel],
        arms: &'t [Arm<'m>],
    },
    /// A structure in place gives its outputs.
    Outside {
        entry: &'t Entry<'m>,
        lines: &'m [Tunnel],
        body: u32,
    },
}

/// A step, with the wires that it reads.
#[derive(Drop)]
pub struct Step<'t, 'm> {
    pub reads: Reads<'m>,
    pub work: Work<'t, 'm>,
}

fn push_const<'t, 'm>(
    alloc: Global,
    steps: &mut Vec<Step<'t, 'm>>,
    entry: &'t Entry<'m>,
    ty: &'m Ty,
    literal: &'m Lit,
) -> Result<(), AllocError>
    ensures steps { OnOk result ((types : Types) (out : TheWire) → map (step_of types) steps.new.items ≡ map (step_of types) steps.old.items ++ kind_steps types (seen entry.now) (lines.Const ty.now literal.now out)) }
    ensures fits { OnOk result ((r : ℕ → Readers) → AllFit r steps.old.items → AllFit r steps.new.items) }
{
    steps.push(Step {
        reads: Vec::new(alloc),
        work: Work::Const { entry, ty, literal },
    })?;
    Ok(())
}

fn push_apply<'t, 'm>(
    alloc: Global,
    steps: &mut Vec<Step<'t, 'm>>,
    entry: &'t Entry<'m>,
    primitive: Primitive,
    inputs: &'m [Wire],
) -> Result<(), AllocError>
    ensures steps { OnOk result ((types : Types) (outputs : TheList TheWire) → map (step_of types) steps.new.items ≡ map (step_of types) steps.old.items ++ kind_steps types (seen entry.now) (lines.Apply primitive inputs.now outputs)) }
    ensures fits { OnOk result ((r : ℕ → Readers) → InputsFit r entry.now.diagram primitive inputs.now → AllFit r steps.old.items → AllFit r steps.new.items) }
{
    let mut reads = Vec::new(alloc);
    push_wires(&mut reads, entry.diagram, inputs)?;
    steps.push(Step {
        reads,
        work: Work::Apply {
            entry,
            primitive,
            inputs,
        },
    })?;
    Ok(())
}

/// The first step of a structure, which reads the wires that its node takes.
fn push_first<'t, 'm>(
    alloc: Global,
    steps: &mut Vec<Step<'t, 'm>>,
    entry: &'t Entry<'m>,
    selector: Option<&'m Wire>,
    lines: &'m [Tunnel],
) -> Result<(), AllocError>
    ensures steps { OnOk result ((types : Types) → map (step_of types) steps.new.items ≡ map (step_of types) steps.old.items ++ first_step (seen entry.now) (option_to_list (option_map (λ w. w.now) selector.entry)) lines.now ∷ []) }
    ensures fits { OnOk result ((r : ℕ → Readers) → AllFit r steps.old.items → AllFit r steps.new.items) }
{
    let mut reads = Vec::new(alloc);
    if let Some(selector) = selector {
        push_wire(&mut reads, entry.diagram, selector)?;
    }
    push_all_outside(&mut reads, entry.diagram, lines)?;
    steps.push(Step {
        reads,
        work: Work::Inside { entry, lines },
    })?;
    Ok(())
}

fn push_results<'t, 'm>(
    alloc: Global,
    steps: &mut Vec<Step<'t, 'm>>,
    entry: &'t Entry<'m>,
    selector: &'m Wire,
    lines: &'m [Tunnel],
    arms: &'t [Arm<'m>],
) -> Result<(), AllocError>
    ensures steps { OnOk result ((types : Types) → map (step_of types) steps.new.items ≡ map (step_of types) steps.old.items ++ results_step types (seen entry.now) selector.now lines.now (map seen_arm arms.now) ∷ []) }
    ensures fits { OnOk result ((r : ℕ → Readers) → AllFit r steps.old.items → AllFit r steps.new.items) }
{
    let mut reads = Vec::new(alloc);
    push_wire(&mut reads, entry.diagram, selector)?;
    push_arms(&mut reads, arms)?;
    steps.push(Step {
        reads,
        work: Work::Results {
            entry,
            selector,
            lines,
            arms,
        },
    })?;
    Ok(())
}

fn push_outputs<'t, 'm>(
    alloc: Global,
    steps: &mut Vec<Step<'t, 'm>>,
    entry: &'t Entry<'m>,
    lines: &'m [Tunnel],
    body: u32,
) -> Result<(), AllocError>
    ensures steps { OnOk result ((types : Types) → map (step_of types) steps.new.items ≡ map (step_of types) steps.old.items ++ outputs_step types (seen entry.now) lines.now body ∷ []) }
    ensures fits { OnOk result ((r : ℕ → Readers) → AllFit r steps.old.items → AllFit r steps.new.items) }
{
    let mut reads = Vec::new(alloc);
    push_all_outside(&mut reads, entry.diagram, lines)?;
    push_all_inside(&mut reads, body, lines)?;
    steps.push(Step {
        reads,
        work: Work::Outside { entry, lines, body },
    })?;
    Ok(())
}

/// Adds the steps of a node. One that may not stand in a body has none.
fn push_steps<'t, 'm>(
    alloc: Global,
    steps: &mut Vec<Step<'t, 'm>>,
    entry: &'t Entry<'m>,
) -> Result<(), AllocError>
    ensures steps { OnOk result ((types : Types) → map (step_of types) steps.new.items ≡ map (step_of types) steps.old.items ++ kind_steps types (seen entry.now) (seen_kind entry.now.kind)) }
    ensures fits { OnOk result ((r : ℕ → Readers) → NodeFits r (seen entry.now) → AllFit r steps.old.items → AllFit r steps.new.items) }
{
    match &entry.kind {
        Kind::Const { ty, literal, .. } => push_const(alloc, steps, entry, *ty, *literal),
        Kind::Apply {
            primitive,
            inputs,
            ..
        } => push_apply(alloc, steps, entry, *primitive, *inputs),
        Kind::Case {
            selector,
            lines,
            arms,
        } => {
            push_first(alloc, steps, entry, Some(*selector), *lines)?;
            push_results(alloc, steps, entry, *selector, *lines, arms.as_slice())
        }
        Kind::InPlace { lines, body, .. } => {
            push_first(alloc, steps, entry, None, *lines)?;
            push_outputs(alloc, steps, entry, *lines, *body)
        }
        Kind::Shows { .. }
        | Kind::Shared { .. }
        | Kind::Obtain { .. }
        | Kind::Read { .. }
        | Kind::Write { .. }
        | Kind::Call { .. }
        | Kind::Loop { .. }
        | Kind::Sequence { .. } => Ok(()),
    }
}

/// The steps of nodes, in their order.
pub fn steps_of<'t, 'm>(
    alloc: Global,
    entries: &'t [Entry<'m>],
) -> Result<Vec<Step<'t, 'm>>, AllocError>
    ensures steps { IfOk result (λ steps. (types : Types) → map (step_of types) steps.items ≡ body.steps_of types (map seen entries.now)) }
    ensures fits { IfOk result (λ steps. (r : ℕ → Readers) → NodesFit r (map seen entries.now) → AllFit r steps.items) }
{
    let mut steps = Vec::new(alloc);
    for entry in entries {
        push_steps(alloc, &mut steps, entry)?;
    }
    Ok(steps)
}
