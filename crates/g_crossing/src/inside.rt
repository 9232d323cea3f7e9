//! What the lines of a structure give inside, to a frame that opens.

ghost use Rattle.std.specs.Prelude.{◌≡◌, ◌+◌, ◌∷◌, ◌++◌, [], ℕ, pos, IfOk, OnOk};
ghost use Rattle.std.specs.Option.{option_copied, option_map};
ghost use Rattle.g_border.specs.Lines as border;
ghost use Rattle.g_border.specs.Loops as loops;
ghost use Rattle.g_diagram.specs.Operands.{Inside, loop_header};
ghost use Rattle.g_border.specs.Readers.{sources_on};
ghost use Rattle.g_types.specs.declared.rep.Rep.TheVariants.{I32};
ghost use Rattle.g_prims_definitions.specs.Arithmetic.{number};
ghost use Rattle.g_prims_definitions.specs.Clusters.{or_nothing};
ghost use Rattle.g_crossing.specs.Crossing.{IsEntering};
ghost use Rattle.g_crossing.specs.Kept.{entered, inside_from, kept_value, placed};

use crate::values::{
    copied, element_of_iteration, element_on, kept_at, kept_register, next, next_kept, part_on,
    register, value_in,
};
use g_border::WireSource;
use g_diagram::{Tunnel, Wire};
use g_lists::List;
use g_types::Rep;
use g_values::{Num, Value};
use g_wire_values::Wires;
use std::alloc::{AllocError, Global};

/// Values at sources of a frame.
pub type Given = List<(WireSource, Value)>;

/// A frame that opens: what the lines of its structure read.
#[derive(Clone, Copy)]
pub struct Entering<'a> {
    /// The values of the diagram that holds the structure.
    pub outer: Wires<'a>,
    /// Those of the frame before, if there is one.
    pub before: Option<Wires<'a>>,
    /// The number of the frame, from 0.
    pub iteration: u64,
    /// What the kept registers had when the loop started, in the order of their lines.
    pub kept: &'a [Value],
    /// What the reference of a structure in place refers to.
    pub referred: Option<&'a Value>,
}

/// The value that a line gives inside, with its operand. A kept register had this value when its loop started.
fn value_inside(
    alloc: Global,
    entering: &Entering,
    kept: Option<&Value>,
    tunnel: &Tunnel,
) -> Result<Option<(u32, Value)>, AllocError>
    ensures { IfOk result (λ g. (l : ℕ) → placed l g ≡ border.line_inside (entered entering.now (or_nothing (option_copied kept.entry))) l tunnel.now) }
{
    let (outer, before) = (&entering.outer, entering.before);
    match tunnel {
        Tunnel::Tunnel { outer: wire, .. } => Ok(Some((2, outer.value(alloc, wire)?))),
        Tunnel::Register { initial, next, .. } => {
            Ok(Some((2, register(alloc, outer, before, initial, next)?)))
        }
        Tunnel::Kept { ty, next, .. } => {
            Ok(Some((2, kept_register(alloc, before, kept, ty, next)?)))
        }
        Tunnel::Index { array, .. } => Ok(Some((
            2,
            element_of_iteration(alloc, outer, array, entering.iteration)?,
        ))),
        Tunnel::Carry { before: wire, .. } => Ok(Some((2, value_in(alloc, before, wire)?))),
        Tunnel::Ref { .. } => Ok(Some((2, copied(alloc, entering.referred)?))),
        Tunnel::Element { array, index, .. } => {
            Ok(Some((3, element_on(alloc, outer, array, index)?)))
        }
        Tunnel::Field { field, cluster, .. } => {
            Ok(Some((2, part_on(alloc, outer, *field, cluster)?)))
        }
        Tunnel::Last { .. } | Tunnel::Gather { .. } | Tunnel::Result { .. } => Ok(None),
    }
}

/// Adds a value at an operand of a line, if there is one.
pub fn place(given: &mut Given, line: u32, value: Option<(u32, Value)>) -> Result<(), AllocError>
    ensures { OnOk result (given.new ≡ given.old ++ placed line value) }
{
    if let Some((operand, value)) = value {
        given.push((WireSource { line, operand }, value))?;
    }
    Ok(())
}

/// What a line gives inside, by the number of the kept register that comes next.
fn push_line(
    alloc: Global,
    given: &mut Given,
    entering: &Entering,
    register: usize,
    line: u32,
    tunnel: &Tunnel,
) -> Result<(), AllocError>
    ensures { OnOk result (given.new ≡ given.old ++ border.line_inside (entered entering.now (kept_value entering.now.kept.now register)) line tunnel.now) }
{
    let kept = kept_at(entering.kept, register);
    let value = value_inside(alloc, entering, kept, tunnel)?;
    place(given, line, value)
}

/// What lines, from one on, give inside, one after another.
fn push_lines(
    alloc: Global,
    given: &mut Given,
    entering: &Entering,
    first: u32,
    lines: &[Tunnel],
) -> Result<(), AllocError>
    ensures { OnOk result (given.new ≡ given.old ++ inside_from entering.now 0 first lines.now) }
{
    let (mut line, mut register) = (first, 0);
    for tunnel in lines {
        push_line(alloc, given, entering, register, line, tunnel)?;
        register = next_kept(tunnel, register)?;
        line = next(line)?;
    }
    Ok(())
}

/// What lines, from one on, give inside. Only want of memory refuses it, or a line of 2^32 or more, which no
/// listing has.
pub fn lines_inside(
    alloc: Global,
    entering: &Entering,
    first: u32,
    lines: &[Tunnel],
) -> Result<Given, AllocError>
    ensures { IfOk result (λ g. (e : border.Entering) → IsEntering first lines.now entering.now e → g ≡ border.lines_inside e first lines.now) }
{
    let mut given = List::new(alloc);
    push_lines(alloc, &mut given, entering, first, lines)?;
    Ok(given)
}

/// The operand of a loop's first line that gives the number of the iteration.
fn iteration_operand(count: Option<&Wire>, stop: Option<&Wire>, iteration: &Wire) -> u32
    ensures { sources_on Inside 1 (loop_header (option_map (λ w. w.now) count.entry) (option_map (λ w. w.now) stop.entry) iteration.now) ≡ result ∷ [] }
{
    match (count, stop) {
        (None, None) => 1,
        (Some(_), None) | (None, Some(_)) => 2,
        (Some(_), Some(_)) => 3,
    }
}

/// The number of an iteration at an operand of a line.
fn number_given(alloc: Global, line: u32, operand: u32, iteration: u64) -> Result<Given, AllocError>
    ensures { IfOk result (λ g. g ≡ (record { line = line; operand = operand }, number I32 (pos iteration)) ∷ []) }
{
    let number = Value::Num(Num::wrapped(Rep::I32, i128::from(iteration)));
    let mut given = List::new(alloc);
    given.push((WireSource { line, operand }, number))?;
    Ok(given)
}

/// What a loop on a line, with these operands and border lines, gives to an iteration. Only want of memory
/// refuses it, or a line of 2^32 or more.
pub fn iteration_inside(
    alloc: Global,
    entering: &Entering,
    line: u32,
    count: Option<&Wire>,
    stop: Option<&Wire>,
    iteration: &Wire,
    lines: &[Tunnel],
) -> Result<Given, AllocError>
    ensures { IfOk result (λ g. (e : border.Entering) → IsEntering (line + 1) lines.now entering.now e → g ≡ loops.iteration_inside e line (option_map (λ w. w.now) count.entry) (option_map (λ w. w.now) stop.entry) iteration.now lines.now) }
{
    let operand = iteration_operand(count, stop, iteration);
    let mut given = number_given(alloc, line, operand, entering.iteration)?;
    let first = next(line)?;
    push_lines(alloc, &mut given, entering, first, lines)?;
    Ok(given)
}
