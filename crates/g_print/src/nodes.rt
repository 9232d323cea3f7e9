//! Nodes and the diagrams in them.

ghost use Rattle.std.specs.Prelude.{◌≡◌, ◌<◌, ◌^◌, ◌+◌, ◌++◌, ◌∷◌, ℕ, List, OnOk, map};
ghost use Rattle.g_diagram.specs.Text as spec;

use crate::borders::{write_borders, write_gives};
use crate::literals::{write_literal, write_quoted, write_selectors};
use crate::page::Page;
use crate::words::start_primitive;
use g_diagram::{Branch, Diagram, Lit, Node, SequenceFrame, Tunnel, Wire};
use g_operations::shared_row;
use g_types::{Name, Ty};
use std::alloc::AllocError;

/// Writes the nodes of a diagram.
#[cycle(diagram)]
#[tactic(auto, using(crate::proofs::TextLemmas::nodes))]
pub fn write_diagram(page: &mut Page, depth: usize, diagram: &Diagram) -> Result<(), AllocError>
    ensures { (rest : List ℕ) → OnOk result (page.new ++ rest ≡ page.old ++ spec.diagram diagram.now depth rest) }
{
    let nodes = diagram.nodes.as_slice();
    for node in nodes {
        write_node(page, depth, node)?;
    }
    Ok(())
}

/// Writes a node with all that stands in it.
#[cycle(diagram)]
#[tactic(auto, using(crate::proofs::TextLemmas::nodes))]
fn write_node(page: &mut Page, depth: usize, node: &Node) -> Result<(), AllocError>
    ensures { (rest : List ℕ) → OnOk result (page.new ++ rest ≡ page.old ++ spec.node node.now depth rest) }
{
    match node {
        Node::Const { ty, literal, out } => write_const(page, depth, ty, literal, out),
        Node::Apply {
            primitive,
            inputs,
            outputs,
        } => {
            start_primitive(page, depth, *primitive)?;
            write_operands(page, inputs.as_slice(), outputs.as_slice())
        }
        Node::Shared {
            operation,
            inputs,
            outputs,
        } => {
            page.start(depth, shared_row(*operation).word)?;
            write_operands(page, inputs.as_slice(), outputs.as_slice())
        }
        Node::Obtain {
            queue,
            size,
            item,
            out,
        } => write_obtain(page, depth, queue, size, item, out),
        Node::Read { object, out } => write_read(page, depth, object, out),
        Node::Write { object, input } => write_write(page, depth, object, input),
        Node::Call {
            vi,
            inputs,
            outputs,
        } => {
            page.start(depth, b"call")?;
            page.word(vi.as_slice())?;
            write_operands(page, inputs.as_slice(), outputs.as_slice())
        }
        Node::For {
            count,
            iteration,
            lines,
            body,
        } => {
            write_header(page, depth, b"for", count, iteration)?;
            write_loop(page, depth, lines.as_slice(), body)
        }
        Node::While {
            stop,
            iteration,
            lines,
            body,
        } => {
            write_header(page, depth, b"while", stop, iteration)?;
            write_loop(page, depth, lines.as_slice(), body)
        }
        Node::Case {
            selector,
            lines,
            branches,
        } => write_case(page, depth, selector, lines.as_slice(), branches.as_slice()),
        Node::Sequence { frames } => {
            page.bare_line(depth, b"sequence")?;
            write_frames(page, depth, frames.as_slice())?;
            page.bare_line(depth, b"end")
        }
        Node::InPlace { lines, body } => {
            page.bare_line(depth, b"inplace")?;
            write_loop(page, depth, lines.as_slice(), body)
        }
    }
}

fn write_const(
    page: &mut Page,
    depth: usize,
    ty: &Ty,
    literal: &Lit,
    out: &Wire,
) -> Result<(), AllocError>
    ensures { (rest : List ℕ) → OnOk result (page.new ++ rest ≡ page.old ++ spec.const_line ty.now literal.now out.now depth rest) }
{
    page.start(depth, b"const")?;
    page.ty(ty)?;
    page.push(b" ")?;
    write_literal(page, literal)?;
    page.arrow_to(out)?;
    page.end_line()
}

fn write_obtain(
    page: &mut Page,
    depth: usize,
    queue: &Name,
    size: &i32,
    item: &Ty,
    out: &Wire,
) -> Result<(), AllocError>
    ensures { (rest : List ℕ) → OnOk result (page.new ++ rest ≡ page.old ++ spec.obtain_line queue.now size.now item.now out.now depth rest) }
{
    page.start(depth, b"obtain")?;
    page.push(b" ")?;
    write_quoted(page, queue.as_slice())?;
    page.push(b" ")?;
    page.number(&i128::from(*size))?;
    page.ty(item)?;
    page.arrow_to(out)?;
    page.end_line()
}

fn write_read(page: &mut Page, depth: usize, object: &Name, out: &Wire) -> Result<(), AllocError>
    ensures { (rest : List ℕ) → OnOk result (page.new ++ rest ≡ page.old ++ spec.read_line object.now out.now depth rest) }
{
    page.start(depth, b"read")?;
    page.word(object.as_slice())?;
    page.arrow_to(out)?;
    page.end_line()
}

fn write_write(page: &mut Page, depth: usize, object: &Name, input: &Wire) -> Result<(), AllocError>
    ensures { (rest : List ℕ) → OnOk result (page.new ++ rest ≡ page.old ++ spec.write_line object.now input.now depth rest) }
{
    page.start(depth, b"write")?;
    page.word(object.as_slice())?;
    page.wire(input)?;
    page.end_line()
}

/// Writes inputs, outputs and the end of their line.
fn write_operands(page: &mut Page, inputs: &[Wire], outputs: &[Wire]) -> Result<(), AllocError>
    ensures { (rest : List ℕ) → OnOk result (page.new ++ rest ≡ page.old ++ spec.operands inputs.now outputs.now (10 ∷ rest)) }
{
    page.wires(inputs)?;
    page.outputs(outputs)?;
    page.end_line()
}

/// Writes the first line of a loop.
fn write_header(
    page: &mut Page,
    depth: usize,
    head: &[u8],
    from: &Wire,
    to: &Wire,
) -> Result<(), AllocError>
    ensures text { (rest : List ℕ) → OnOk result (page.new ++ rest ≡ page.old ++ spec.line_from depth head.now (spec.across from.now to.now) rest) }
    ensures fits { OnOk result (depth < 2 ^ 62) }
{
    page.start(depth, head)?;
    page.across(from, to)?;
    page.end_line()
}

/// Writes the lines of a header, `do`, the diagram inside and `end`.
#[cycle(diagram)]
fn write_loop(
    page: &mut Page,
    depth: usize,
    lines: &[Tunnel],
    body: &Diagram,
) -> Result<(), AllocError>
    requires { depth < 2 ^ 62 }
    ensures { (rest : List ℕ) → OnOk result (page.new ++ rest ≡ page.old ++ spec.ended (spec.with_body lines.now (spec.diagram body.now)) depth rest) }
{
    write_body(page, depth, lines, body)?;
    page.bare_line(depth, b"end")
}

#[cycle(diagram)]
fn write_case(
    page: &mut Page,
    depth: usize,
    selector: &Wire,
    lines: &[Tunnel],
    branches: &[Branch],
) -> Result<(), AllocError>
    ensures { (rest : List ℕ) → OnOk result (page.new ++ rest ≡ page.old ++ spec.case_block selector.now lines.now (map spec.branch branches.now) depth rest) }
{
    page.start(depth, b"case")?;
    page.wire(selector)?;
    page.end_line()?;
    write_borders(page, depth + 1, lines)?;
    write_branches(page, depth, branches)?;
    page.bare_line(depth, b"end")
}

/// Writes the lines of a header, `do` and the diagram inside.
#[cycle(diagram)]
fn write_body(
    page: &mut Page,
    depth: usize,
    lines: &[Tunnel],
    body: &Diagram,
) -> Result<(), AllocError>
    requires { depth < 2 ^ 62 }
    ensures { (rest : List ℕ) → OnOk result (page.new ++ rest ≡ page.old ++ spec.with_body lines.now (spec.diagram body.now) depth rest) }
{
    write_borders(page, depth + 1, lines)?;
    page.bare_line(depth, b"do")?;
    write_diagram(page, depth + 1, body)
}

#[cycle(diagram)]
fn write_branches(page: &mut Page, depth: usize, branches: &[Branch]) -> Result<(), AllocError>
    ensures { (rest : List ℕ) → OnOk result (page.new ++ rest ≡ page.old ++ spec.blocks (map spec.branch branches.now) depth rest) }
{
    for branch in branches {
        write_branch(page, depth, branch)?;
    }
    Ok(())
}

#[cycle(diagram)]
#[tactic(auto, using(crate::proofs::TextLemmas::nodes))]
fn write_branch(page: &mut Page, depth: usize, branch: &Branch) -> Result<(), AllocError>
    ensures { (rest : List ℕ) → OnOk result (page.new ++ rest ≡ page.old ++ spec.branch branch.now depth rest) }
{
    page.start(depth, b"when")?;
    page.push(b" ")?;
    write_selectors(page, branch.selectors.as_slice())?;
    page.end_line()?;
    write_gives(page, depth + 1, branch.gives.as_slice())?;
    write_diagram(page, depth + 1, &branch.body)
}

#[cycle(diagram)]
fn write_frames(page: &mut Page, depth: usize, frames: &[SequenceFrame]) -> Result<(), AllocError>
    ensures { (rest : List ℕ) → OnOk result (page.new ++ rest ≡ page.old ++ spec.blocks (map spec.frame frames.now) depth rest) }
{
    for frame in frames {
        write_frame(page, depth, frame)?;
    }
    Ok(())
}

#[cycle(diagram)]
#[tactic(auto, using(crate::proofs::TextLemmas::nodes))]
fn write_frame(page: &mut Page, depth: usize, frame: &SequenceFrame) -> Result<(), AllocError>
    ensures { (rest : List ℕ) → OnOk result (page.new ++ rest ≡ page.old ++ spec.frame frame.now depth rest) }
{
    page.bare_line(depth, b"frame")?;
    write_body(page, depth, frame.lines.as_slice(), &frame.body)
}
