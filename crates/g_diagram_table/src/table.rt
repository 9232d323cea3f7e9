//! The table of nodes.

ghost use Rattle.std.specs.Prelude.{◌≡◌, ◌++◌, ◌+◌, ◌∷◌, [], length, map, IfOk, OnOk};
ghost use Rattle.std.specs.Option.{option_map};
ghost use Rattle.g_diagram.specs.Lines as spec;
ghost use Rattle.g_diagram.specs.Lines.{lines_of, diagram_lines, branch_lines, frame_lines, entries_in, entries_of, panel_entries, branches_entries, frames_entries, loop_lines};
ghost use Rattle.g_diagram_table.specs.Seen.{seen, seen_arm, seen_part, seen_kind};

use crate::count::{add, number};
use crate::entry::{Arm, Entry, Kind, Part};
use g_diagram::{
    Branch, Diagram, Node, PanelItem, SequenceFrame, Tunnel, Vi, Wire, branch_line_count,
    frame_line_count, give_line_count, node_line_count, nodes_line_count,
};
use std::alloc::{AllocError, Global};

fn push<'a>(
    entries: &mut Vec<Entry<'a>>,
    line: u32,
    diagram: u32,
    kind: Kind<'a>,
) -> Result<(), AllocError>
    ensures { OnOk result (map seen entries.new.items ≡ map seen entries.old.items ++ spec.entry line diagram (seen_kind kind.entry) ∷ []) }
{
    entries.push(Entry {
        line,
        diagram,
        kind,
    })?;
    Ok(())
}

/// The branches of a case, from the line of its first `when`.
fn arms_from<'a>(
    alloc: Global,
    first: u32,
    branches: &'a [Branch],
) -> Result<Vec<Arm<'a>>, AllocError>
    ensures { IfOk result (λ arms. map seen_arm arms.items ≡ spec.arms first (map branch_lines branches.now)) }
{
    let mut arms = Vec::new(alloc);
    let mut line = first;
    for branch in branches {
        arms.push(Arm {
            selectors: branch.selectors.as_slice(),
            gives: branch.gives.as_slice(),
            body: line,
        })?;
        line = add(line, branch_line_count(branch).ok_or(AllocError)?)?;
    }
    Ok(arms)
}

/// The frames of a sequence, from the line of its first `frame`.
fn parts_from<'a>(
    alloc: Global,
    first: u32,
    frames: &'a [SequenceFrame],
) -> Result<Vec<Part<'a>>, AllocError>
    ensures { IfOk result (λ parts. map seen_part parts.items ≡ spec.parts first (map frame_lines frames.now)) }
{
    let mut parts = Vec::new(alloc);
    let mut line = first;
    for frame in frames {
        parts.push(Part {
            lines: frame.lines.as_slice(),
            body: line,
        })?;
        line = add(line, frame_line_count(frame).ok_or(AllocError)?)?;
    }
    Ok(parts)
}

/// The line after a header and its border lines.
fn after_border(line: u32, lines: &[Tunnel]) -> Result<u32, AllocError>
    ensures { IfOk result (λ first. first ≡ line + 1 + length lines.now) }
{
    add(add(line, 1)?, number(lines.len())?)
}

/// The operands of a `for` or of a `while`, with its border lines.
#[derive(Clone, Copy)]
struct LoopHeader<'a> {
    count: Option<&'a Wire>,
    stop: Option<&'a Wire>,
    iteration: &'a Wire,
    lines: &'a [Tunnel],
}

/// A loop and all nodes inside it, from a line on.
#[cycle(walk)]
#[tactic(auto, using(g_diagram::proofs::LineLemmas::lines_by_variant))]
fn push_loop<'a>(
    alloc: Global,
    entries: &mut Vec<Entry<'a>>,
    header: LoopHeader<'a>,
    body: &'a Diagram,
    line: u32,
    diagram: u32,
) -> Result<(), AllocError>
    ensures { OnOk result (map seen entries.new.items ≡ map seen entries.old.items
        ++ (loop_lines header.entry.lines.now (diagram_lines body.now) (λ first finish.
        spec.Loop (option_map (λ w. w.now) header.entry.count) (option_map (λ w. w.now) header.entry.stop) header.entry.iteration.now header.entry.lines.now first)).entries line diagram) }
{
    let first = after_border(line, header.lines)?;
    push(
        entries,
        line,
        diagram,
        Kind::Loop {
            count: header.count,
            stop: header.stop,
            iteration: header.iteration,
            lines: header.lines,
            body: first,
        },
    )?;
    push_nodes(alloc, entries, body.nodes.as_slice(), add(first, 1)?, first)
}

/// A node and all nodes inside it, from a line on.
#[cycle(walk)]
#[tactic(auto, using(g_diagram::proofs::LineLemmas::lines_by_variant))]
fn push_node<'a>(
    alloc: Global,
    entries: &mut Vec<Entry<'a>>,
    node: &'a Node,
    line: u32,
    diagram: u32,
) -> Result<(), AllocError>
    ensures { OnOk result (map seen entries.new.items ≡ map seen entries.old.items ++ (lines_of node.now).entries line diagram) }
{
    match node {
        Node::Const { ty, literal, out } => push(
            entries,
            line,
            diagram,
            Kind::Const { ty, literal, out },
        ),
        Node::Apply {
            primitive,
            inputs,
            outputs,
        } => {
            let (inputs, outputs) = (inputs.as_slice(), outputs.as_slice());
            push(
                entries,
                line,
                diagram,
                Kind::Apply {
                    primitive: *primitive,
                    inputs,
                    outputs,
                },
            )
        }
        Node::Shared {
            operation,
            inputs,
            outputs,
        } => {
            let (inputs, outputs) = (inputs.as_slice(), outputs.as_slice());
            push(
                entries,
                line,
                diagram,
                Kind::Shared {
                    operation: *operation,
                    inputs,
                    outputs,
                },
            )
        }
        Node::Obtain {
            queue,
            size,
            item,
            out,
        } => push(
            entries,
            line,
            diagram,
            Kind::Obtain {
                queue,
                size: *size,
                item,
                out,
            },
        ),
        Node::Read { object, out } => push(entries, line, diagram, Kind::Read { object, out }),
        Node::Write { object, input } => push(
            entries,
            line,
            diagram,
            Kind::Write { object, input },
        ),
        Node::Call {
            vi,
            inputs,
            outputs,
        } => {
            let (inputs, outputs) = (inputs.as_slice(), outputs.as_slice());
            push(
                entries,
                line,
                diagram,
                Kind::Call {
                    vi,
                    inputs,
                    outputs,
                },
            )
        }
        Node::For {
            count,
            iteration,
            lines,
            body,
        } => {
            let header = LoopHeader {
                count: Some(count),
                stop: None,
                iteration,
                lines: lines.as_slice(),
            };
            push_loop(alloc, entries, header, body, line, diagram)
        }
        Node::While {
            stop,
            iteration,
            lines,
            body,
        } => {
            let header = LoopHeader {
                count: None,
                stop: Some(stop),
                iteration,
                lines: lines.as_slice(),
            };
            push_loop(alloc, entries, header, body, line, diagram)
        }
        Node::Case {
            selector,
            lines,
            branches,
        } => {
            let (lines, branches) = (lines.as_slice(), branches.as_slice());
            let first = after_border(line, lines)?;
            let arms = arms_from(alloc, first, branches)?;
            push(
                entries,
                line,
                diagram,
                Kind::Case {
                    selector,
                    lines,
                    arms,
                },
            )?;
            push_branches(alloc, entries, branches, first)
        }
        Node::Sequence { frames } => {
            let first = add(line, 1)?;
            let parts = parts_from(alloc, first, frames.as_slice())?;
            push(entries, line, diagram, Kind::Sequence { parts })?;
            push_frames(alloc, entries, frames.as_slice(), first)
        }
        Node::InPlace { lines, body } => {
            let lines = lines.as_slice();
            let first = after_border(line, lines)?;
            let inside = add(first, 1)?;
            let finish = add(
                inside,
                nodes_line_count(body.nodes.as_slice()).ok_or(AllocError)?,
            )?;
            push(
                entries,
                line,
                diagram,
                Kind::InPlace {
                    lines,
                    body: first,
                    finish,
                },
            )?;
            push_nodes(alloc, entries, body.nodes.as_slice(), inside, first)
        }
    }
}

/// The nodes of a diagram, one after the other.
#[cycle(walk)]
fn push_nodes<'a>(
    alloc: Global,
    entries: &mut Vec<Entry<'a>>,
    nodes: &'a [Node],
    first: u32,
    diagram: u32,
) -> Result<(), AllocError>
    ensures { OnOk result (map seen entries.new.items ≡ map seen entries.old.items ++ entries_in (map lines_of nodes.now) first diagram) }
{
    let mut line = first;
    for node in nodes {
        push_node(alloc, entries, node, line, diagram)?;
        line = add(line, node_line_count(node).ok_or(AllocError)?)?;
    }
    Ok(())
}

/// The nodes of the branches of a case, from the line of its first `when`.
#[cycle(walk)]
#[tactic(auto, using(g_diagram::proofs::LineLemmas::lines_by_variant))]
fn push_branches<'a>(
    alloc: Global,
    entries: &mut Vec<Entry<'a>>,
    branches: &'a [Branch],
    first: u32,
) -> Result<(), AllocError>
    ensures { OnOk result (map seen entries.new.items ≡ map seen entries.old.items ++ branches_entries first (map branch_lines branches.now)) }
{
    let mut line = first;
    for branch in branches {
        let inside = add(add(line, 1)?, give_line_count(branch.gives.as_slice()))?;
        push_nodes(alloc, entries, branch.body.nodes.as_slice(), inside, line)?;
        line = add(line, branch_line_count(branch).ok_or(AllocError)?)?;
    }
    Ok(())
}

/// The nodes of the frames of a sequence, from the line of its first `frame`.
#[cycle(walk)]
#[tactic(auto, using(g_diagram::proofs::LineLemmas::lines_by_variant))]
fn push_frames<'a>(
    alloc: Global,
    entries: &mut Vec<Entry<'a>>,
    frames: &'a [SequenceFrame],
    first: u32,
) -> Result<(), AllocError>
    ensures { OnOk result (map seen entries.new.items ≡ map seen entries.old.items ++ frames_entries first (map frame_lines frames.now)) }
{
    let mut line = first;
    for frame in frames {
        let inside = add(add(line, 2)?, number(frame.lines.len())?)?;
        push_nodes(alloc, entries, frame.body.nodes.as_slice(), inside, line)?;
        line = add(line, frame_line_count(frame).ok_or(AllocError)?)?;
    }
    Ok(())
}

/// The wired indicators of a panel.
fn push_panel<'a>(entries: &mut Vec<Entry<'a>>, panel: &'a [PanelItem]) -> Result<(), AllocError>
    ensures { OnOk result (map seen entries.new.items ≡ map seen entries.old.items ++ panel_entries panel.now 1) }
{
    let mut line = 1;
    for item in panel {
        push_item(entries, item, line)?;
        line = add(line, 1)?;
    }
    Ok(())
}

fn push_item<'a>(
    entries: &mut Vec<Entry<'a>>,
    item: &'a PanelItem,
    line: u32,
) -> Result<(), AllocError>
    ensures { OnOk result (map seen entries.new.items ≡ map seen entries.old.items ++ panel_entries (item.now ∷ []) line) }
{
    match item {
        PanelItem::Control { .. } => Ok(()),
        PanelItem::Indicator { name, ty, input } => match input {
            None => Ok(()),
            Some(_) => push(entries, line, 0, Kind::Shows { name, ty, input }),
        },
    }
}

/// All nodes of a VI, by line: the `vi` line is line 0, a node's line is its first one, and a wired
/// indicator is a node of the VI's own diagram at its panel line. Only want of memory refuses it, and
/// 2^32 lines or more, which no place can name, are told so too.
#[tactic(auto, using(g_diagram::proofs::LineLemmas::in_turn))]
pub fn table<'a>(alloc: Global, vi: &'a Vi) -> Result<Vec<Entry<'a>>, AllocError>
    ensures { IfOk result (λ entries. map seen entries.items ≡ entries_of vi.now) }
{
    let mut entries = Vec::new(alloc);
    push_panel(&mut entries, vi.panel.as_slice())?;
    let first = add(1, number(vi.panel.len())?)?;
    push_nodes(alloc, &mut entries, vi.top.nodes.as_slice(), first, 0)?;
    Ok(entries)
}
