//! How many lines there are. Of 2^32 lines or more, which no place can name, there is no number.

ghost use Rattle.std.specs.Prelude.{◌≡◌, ◌≤◌, ◌+◌, MatchOption, length, map};
ghost use Rattle.g_diagram.specs.Lines.{lines_of, branch_lines, frame_lines, count_of, give_lines, branch_count, frame_count};
ghost use Rattle.g_diagram.specs.Lines as spec;
ghost use Rattle.g_diagram.specs.Sizes.{vi_lines, told};

use crate::hierarchy::Vi;
use crate::node::{Branch, Diagram, Node, SequenceFrame, Tunnel};
use crate::panel::Wire;

/// The sum of two numbers of lines.
fn add(a: u32, b: u32) -> Option<u32>
    ensures { MatchOption result (4294967296 ≤ a + b) (λ n. n ≡ a + b) }
{
    a.checked_add(b)
}

/// A number of lines.
fn number(n: usize) -> Option<u32>
    ensures { MatchOption result (4294967296 ≤ n) (λ m. m ≡ n) }
{
    u32::try_from(n).ok()
}

/// How many lines a `give` takes: it stands where there is something to give.
pub fn give_line_count(gives: &[Wire]) -> u32
    ensures { result ≡ give_lines gives.now }
{
    if gives.is_empty() { 0 } else { 1 }
}

/// How many lines a node takes, with all that stands inside it.
#[cycle(count)]
#[tactic(auto, using(crate::proofs::LineLemmas::lines_by_variant))]
pub fn node_line_count(node: &Node) -> Option<u32>
    ensures { MatchOption result (4294967296 ≤ (lines_of node.now).count) (λ n. n ≡ (lines_of node.now).count) }
{
    match node {
        Node::Const { .. }
        | Node::Apply { .. }
        | Node::Shared { .. }
        | Node::Obtain { .. }
        | Node::Read { .. }
        | Node::Write { .. }
        | Node::Call { .. } => Some(1),
        Node::For { lines, body, .. } => loop_line_count(lines.as_slice(), body),
        Node::While { lines, body, .. } => loop_line_count(lines.as_slice(), body),
        Node::InPlace { lines, body } => loop_line_count(lines.as_slice(), body),
        Node::Case {
            lines,
            branches,
            ..
        } => {
            let header = add(2, number(lines.len())?)?;
            add(header, branches_line_count(branches.as_slice())?)
        }
        Node::Sequence { frames } => add(2, frames_line_count(frames.as_slice())?),
    }
}

/// A header, its border lines, `do`, a body and `end`.
#[cycle(count)]
fn loop_line_count(lines: &[Tunnel], body: &Diagram) -> Option<u32>
    ensures { MatchOption result (4294967296 ≤ 3 + length lines.now + count_of (map lines_of body.now.nodes)) (λ n. n ≡ 3 + length lines.now + count_of (map lines_of body.now.nodes)) }
{
    let border = add(3, number(lines.len())?)?;
    add(border, nodes_line_count(body.nodes.as_slice())?)
}

/// The lines of nodes.
#[cycle(count)]
pub fn nodes_line_count(nodes: &[Node]) -> Option<u32>
    ensures { MatchOption result (4294967296 ≤ count_of (map lines_of nodes.now)) (λ n. n ≡ count_of (map lines_of nodes.now)) }
{
    let mut total = 0;
    for node in nodes {
        total = add(total, node_line_count(node)?)?;
    }
    Some(total)
}

/// The lines of a branch.
#[cycle(count)]
#[tactic(auto, using(crate::proofs::LineLemmas::lines_by_variant))]
pub fn branch_line_count(branch: &Branch) -> Option<u32>
    ensures { MatchOption result (4294967296 ≤ branch_count (branch_lines branch.now)) (λ n. n ≡ branch_count (branch_lines branch.now)) }
{
    let header = add(1, give_line_count(branch.gives.as_slice()))?;
    add(header, nodes_line_count(branch.body.nodes.as_slice())?)
}

#[cycle(count)]
fn branches_line_count(branches: &[Branch]) -> Option<u32>
    ensures { MatchOption result (4294967296 ≤ spec.branches_count (map branch_lines branches.now)) (λ n. n ≡ spec.branches_count (map branch_lines branches.now)) }
{
    let mut total = 0;
    for branch in branches {
        total = add(total, branch_line_count(branch)?)?;
    }
    Some(total)
}

/// The lines of a frame.
#[cycle(count)]
#[tactic(auto, using(crate::proofs::LineLemmas::lines_by_variant))]
pub fn frame_line_count(frame: &SequenceFrame) -> Option<u32>
    ensures { MatchOption result (4294967296 ≤ frame_count (frame_lines frame.now)) (λ n. n ≡ frame_count (frame_lines frame.now)) }
{
    let header = add(2, number(frame.lines.len())?)?;
    add(header, nodes_line_count(frame.body.nodes.as_slice())?)
}

#[cycle(count)]
fn frames_line_count(frames: &[SequenceFrame]) -> Option<u32>
    ensures { MatchOption result (4294967296 ≤ spec.frames_count (map frame_lines frames.now)) (λ n. n ≡ spec.frames_count (map frame_lines frames.now)) }
{
    let mut total = 0;
    for frame in frames {
        total = add(total, frame_line_count(frame)?)?;
    }
    Some(total)
}

/// The lines of a VI.
fn vi_line_count(vi: &Vi) -> Option<u32>
    ensures { MatchOption result (4294967296 ≤ vi_lines vi.now) (λ n. n ≡ vi_lines vi.now) }
{
    let header = add(2, number(vi.panel.len())?)?;
    add(header, nodes_line_count(vi.top.nodes.as_slice())?)
}

/// How many listing lines a VI takes, from its `vi` line to its `end`. Of 2^32 or more, which no listing
/// has, 2^32 - 1 are told. It takes no memory.
pub fn lines(vi: &Vi) -> u32
    ensures { result ≡ told (vi_lines vi.now) }
{
    match vi_line_count(vi) {
        None => u32::MAX,
        Some(count) => count,
    }
}
