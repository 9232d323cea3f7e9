//! How many nodes there are.

ghost use Rattle.std.specs.Prelude.{◌≡◌, ◌+◌, ◌∷◌, [], ℕ, length, map};
ghost use Rattle.g_diagram.specs.Lines.{lines_of, branch_lines, frame_lines, entries_in, branches_entries, frames_entries, panel_entries};
ghost use Rattle.g_diagram.specs.Sizes.{vi_nodes, told};

use crate::hierarchy::Vi;
use crate::node::{Branch, Node, SequenceFrame};
use crate::panel::PanelItem;

/// The sum of two numbers of nodes, kept at 2^32 - 1.
fn add(a: u32, b: u32) -> u32
    ensures { result ≡ told (a + b) }
{
    match a.checked_add(b) {
        None => u32::MAX,
        Some(sum) => sum,
    }
}

/// A node with all nodes inside it.
#[cycle(total)]
#[tactic(auto, using(crate::proofs::LineLemmas::lines_by_variant))]
fn node_total(node: &Node) -> u32
    ensures { (line diagram : ℕ) → result ≡ told (length ((lines_of node.now).entries line diagram)) }
{
    match node {
        Node::Const { .. }
        | Node::Apply { .. }
        | Node::Shared { .. }
        | Node::Obtain { .. }
        | Node::Read { .. }
        | Node::Write { .. }
        | Node::Call { .. } => 1,
        Node::For { body, .. } => add(1, nodes_total(body.nodes.as_slice())),
        Node::While { body, .. } => add(1, nodes_total(body.nodes.as_slice())),
        Node::InPlace { body, .. } => add(1, nodes_total(body.nodes.as_slice())),
        Node::Case { branches, .. } => add(1, branches_total(branches.as_slice())),
        Node::Sequence { frames } => add(1, frames_total(frames.as_slice())),
    }
}

#[cycle(total)]
fn nodes_total(nodes: &[Node]) -> u32
    ensures { (line diagram : ℕ) → result ≡ told (length (entries_in (map lines_of nodes.now) line diagram)) }
{
    let mut total = 0;
    for node in nodes {
        total = add(total, node_total(node));
    }
    total
}

#[cycle(total)]
fn branches_total(branches: &[Branch]) -> u32
    ensures { (line : ℕ) → result ≡ told (length (branches_entries line (map branch_lines branches.now))) }
{
    let mut total = 0;
    for branch in branches {
        total = add(total, nodes_total(branch.body.nodes.as_slice()));
    }
    total
}

#[cycle(total)]
fn frames_total(frames: &[SequenceFrame]) -> u32
    ensures { (line : ℕ) → result ≡ told (length (frames_entries line (map frame_lines frames.now))) }
{
    let mut total = 0;
    for frame in frames {
        total = add(total, nodes_total(frame.body.nodes.as_slice()));
    }
    total
}

/// An indicator is a node where it is wired.
fn item_total(item: &PanelItem) -> u32
    ensures { (line : ℕ) → result ≡ told (length (panel_entries (item.now ∷ []) line)) }
{
    match item {
        PanelItem::Control { .. } => 0,
        PanelItem::Indicator { input, .. } => match input {
            None => 0,
            Some(_) => 1,
        },
    }
}

fn panel_total(panel: &[PanelItem]) -> u32
    ensures { (line : ℕ) → result ≡ told (length (panel_entries panel.now line)) }
{
    let mut total = 0;
    for item in panel {
        total = add(total, item_total(item));
    }
    total
}

/// How many nodes a VI has, at every depth, with its wired indicators. Of 2^32 or more, which no listing
/// has, 2^32 - 1 are told. It takes no memory.
pub fn nodes(vi: &Vi) -> u32
    ensures { result ≡ told (vi_nodes vi.now) }
{
    add(
        panel_total(vi.panel.as_slice()),
        nodes_total(vi.top.nodes.as_slice()),
    )
}
