//! The hierarchy of VIs that a listing spells: one variant for each form of line, its fields in the
//! order of the line.
#![tactic(auto)]

mod hierarchy;
mod line_count;
mod node;
mod node_count;
mod panel;
mod place;

pub use g_operations::SharedOp;
pub use hierarchy::{Clones, Hierarchy, System, Vi};
pub use line_count::{
    branch_line_count, frame_line_count, give_line_count, lines, node_line_count, nodes_line_count,
};
pub use node::{Branch, Diagram, Node, Selector, SequenceFrame, Tunnel};
pub use node_count::nodes;
pub use panel::{Lit, PanelItem, Wire};
pub use place::{Break, Place};
