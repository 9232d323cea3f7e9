//! Ports.

use g_types::Name;

/// An operand in a diagram.
#[derive(Clone, Copy)]
pub struct Port<'a> {
    pub line: u32,
    pub operand: u32,
    pub diagram: u32,
    /// The node of that diagram that gives or takes it, or none at the diagram's border.
    pub node: Option<u32>,
    pub is_source: bool,
    pub is_free: bool,
    pub wire: Option<&'a Name>,
}
