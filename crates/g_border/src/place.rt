//! The place of a source in a frame.

/// A source of a diagram, by the line and the operand at which it stands.
#[derive(Clone, Copy, Debug, PartialEq, Eq, PartialOrd, Ord)]
pub struct WireSource {
    pub line: u32,
    pub operand: u32,
}
