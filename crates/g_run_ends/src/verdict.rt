//! What is found of a node.

/// A node in a frame: whether it can fire with some choice, and whether it waits for another node.
#[derive(Clone, Copy)]
pub struct Verdict {
    pub frame: u64,
    pub node: u64,
    pub goes: bool,
    pub waits: bool,
}
