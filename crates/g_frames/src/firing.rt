//! Firings and traces.

use g_lists::List;

/// A node that fires in a frame. Where the node calls a VI of a pool, `choice` is the clone that it
/// takes; everywhere else it is none.
#[derive(Clone, Copy, Debug, PartialEq, Eq)]
pub struct Firing {
    pub frame: u64,
    pub node: u64,
    pub choice: Option<u64>,
}

/// A run: its firings, the first one first.
pub type Trace = List<Firing>;

/// A node, by its line, in a frame.
#[derive(Clone, Copy, Debug, PartialEq, Eq, Hash)]
pub struct FrameNode {
    pub frame: u64,
    pub node: u64,
}
