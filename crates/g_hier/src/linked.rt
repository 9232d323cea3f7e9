//! What linking looks at of each VI, and what it gives.

use g_diagram::{Clones, System};
use g_lists::List;

/// A `call` line of a VI, with the number of the VI that it calls.
#[derive(Clone, Copy, Debug, PartialEq, Eq)]
pub struct CallLine {
    pub line: u32,
    pub vi: u32,
}

/// What linking looks at of a VI.
#[derive(Drop)]
pub struct Outline {
    pub clones: Clones,
    pub system: System,
    /// The node lines at every depth, and the wired indicators.
    pub nodes: u64,
    /// The call lines at every depth, by line.
    pub calls: List<CallLine>,
}

/// A `call` line of a data space, by the place of the data space in link order.
#[derive(Clone, Copy, Debug, PartialEq, Eq, PartialOrd, Ord)]
pub struct Caller {
    pub space: usize,
    pub line: u32,
}

/// A data space.
#[derive(Clone, Copy, Debug, PartialEq, Eq, PartialOrd, Ord)]
pub struct Space {
    pub vi: u32,
    /// Which clone of a pool it is, from 0, and 0 for others.
    pub clone: u8,
    /// The call to which it belongs, for a preallocated VI that is called.
    pub caller: Option<Caller>,
}

/// A data space with the execution system of its nodes.
#[derive(Clone, Copy, Debug, PartialEq, Eq)]
pub struct Placed {
    pub space: Space,
    pub system: System,
}

/// A hierarchy linked from MAIN on.
#[derive(Drop)]
pub struct Linked {
    /// MAIN's number.
    pub main: u32,
    /// The VIs that MAIN reaches, in the order in which they are first met.
    pub order: List<u32>,
    /// Their data spaces, in the order in which they are first met.
    pub spaces: List<Space>,
    /// The system of each data space.
    pub systems: List<System>,
}
