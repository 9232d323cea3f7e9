//! The state of the firing machine.

use crate::firing::FrameNode;
use g_border::WireSource;
use g_lists::List;
use g_values::Value;

/// What a call has done so far, with the frame that it opened.
#[derive(Clone, Copy, Debug, PartialEq, Eq)]
pub enum Stage {
    /// It took a clone.
    Entered,
    /// It set the panel and opened the frame.
    Opened(u64),
    /// It gave the indicators, and the clone isn't free yet.
    Returned(u64),
    /// It has no firing left.
    Left(u64),
}

/// What a node has done so far in a frame, with its frames in the order of their opening.
#[derive(Drop)]
pub enum Progress {
    /// Nothing.
    Idle,
    /// The firing of a node that has one.
    Done,
    /// A loop that started: the values that its kept registers had, by line, and its iterations.
    Loop {
        kept: List<Value>,
        frames: List<u64>,
        ended: bool,
    },
    /// A case that opened a branch.
    Case {
        frame: u64,
        ended: bool,
    },
    /// A sequence that opened its first frame.
    Sequence {
        frames: List<u64>,
        ended: bool,
    },
    /// A call: the clone of the VI that it took, 0 where the VI is no pool.
    Call {
        clone: u8,
        stage: Stage,
    },
}

/// An execution of a diagram. A frame's number is its place among the frames, in the order of their
/// opening.
#[derive(Drop)]
pub struct Frame {
    pub vi: u32,
    /// The data space, of which 0 is that of the VI that runs.
    pub space: u32,
    /// The diagram, by its line in its VI; 0 is the VI's own.
    pub diagram: u32,
    /// The node that opened it, or none where it stands at the start.
    pub opener: Option<FrameNode>,
    /// The number of a loop's iteration or of a sequence's frame, from 0; else 0.
    pub iteration: u64,
    /// The values of the diagram's sources, in the order of their places. One that stands never changes.
    pub values: List<Option<Value>>,
    /// What the diagram's nodes have done, in the order of their lines.
    pub nodes: List<Progress>,
}

/// The sources of a diagram that opens frames, in the order of their places.
#[derive(Drop)]
pub struct DiagramSources {
    pub vi: u32,
    pub diagram: u32,
    pub sources: List<WireSource>,
}

/// How a run stands in a state.
#[derive(Clone, Copy, Debug, PartialEq, Eq)]
pub enum End {
    /// Nothing can fire, and all nodes of frame 0 are done.
    Complete,
    /// Nothing can fire, frame 0 isn't complete, and some loop lacks nothing but room under the limit.
    Spent,
    /// Nothing can fire, frame 0 isn't complete, and no loop lacks the limit alone.
    Stalled,
    /// Some node can fire.
    Unfinished,
}
