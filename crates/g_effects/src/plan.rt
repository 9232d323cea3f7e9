//! What a node's next firing does, before any object is changed.

use crate::effect::Effect;
use g_border::WireSource;
use g_lists::List;
use g_objects::Operation;
use g_values::{Value, ValueList};

/// How a loop goes on.
#[derive(Clone, Copy, Debug, PartialEq, Eq)]
pub enum Turn {
    /// It has to wait for its latest frame, or for room under the limit.
    Waits,
    Ends,
    /// An iteration begins.
    GoesOn,
}

/// What follows an operation on a shared object.
#[derive(Clone, Copy, Debug, PartialEq, Eq)]
pub enum Then {
    /// The node is done, and its outputs are what the operation gives.
    Done,
    /// The call has the clone that the operation took.
    CallEnters,
    /// The call of this VI and clone opens the frame of the data space, with the values of its controls.
    CallOpens { vi: u32, clone: u8, space: u32 },
    /// The call's outputs are what the operation gives, and its clone is to be freed.
    CallReturns,
    /// The same where no clone is to be freed.
    CallReturnsLast,
    /// The call's clone is free.
    CallLeaves,
}

/// An operation on a shared object.
#[derive(Drop)]
pub struct Request {
    /// The number of the object.
    pub object: usize,
    pub operation: Operation,
    /// The clone that a pool's enter takes, and 0 otherwise.
    pub choice: u64,
    pub follow: Then,
}

/// A body in place on what a live reference names, with the new value and the outputs that it made.
#[derive(Drop)]
pub struct Placement {
    /// The number of the object.
    pub object: usize,
    pub serial: u64,
    pub value: Value,
    pub outputs: ValueList,
    /// The reference as an output, and its place.
    pub same: (WireSource, Value),
    /// The places of the other outputs, that of the code last.
    pub places: List<WireSource>,
}

/// What a node's next firing does.
#[derive(Drop)]
pub enum Plan {
    /// It changes no object.
    Effect(Effect),
    Request(Request),
    Placement(Placement),
}
