//! The operations on shared objects, kind by kind.

use g_values::{Value, ValueList};

/// An operation on the panel of a data space. Its cells are numbered from 0, first the controls and then the
/// indicators, each kind in the order of the listing.
#[derive(Drop)]
pub enum PanelOp {
    /// Opens the panel: sets the controls, and gives copies of their values. The indicators stay.
    Enter(ValueList),
    /// Gives copies of the values of the indicators.
    Leave,
    /// Gives a copy of a cell's value.
    Read(u32),
    /// Sets a cell, and gives nothing.
    Write(u32, Value),
}

/// An operation on a queue, mostly by the serial of a reference. The reference is live where the queue is, with this
/// serial.
#[derive(Drop)]
pub enum QueueOp {
    /// Makes the queue live and empty with the next serial, unless it is live. Gives its reference.
    Obtain,
    /// Adds a value at the back and gives 0; waits where the queue is full. Not live: 1.
    Enqueue(u64, Value),
    /// Takes the value at the front and gives it and 0; waits where the queue is empty. Not live: the default of the
    /// item type and 1.
    Dequeue(u64),
    /// The queue isn't live any more and its items are dropped; gives 0. Not live: 1.
    Release(u64),
    /// Gives the number of items and 0. Not live: 0 and 1.
    Size(u64),
}

/// An operation on a value that a reference names, mostly by the serial of that reference. The reference is live where
/// the value is, with this serial.
#[derive(Drop)]
pub enum RefOp {
    /// Makes the value live with the next serial, so that an older reference isn't live any more. Gives the reference.
    Make(Value),
    /// Gives the value and 0, and the value isn't live any more. Not live: the default of its type and 1.
    Delete(u64),
}

/// An operation on the clones of a VI.
#[derive(Clone, Copy, Debug, PartialEq, Eq)]
pub enum PoolOp {
    /// Takes a free clone and gives its number, a u32 from 0; waits where there is none.
    Enter,
    /// Frees the clone with this number, and gives nothing.
    Leave(u8),
}
