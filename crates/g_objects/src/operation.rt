//! The operations on shared objects.

use g_shared::{PanelOp, PoolOp, QueueOp, RefOp};

/// An operation on a shared object. Each kind of object has its own; another can't be done.
#[derive(Drop)]
pub enum Operation {
    OnPanel(PanelOp),
    OnQueue(QueueOp),
    OnCell(RefOp),
    OnPool(PoolOp),
}
