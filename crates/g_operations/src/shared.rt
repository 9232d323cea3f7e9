//! Operations on shared objects.

ghost use Rattle.std.specs.Prelude.{◌≡◌};
ghost use Rattle.g_operations.specs.Rows as spec;

use crate::row::{Row, Taken, fixed};

/// An operation on a queue or on a value that a reference names.
#[derive(Clone, Copy, Debug, PartialEq, Eq)]
pub enum SharedOp {
    Enqueue,
    Dequeue,
    Release,
    /// `qsize`
    Size,
    NewRef,
    DelRef,
}

/// The row of an operation on a shared object.
pub fn shared_row(operation: SharedOp) -> Row
    ensures { spec.seen_row result ≡ spec.shared_row operation }
{
    match operation {
        SharedOp::Enqueue => fixed(b"enqueue", 2, 1, Taken::Second),
        SharedOp::Dequeue => fixed(b"dequeue", 1, 2, Taken::Nothing),
        SharedOp::Release => fixed(b"release", 1, 1, Taken::Nothing),
        SharedOp::Size => fixed(b"qsize", 1, 2, Taken::Nothing),
        SharedOp::NewRef => fixed(b"newref", 1, 1, Taken::First),
        SharedOp::DelRef => fixed(b"delref", 1, 2, Taken::Nothing),
    }
}
