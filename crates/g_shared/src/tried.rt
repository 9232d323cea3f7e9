//! What trying an operation on a shared object answers.

/// The answer to an operation `O` that was tried, with the reply `R`.
#[derive(Drop)]
pub enum Tried<R, O> {
    /// It was done.
    Done(R),
    /// It can't be done in the object's state. The operation comes back, and the object stays as it was.
    NotYet(O),
    /// Memory was wanting. The object stays as it was, and the operation is gone.
    Memory,
}
