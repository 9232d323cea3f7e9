//! The shared objects and kept registers that a hierarchy has.

use g_types::{Name, Ty};

/// A queue by its name, as the first `obtain` line of that name in the listing makes it.
#[derive(Drop)]
pub struct QueueName {
    pub name: Name,
    /// How many items it holds at most, or -1 where there is no bound.
    pub size: i32,
    pub item: Ty,
}

/// The value that a `newref` line of a data space makes references to.
#[derive(Drop)]
pub struct CellPlace {
    pub space: u32,
    pub line: u32,
    pub content: Ty,
}

/// A kept register of a loop in a data space.
#[derive(Drop)]
pub struct KeptPlace {
    pub space: u32,
    pub line: u32,
    pub content: Ty,
}
