//! The limit of size.

/// The greatest number of elements of an array and of bytes of a string.
pub const MOST: usize = 4_194_304;
