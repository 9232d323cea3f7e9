//! Why types have no row.

use std::alloc::AllocError;

/// Why the types of the inputs have no row.
#[derive(Debug, Drop, thiserror::Error)]
pub enum RowRefused {
    /// The first input, from 1, with which no row begins. One that is missing counts.
    #[error("no row begins with input {0}")]
    NoRow(u32),
    /// Memory was wanted.
    #[error("out of memory")]
    Memory(AllocError),
}

impl From<AllocError> for RowRefused {
    ghost use Rattle.std.specs.Prelude.{◌≡◌};
    ghost use Rattle.g_prims.specs.declared.refusal.RowRefused.TheVariants as refused;

    ghost from_gives = { λ e r. r ≡ refused.Memory e };

    fn from(e: AllocError) -> RowRefused {
        RowRefused::Memory(e)
    }
}
