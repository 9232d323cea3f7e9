//! What words ask for.

ghost use Rattle.std.specs.Prelude.{◌≡◌};
ghost use Rattle.g_line.specs.declared.forms.LineRefused.TheVariants.{Memory};

use g_lists::List;
use g_types::{Bytes, Name};
use std::alloc::AllocError;
use thiserror::Error;

/// A control and the text of the value that it gets, from a word `NAME=VALUE`. The text is kept as it
/// was written, and may be empty: whether it is a value of the control's type is decided later.
#[derive(Debug, Drop)]
pub struct Setting {
    /// The number of its word, from 1.
    pub word: u64,
    pub name: Name,
    pub text: Bytes,
}

/// What the words ask for, by one variant a command.
#[derive(Debug, Drop)]
pub enum Line {
    /// `run MAIN` and, in any order, settings and at most one `--iterations N`: runs the listing, from
    /// the VI of that name.
    Run {
        main: Name,
        /// In the order of the words; a name may stand twice.
        settings: List<Setting>,
        /// How many iterations of loops the run may begin, from 1 to 4,000,000: N, or 100,000 where the
        /// words don't say.
        limit: u32,
    },
    /// `check MAIN` alone: checks the listing by all rules, with the VI of that name as its main one.
    Check {
        main: Name,
    },
    /// `print` alone: prints the canonical text of a listing.
    Print,
}

/// Why there is no line.
#[derive(Debug, Drop, Error)]
pub enum LineRefused {
    /// The first word, counted from 1, such that no line begins with the words up to it; one more
    /// than there are words where some line begins with them all.
    #[error("usage at word {0}")]
    Usage(u64),
    #[error("{0}")]
    Memory(AllocError),
}

impl From<AllocError> for LineRefused {
    ghost from_gives = { λ cause e. e ≡ Memory cause };

    fn from(cause: AllocError) -> LineRefused {
        LineRefused::Memory(cause)
    }
}
