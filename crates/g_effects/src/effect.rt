//! What a firing does.

ghost use Rattle.std.specs.Prelude.{◌≡◌};
ghost use Rattle.g_effects.specs.Effects as spec;

use crate::advance::Advance;
use g_border::WireSource;
use g_lists::List;
use g_values::Value;
use std::alloc::Global;

/// Values at sources of a frame, one after another.
pub type Given = List<(WireSource, Value)>;

/// What opens as a frame: a diagram of a VI in a data space, with a number among the frames of its opener
/// and values at sources of the diagram.
#[derive(Drop)]
pub struct Opening {
    pub vi: u32,
    pub space: u32,
    pub diagram: u32,
    pub iteration: u64,
    pub gives: Given,
}

/// What one firing does, but for the object that it changes.
#[derive(Drop)]
pub struct Effect {
    pub advance: Advance,
    /// The values that it gives at sources of its frame.
    pub gives: Given,
    /// The frame that it opens.
    pub opens: Option<Opening>,
    /// The kept registers that it writes, by their numbers.
    pub keeps: List<(usize, Value)>,
    /// Whether it begins an iteration.
    pub begins: bool,
}

/// A firing that only gives values. Takes no memory.
pub fn gives(alloc: Global, advance: Advance, given: Given) -> Effect
    ensures { result ≡ spec.gives_with advance given }
{
    Effect {
        advance,
        gives: given,
        opens: None,
        keeps: List::new(alloc),
        begins: false,
    }
}

/// A firing that opens a frame. Takes no memory.
pub fn opens(alloc: Global, advance: Advance, opening: Opening) -> Effect
    ensures { result ≡ spec.opens_with advance opening }
{
    Effect {
        advance,
        gives: List::new(alloc),
        opens: Some(opening),
        keeps: List::new(alloc),
        begins: false,
    }
}
