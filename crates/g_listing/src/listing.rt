//! The public call.

ghost use Rattle.std.specs.Prelude.{◌≡◌, ◌+◌, ◌-◌, ◌<◌, ◌≤◌, ◌^◌, length, slice_get, IfOk, IfErr};
ghost use Rattle.g_listing_grammar.specs.Listing.{IsListing};
ghost use Rattle.g_listing.specs.Refusal.{IsOnly, IsRefusal};

use crate::vis::listing;
use g_diagram::Hierarchy;
use g_grammar::Stop;
use g_tokens::{Spot, Tokens, listing_tokens};
use std::alloc::{AllocError, Global};
use thiserror::Error;

/// Why a listing was refused.
#[derive(Clone, Copy, Debug, PartialEq, Eq, Error)]
pub enum ListingRefused {
    /// No listing has the token at this place after the tokens before it.
    #[error("syntax at {}:{}", .0.line, .0.column)]
    Syntax(Spot),
    #[error(transparent)]
    Memory(AllocError),
}

/// The place of the first of the last so many tokens.
fn place(places: &[Spot], left: usize) -> Spot
    requires some { 0 < left }
    requires within { left ≤ length places.now }
    ensures { slice_get places.now (length places.now - left) ≡ Some result }
{
    places[places.len() - left]
}

/// The hierarchy of a listing. `Syntax` comes exactly where the bytes are no listing, with the place
/// of the first token that no listing has after the tokens before it.
pub fn read_listing(alloc: Global, bytes: &[u8]) -> Result<Hierarchy, ListingRefused>
    requires { length bytes.now + 1 < 2 ^ 32 }
    ensures found { IfOk result (λ h. IsListing bytes.now h) }
    ensures only { IfOk result (λ h. IsOnly bytes.now h) }
    ensures refused { IfErr result (λ e. IsRefusal bytes.now e) }
{
    let Tokens { tokens, places } = match listing_tokens(alloc, bytes) {
        Ok(tokens) => tokens,
        Err(error) => return Err(ListingRefused::Memory(error)),
    };
    match listing(alloc, tokens.as_slice()) {
        Ok((hierarchy, rest)) => {
            if rest.is_empty() {
                return Ok(hierarchy);
            }
            Err(ListingRefused::Syntax(place(places.as_slice(), rest.len())))
        }
        Err(Stop::Memory(error)) => Err(ListingRefused::Memory(error)),
        Err(Stop::At(bad)) => Err(ListingRefused::Syntax(place(places.as_slice(), bad.len()))),
    }
}
