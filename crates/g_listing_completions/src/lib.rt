//! Where a listing is refused, said of bytes.
#![tactic(auto)]

ghost use Rattle.std.specs.Prelude.{ℕ, List};
ghost use Rattle.g_tokens.specs.declared.token.Spot.{Spot};
ghost use Rattle.g_listing.specs.Refusal.{IsRefusal};
ghost use Rattle.g_listing.specs.declared.listing.ListingRefused.TheVariants.{Syntax};
ghost use Rattle.g_print_laws.specs.Bytes.{IsBytes};
ghost use Rattle.g_listing_completions.specs.Completion.{IsFirstRefusedInBytes};

/// Where `read_listing` refuses bytes, some bytes make a listing of those that stand before the place
/// it answers, and no listing has the token there after the tokens before it.
pub fn refusal_in_bytes()
    ensures { (bytes : List ℕ) (spot : Spot) → IsBytes bytes → IsRefusal bytes (Syntax spot) → IsFirstRefusedInBytes bytes spot }
{}
