//! The canonical text of a hierarchy against the grammar of listings: it reads back.
#![tactic(auto)]

ghost use Rattle.std.specs.Prelude.{◌≡◌, ℕ, List};
ghost use Rattle.g_diagram.specs.declared.hierarchy.Hierarchy.{Hierarchy};
ghost use Rattle.g_diagram.specs.Text.{text_of};
ghost use Rattle.g_listing_grammar.specs.Listing.{IsListing};
ghost use Rattle.g_print_laws.specs.Bytes.{IsBytes};

/// Where some bytes have a hierarchy, its canonical text has it too and has no other, and two such
/// hierarchies don't share a canonical text.
pub fn canonical_laws()
    ensures reads_back { (bytes : List ℕ) (h : Hierarchy) → IsBytes bytes → IsListing bytes h → IsListing (text_of h) h }
    ensures alone { (bytes : List ℕ) (h g : Hierarchy) → IsBytes bytes → IsListing bytes h → IsListing (text_of h) g → g ≡ h }
    ensures differ { (bytes others : List ℕ) (h g : Hierarchy) → IsBytes bytes → IsListing bytes h → IsBytes others → IsListing others g → text_of g ≡ text_of h → g ≡ h }
{}

/// Each bytes have at most one hierarchy.
pub fn one_hierarchy()
    ensures { (bytes : List ℕ) (h g : Hierarchy) → IsListing bytes h → IsListing bytes g → g ≡ h }
{}
