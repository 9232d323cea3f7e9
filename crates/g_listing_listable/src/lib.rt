//! Which hierarchies a listing can have: a plain condition on the hierarchy, and that it is exactly
//! that.
#![tactic(auto)]

ghost use Rattle.g_listing_listable.specs.Listable.{CanonicalLists, DeeperLiterals, DeeperNodes, ListedExactly};

/// Some bytes have a hierarchy exactly where it can be listed: its names are words, its numbers have at
/// most 20 digits, its types and literals are at most 8 deep and its structures 32, and each border has
/// lines of its own forms alone. Its canonical text is then such bytes.
pub fn listed_laws()
    ensures exactly { ListedExactly }
    ensures canonical { CanonicalLists }
{}

/// A literal or a node of at most so many levels is one of at most one more. So what stands inside a
/// structure may stand outside it.
pub fn level_laws()
    ensures literals { DeeperLiterals }
    ensures nodes { DeeperNodes }
{}
