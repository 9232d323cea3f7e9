//! What holds of firings of typed states.

ghost use Rattle.g_typed_needs.specs.Laws.{FiringsHaveNeeds, StartsHaveNeeds};

/// Where the program is accepted, the start of a run has what it needs of the program, and in each
/// typed state a node that has its inputs has what its firing needs: the values that it takes are
/// proper and of the types that its operation takes, each reference in them names an object of its
/// type, and so do the values that a body in place works out.
pub fn needs_laws()
    ensures firings { FiringsHaveNeeds }
    ensures starts { StartsHaveNeeds }
{}
