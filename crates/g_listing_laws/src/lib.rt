//! That the types and numbers in a listing are such as a listing can write.
#![tactic(auto)]

ghost use Rattle.g_listing_laws.specs.Spelled.{ReadsSpelled};

/// In a hierarchy that a listing has, the types of panel objects, constants, registers without an
/// initial wire and queues are at most 8 deep, with arrays of no arrays and clusters of 1 to 64
/// elements; a pool has 1 to 64 data spaces, a queue -1 or 1 to 1,000,000 places, and a `field` line
/// names one of the elements 0 to 63. A case has a branch, each branch a selector and as many operands
/// after `give` as the case has results, and a sequence has a frame.
pub fn spelled_laws()
    ensures { ReadsSpelled }
{}
