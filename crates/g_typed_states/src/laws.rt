//! What holds of the states of accepted programs.

ghost use Rattle.g_typed_states.specs.Laws.{RunsTyped, StartsTyped, StaysTyped};

/// Where the program is accepted and its controls are set to values of their types without live
/// references, each state of each run is typed: the values on wires, in shared objects and in kept
/// registers are proper and of the types of what holds them, each live reference in them, at any depth,
/// names an object of its type, and what nodes have done so far fits.
pub fn typed_laws()
    ensures runs { RunsTyped }
    ensures starts { StartsTyped }
    ensures stays { StaysTyped }
{}
