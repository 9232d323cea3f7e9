//! What holds of plans.

ghost use Rattle.g_effects.specs.Laws.{BeginsInRoom, NeedsFit, PlansAreEffects};

/// The plan of each kind of node has the effect that its firing has. A firing that has what it needs has a
/// plan that fits its object, and begins an iteration only where the limit leaves room.
pub fn plan_laws()
    ensures plans { PlansAreEffects }
    ensures fits { NeedsFit }
    ensures room { BeginsInRoom }
{}
