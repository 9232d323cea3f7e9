//! Whether plans can be done in a state.

ghost use Rattle.std.specs.Prelude.{◌≡◌, is_some, slice_get};
ghost use Rattle.std.specs.Option.{option_copied};
ghost use Rattle.g_diagram.specs.Lines.{Entry as Node};
ghost use Rattle.g_frames.specs.declared.state.Progress.{Progress};
ghost use Rattle.g_frames.specs.Effects as effects;
ghost use Rattle.g_effects.specs.Requests as spec;

use g_effects::{Placement, Plan, Request};
use g_objects::Object;
use g_states::FireState;

fn object_at(state: &FireState, number: usize) -> Option<&Object>
    ensures { slice_get state.now.objects number ≡ option_copied result }
{
    state.objects().get(number)
}

/// Whether the object of a request can do it.
fn can_request(state: &FireState, request: &Request) -> bool
    ensures { (h : effects.Here) (e : Node) (q : Progress) → h.objects ≡ state.now.objects → result ≡ is_some (spec.requested h e q request.now) }
{
    match object_at(state, request.object) {
        Some(object) => object.can(&request.operation, request.choice),
        None => false,
    }
}

/// Whether the object of a body in place is there and a value that references name.
fn can_place(state: &FireState, placement: &Placement) -> bool
    ensures { (h : effects.Here) (q : Progress) → h.objects ≡ state.now.objects → result ≡ is_some (spec.placed h q placement.now) }
{
    match object_at(state, placement.object) {
        Some(object) => object.can_place(),
        None => false,
    }
}

/// Whether a plan can be done.
pub fn can_do(state: &FireState, plan: &Plan) -> bool
    ensures { (h : effects.Here) (e : Node) (q : Progress) → h.objects ≡ state.now.objects → result ≡ is_some (spec.planned h e q plan.now) }
{
    match plan {
        Plan::Effect(_) => true,
        Plan::Request(request) => can_request(state, request),
        Plan::Placement(placement) => can_place(state, placement),
    }
}
