//! Which references a value holds, and that primitives, coercion, defaults and literals make none up.
//! That each reference in a state that a run reaches names an object of its kind rests on this: only
//! what makes an object brings a new reference in.
#![tactic(auto)]

mod laws;

pub use laws::reference_laws;
