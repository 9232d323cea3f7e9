//! The values that the selectors of a case hold, as definitions, and the law that either some value of
//! a type is held by none of them, or each is held.
#![tactic(auto)]
