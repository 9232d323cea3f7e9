//! What each primitive takes and gives, as definitions: its row of types, its values, and which
//! inputs it takes.
#![tactic(auto)]
