//! What the types of wires are, as definitions: what each line gives to its sources, and where the
//! rules on types are broken.
#![tactic(auto)]
