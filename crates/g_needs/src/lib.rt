//! What the code of a firing needs of the state that it finds: definitions alone. That firings of typed
//! states have it is a law.
#![tactic(auto)]
