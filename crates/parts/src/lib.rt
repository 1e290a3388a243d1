//! Lemmas on position files cut by account: how the statements of the parts are related to the statement of the whole.
#![tactic(auto)]

pub mod laws;
