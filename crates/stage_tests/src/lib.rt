//! Tests of the crates from numbers and files to charges and credits, for properties that no clause states. A call that
//! may fail to allocate succeeds if memory is available, and a hint that may be missing is given.
//!
//! They are in a crate of their own, since a crate with tests is proved twice.
#![tactic(auto)]

#[cfg(test)]
mod calls;
#[cfg(test)]
mod credits;
