//! Tests of the crates from the plan to the result store. Each tests a property that no clause states:
//!
//! - A call that may run out of memory succeeds if there is enough memory.
//! - A board follows only its own events.
//! - A whole board has the history that its watch sees, and the figures of a board that runs by steps.
//! - Readers find what was published.
//! - A hint that need not be given is given.
//!
//! The tests are in a separate crate, because a crate with tests is proved twice.
#![tactic(auto)]

#[cfg(test)]
mod boards;
#[cfg(test)]
mod calls;
#[cfg(test)]
mod hints;
#[cfg(test)]
mod shelf;
#[cfg(test)]
mod whole;
