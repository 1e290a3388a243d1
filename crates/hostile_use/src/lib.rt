//! Tests of hostile use that need the crates of every stage: allocations that fail, and workers that are held. The
//! crate has no code of its own.
//!
//! Each test of `memory`, `late` and `growth` runs in two ways: with enough memory, as a test of this crate, and with
//! one failing allocation, in `tests/memory` at the top of the repository, once for each allocation.
#![tactic(auto)]

#[cfg(test)]
mod full;
#[cfg(test)]
mod growth;
#[cfg(test)]
mod late;
#[cfg(test)]
mod memory;
#[cfg(test)]
mod waits;
