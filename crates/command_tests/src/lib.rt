//! Tests of the command line, from arguments and sources to both streams. They show what no contract says: that the
//! calls succeed if there is memory, what workers do at the same time, and what is printed if a reader or a writer
//! fails.
//!
//! They are in a crate of their own because a crate with tests is proved twice.
#![tactic(auto)]

#[cfg(test)]
mod builders;
#[cfg(test)]
mod calls;
#[cfg(test)]
mod reading;
#[cfg(test)]
mod sessions;
#[cfg(test)]
mod streams;
#[cfg(test)]
mod words;
#[cfg(test)]
mod workers;
