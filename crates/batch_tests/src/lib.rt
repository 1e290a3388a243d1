//! Tests of batches of accounts and of the book of their rows. They check what no contract states: calls that may run
//! out of memory succeed if there is enough, tasks and results come out in order, and a book accepts rows only for its
//! own batches.
//!
//! The tests have their own crate, because a crate with tests is proved twice.
#![tactic(auto)]

#[cfg(test)]
mod batches;
#[cfg(test)]
mod books;
#[cfg(test)]
mod calls;
#[cfg(test)]
mod ends;
