//! Tests of statements and of their reasons, from the teams of workers up. They check what no contract states: calls
//! succeed if there is enough memory, a roll has a second thread, a failed write is remembered, and the texts of
//! faults.
//!
//! The tests have their own crate, because a crate with tests is proved twice.
#![tactic(auto)]

#[cfg(test)]
mod calls;
#[cfg(test)]
mod faults;
#[cfg(test)]
mod marked_writer;
#[cfg(test)]
mod rolls;
#[cfg(test)]
mod workers;
