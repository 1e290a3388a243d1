//! Sessions: requests, one on each line, the accounts that they concern, and their answers.
#![tactic(auto)]

mod accounts;
mod answer_texts;
mod answers;
mod carried;
pub mod conversation;
pub mod faults;
pub mod laws;
pub mod limit_digits;
mod positions;
mod refusals;
pub mod requests;
pub mod session;
mod set_in_use;
mod worked;
mod worked_sessions;
mod worked_sets;
