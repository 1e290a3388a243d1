//! Desks: devices from which a session takes requests, one on each line, and to which it gives answers.
#![tactic(auto)]

mod blocks;
pub mod desk;
pub mod intake;
mod kept_lines;
pub mod stream_desk;
mod worked;
