//! Money, delta positions, deltas, scales and ratios as whole numbers of their units, number texts, and exact division.
#![tactic(auto)]

pub mod amounts;
pub mod bits;
pub mod division;
pub mod divisor;
pub mod exact;
pub mod laws;
pub mod line_fields;
pub mod texts;
pub mod worked;
