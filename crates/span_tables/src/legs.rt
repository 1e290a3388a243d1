//! The legs of accepted intracommodity spreads (docs/METHOD.md, "Intracommodity spreads").
use crate::sides::Side;
use span_money::divisor::Divisor;

/// A leg of an accepted intracommodity spread: the months of its tier, a side and a ratio.
#[derive(Clone, Copy, Default)]
pub struct MonthLeg {
    pub first: u32,
    pub last: u32,
    pub side: Side,
    pub ratio: Divisor,
}
