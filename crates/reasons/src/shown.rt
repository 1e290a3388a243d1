//! What an explanation shows in addition to the results of the stages.

use span_money::amounts::Units;
use span_tables::sides::Direction;

/// A held month: its delta, and what is left of it after all spreads, both in 10^-8 deltas.
#[derive(Clone, Copy, Debug, PartialEq, Eq)]
pub struct ShownMonth {
    pub month: u32,
    pub delta: Units,
    pub left: Units,
}

/// An intracommodity spread in a direction in which it forms: the number of spreads, in 10^-4 spreads, and the rate in
/// minor units a spread.
#[derive(Clone, Copy, Debug, PartialEq, Eq)]
pub struct ShownIntra {
    pub priority: u32,
    pub direction: Direction,
    pub formed: u64,
    pub rate: u32,
}

/// A spot month: the sizes of the deltas that spreads used and left, in 10^-8 deltas, and its rates in minor units a
/// delta.
#[derive(Clone, Copy, Debug, PartialEq, Eq)]
pub struct ShownSpot {
    pub month: u32,
    pub used: u64,
    pub spread_rate: u32,
    pub left: u64,
    pub outright_rate: u32,
}

/// An intercommodity spread in a direction in which it forms. It has the number of spreads in 10^-4 spreads, the delta
/// that they use of a commodity in 10^-8 deltas, and the credit rate in basis points.
#[derive(Clone, Copy, Debug, PartialEq, Eq)]
pub struct ShownInter {
    pub priority: u32,
    pub direction: Direction,
    pub formed: u64,
    pub used: u128,
    pub basis_points: u32,
}
