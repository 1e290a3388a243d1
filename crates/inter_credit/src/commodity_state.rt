//! The state of one commodity in the intercommodity stage (docs/METHOD.md, "Intercommodity spreads").
use span_money::amounts::Units;

/// A commodity in the intercommodity stage.
///
/// `net` is its net delta (in 10^-8 deltas, of size at most `MAX_UNITS`) and `rest` is its remaining delta after
/// spreads. `price2` is twice its price risk (in minor units, at most `MAX_PRICE2`). `weight` is the sum of units used
/// times basis points.
#[derive(Clone, Copy, Debug, PartialEq, Eq)]
pub struct CommodityState {
    pub weight: u128,
    pub net: Units,
    pub rest: Units,
    pub price2: u64,
}
