//! Scenario sums of held contracts, and their scan: scan risk, active and paired scenario, and price risk
//! (docs/METHOD.md, Scan).
#![tactic(auto)]

pub mod laws;
pub mod scanning;
pub mod scenarios;
pub mod worked;

use span_money::amounts::Money;

/// The scan of sixteen scenario sums (docs/METHOD.md, Scan).
///
/// `risk` is the scan risk in minor units: the largest sum, or 0 if none is positive. `active` is the number of the
/// scenario with the largest sum; if several scenarios have it, the lowest number. `paired` is the number of the
/// scenario with the same price move and the other volatility move. Both numbers are from 1 to 16. `price2` is twice
/// the price risk, in minor units.
#[derive(Clone, Copy, Debug, PartialEq, Eq)]
pub struct Scan {
    pub risk: Money,
    pub active: u8,
    pub paired: u8,
    pub price2: u64,
}
