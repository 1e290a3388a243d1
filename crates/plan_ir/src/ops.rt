//! The operations of a plan's steps. Each name in quotes is the section of docs/METHOD.md that the operation computes.

/// The operation of a step. Commodities are numbered in file order and spreads by increasing priority number, both from
/// 0.
#[derive(Clone, Copy, Debug, PartialEq, Eq)]
pub enum Op {
    /// The contracts of a commodity that the account holds ("Positions").
    Gather(u32),
    /// The scenario sums of a commodity ("Scan").
    Sums(u32),
    /// The scan of a commodity's scenario sums ("Scan").
    ScanMax(u32),
    /// The held months of a commodity with their deltas ("Deltas").
    Months(u32),
    /// A commodity's months before any spread ("Intracommodity spreads").
    TierStart(u32),
    /// A commodity's months after one more of its spreads. The numbers are the commodity's, and the spread's among its
    /// own.
    Spread(u32, u32),
    /// The delivery charge of a commodity ("Charges").
    Delivery(u32),
    /// The short option minimum of a commodity ("Minimum and requirement").
    Minimum(u32),
    /// The figures of a commodity ("Minimum and requirement").
    Final(u32),
    /// The states of all commodities before any is loaded ("Intercommodity spreads").
    InterStart,
    /// The states with the net delta and the price risk of one more commodity.
    InterLoad(u32),
    /// The states after one more intercommodity spread.
    InterSpread(u32),
    /// The total of no commodity: 0 ("Minimum and requirement").
    TotalStart,
    /// The total with the requirement of one more commodity.
    TotalAdd(u32),
    /// The option value of a commodity ("Option value").
    NetValue(u32),
    /// The option value of no commodity: 0 ("Option value").
    ValueStart,
    /// The option value with the option value of one more commodity added.
    ValueAdd(u32),
}
