//! The working memory of whole runs.
ghost use Rattle.spread_stage.specs.Spreads.{unspread};
ghost use Rattle.std.specs.Prelude.{◌≡◌, []};

use inter_credit::state::InterState;
use scan_risk::Scan;
use span_money::amounts::{Money, Units};
use span_tables::portfolios::Holding;
use spread_stage::months::Months;
use spread_stage::tier_sums::TierRun;
use std::alloc::Global;

// The values of a held commodity before any spread between commodities: its number, its scan, its net delta, the exact
// sum of its spreads times their rates in 10^-4 minor units, its amounts, and its option value if options have one.
#[derive(Clone, Copy)]
pub(crate) struct Part {
    pub(crate) commodity: usize,
    pub(crate) scan: Scan,
    pub(crate) net: Units,
    pub(crate) charge: u128,
    pub(crate) delivery: Money,
    pub(crate) minimum: Money,
    pub(crate) worth: Money,
}

/// The working memory of a whole run. Each run replaces what the run before it left there. One value therefore serves
/// the accounts of a batch one after another, and a run allocates less memory of its own.
#[derive(Drop)]
pub struct RunMemory {
    // The holdings of an account by commodity, if they are in another order in its portfolio.
    pub(crate) sorted: Vec<Holding>,
    pub(crate) months: Months,
    pub(crate) tiers: TierRun,
    pub(crate) parts: Vec<Part>,
    pub(crate) states: InterState,
}

impl RunMemory {
    /// Creates memory that no run has used yet. It allocates nothing.
    pub fn new(alloc: Global) -> RunMemory
        ensures sorted { result.sorted.items ≡ [] }
        ensures months { result.months ≡ [] }
        ensures tiers { result.tiers ≡ unspread [] }
        ensures parts { result.parts.items ≡ [] }
        ensures states { result.states ≡ [] }
    {
        RunMemory {
            sorted: Vec::new(alloc),
            months: Months::none(alloc),
            tiers: TierRun::none(alloc),
            parts: Vec::new(alloc),
            states: InterState::none(alloc),
        }
    }
}
