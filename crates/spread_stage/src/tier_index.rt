//! The tiers of a commodity by months.
ghost use Rattle.std.specs.List.{position, position_or_len};
ghost use Rattle.std.specs.Prelude.{◌≡◌, ◌≤◌, length};
ghost use Rattle.span_tables.specs.declared.limits.TheConstants.{MAX_TIERS};
ghost use Rattle.spread_stage.specs.near.TierSums.{AreTiers, has_month};

use crate::month_slots::{month_number, slot_of};
use span_money::bits::BITS;
use span_tables::records::Tier;

/// For each slot of months, the number of a tier that may have the months of the slot. The index saves a search, and decides
/// nothing: a month that is not in that tier is searched for.
#[derive(Drop)]
pub struct TierIndex {
    slots: [u8; BITS],
}

// Returns whether a month (`yyyymm`) is in a tier.
#[inline(always)]
fn has_month(tier: &Tier, month: u32) -> bool
    ensures { result ≡ has_month month tier.now }
{
    tier.first <= month && month <= tier.last
}

// Returns the index of the tier that a month (`yyyymm`) is in, if it is in one.
fn place_in(tiers: &[Tier], month: u32) -> Option<usize>
    ensures { result ≡ position (has_month month) tiers.now }
{
    tiers.iter().position(|tier| has_month(tier, month))
}

// Returns the number of the tier that a month (`yyyymm`) is in, or the number of tiers if it is in none.
#[tactic(auto, using(span_tables::proofs::Places::position_or_length))]
fn tier_of(tiers: &[Tier], month: u32) -> usize
    ensures { result ≡ position_or_len (has_month month) tiers.now }
{
    place_in(tiers, month).unwrap_or(tiers.len())
}

impl TierIndex {
    /// Returns the index of tiers. It takes at most `BITS` steps for each tier.
    pub(crate) fn new(tiers: &[Tier]) -> TierIndex
        requires { length tiers.now ≤ MAX_TIERS }
    {
        let mut index = TierIndex { slots: [0; BITS] };
        for (number, tier) in tiers.iter().enumerate() {
            index.add(number as u8, tier);
        }
        index
    }

    // Enters a tier for the slots of its months, which are all slots if it has that many months.
    fn add(&mut self, number: u8, tier: &Tier) {
        let first = month_number(tier.first);
        let last = month_number(tier.last).min(first + BITS - 1);
        for month in first..=last {
            self.slots[month % BITS] = number;
        }
    }

    /// Returns the number of the tier that a month (`yyyymm`) is in, or the number of tiers if it is in none.
    #[inline(always)]
    pub fn number_of(&self, tiers: &[Tier], month: u32) -> usize
        requires { AreTiers tiers.now }
        ensures { result ≡ position_or_len (has_month month) tiers.now }
    {
        let near = usize::from(self.slots[slot_of(month)]);
        if near < tiers.len() && has_month(&tiers[near], month) {
            return near;
        }
        tier_of(tiers, month)
    }
}
