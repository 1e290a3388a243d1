//! An index of the spreads between commodities, which finds the spreads that an account may form without a look at the
//! others (docs/METHOD.md, Intercommodity spreads).
ghost use Rattle.std.specs.Prelude.{◌≡◌, ◌<◌, ◌≤◌, ℕ, IfOk, length};
ghost use Rattle.span_money.specs.declared.bits.TheConstants.{BITS};
ghost use Rattle.span_tables.specs.declared.leg_index.LegAt.{LegAt};
ghost use Rattle.span_tables.specs.near.LegIndex.{HasEnds};
ghost use Rattle.inter_credit.specs.near.Index.{AreCovered, HasSpread, IsIndex, leg_at};

use span_money::bits::BITS;
use span_tables::leg_index::{LegAt, LegIndex};
use span_tables::records::{CommodityLeg, Inter};
use std::alloc::{AllocError, Global};

/// The spreads by the commodities and sides of their first and last legs.
#[derive(Drop)]
pub struct SpreadIndex {
    // An index for each `BITS` spreads, in order.
    pub(crate) blocks: Vec<LegIndex>,
}

// Returns a leg as an index sees it.
fn leg_at(leg: &CommodityLeg) -> LegAt
    ensures { result ≡ leg_at leg.now }
{
    LegAt {
        number: leg.commodity,
        side: leg.side,
    }
}

// Adds a spread that has these legs. A spread without legs is never formed.
pub(crate) fn add(block: &mut LegIndex, number: usize, legs: &[CommodityLeg])
    requires { number < BITS }
    ensures added { HasSpread block.new number legs.now }
    ensures kept { (other : ℕ) (f l : LegAt) → HasEnds block.old other f l → HasEnds block.new other f l }
{
    if !legs.is_empty() {
        block.add(number, leg_at(&legs[0]), leg_at(&legs[legs.len() - 1]));
    }
}

// Returns the index of at most `BITS` spreads.
fn block_of(spreads: &[Inter]) -> LegIndex
    requires { length spreads.now ≤ BITS }
    ensures { AreCovered result spreads.now }
{
    let mut block = LegIndex::none();
    for (number, spread) in spreads.iter().enumerate() {
        add(&mut block, number, spread.legs());
    }
    block
}

impl SpreadIndex {
    /// Returns the index of spreads. Fails if memory runs out.
    pub fn new(alloc: Global, spreads: &[Inter]) -> Result<SpreadIndex, AllocError>
        ensures { IfOk result (λ index. IsIndex index spreads.now) }
    {
        let mut blocks = Vec::new(alloc);
        let mut left = spreads;
        while !left.is_empty() {
            let (now, later) = left.split_at(BITS.min(left.len()));
            blocks.push(block_of(now))?;
            left = later;
        }
        Ok(SpreadIndex { blocks })
    }
}
