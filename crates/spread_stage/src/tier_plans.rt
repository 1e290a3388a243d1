//! The spreads of a commodity by the numbers of its tiers, in the form in which whole runs read them (docs/METHOD.md,
//! Intracommodity spreads).
ghost use Rattle.std.specs.Prelude.{◌≡◌, ◌<◌, ◌≤◌, ℕ, List, true, length, All, IfOk};
ghost use Rattle.std.specs.List.{list_any, position, position_or_len};
ghost use Rattle.span_money.specs.declared.bits.TheConstants.{BITS};
ghost use Rattle.span_tables.specs.Tables.{has_months};
ghost use Rattle.span_tables.specs.declared.limits.TheConstants.{MAX_SPOT_MONTHS, MAX_TIERS};
ghost use Rattle.spread_stage.specs.near.TierPlans.{IsIndexed};
ghost use Rattle.spread_stage.specs.declared.tier_plans.TierLeg.{TierLeg};

use crate::spot_index::SpotIndex;
use crate::tier_index::TierIndex;
use arrayvec::ArrayVec;
use span_tables::leg_index::{LegAt, LegIndex};
use span_tables::legs::MonthLeg;
use span_tables::records::{Intra, Spot, Tier};
use std::alloc::{AllocError, Global};

/// A leg of a spread, with the number of its tier among the tiers of its commodity, from 0.
#[derive(Clone, Copy, Default)]
pub struct TierLeg {
    pub months: MonthLeg,
    pub tier: u8,
}

/// A spread by the numbers of its tiers, with its rate in minor units a spread.
#[derive(Drop)]
pub struct TierSpread {
    pub legs: ArrayVec<TierLeg, 4>,
    pub rate: u32,
    pub priority: u32,
}

/// The spreads of a commodity by rising priority, their index by the numbers of their tiers, and the indexes of the
/// commodity's tiers and spot months.
#[derive(Drop)]
pub struct TierPlan {
    pub spreads: Vec<TierSpread>,
    pub index: LegIndex,
    pub tiers: TierIndex,
    pub spots: SpotIndex,
}

// Returns the number of the tier that has the months of a leg, if there is one.
fn place_of(tiers: &[Tier], leg: &MonthLeg) -> Option<usize>
    ensures { result ≡ position (has_months leg.now) tiers.now }
{
    tiers
        .iter()
        .position(|tier| tier.first == leg.first && tier.last == leg.last)
}

// Returns the number of the tier that has the months of a leg, or the number of tiers if there is none.
#[tactic(auto, using(span_tables::proofs::Places::position_or_length))]
fn number_of(tiers: &[Tier], leg: &MonthLeg) -> usize
    ensures { result ≡ position_or_len (has_months leg.now) tiers.now }
{
    place_of(tiers, leg).unwrap_or(tiers.len())
}

impl TierLeg {
    ghost use Rattle.spread_stage.specs.near.TierPlans.{leg_at};

    // Returns the leg as an index sees it.
    fn at(&self) -> LegAt
        ensures { result ≡ leg_at self.now }
    {
        LegAt {
            number: self.tier as usize,
            side: self.months.side,
        }
    }
}

impl TierSpread {
    ghost use Rattle.spread_stage.specs.near.TierPlans.{AreKnown, intra_of};

    // Returns a spread whose legs have the months of these tiers, by the numbers of the tiers.
    fn new(tiers: &[Tier], intra: &Intra) -> TierSpread
        requires few { length tiers.now ≤ MAX_TIERS }
        requires known { All (λ leg. list_any (has_months leg) tiers.now ≡ true) intra.now.legs }
        requires legs { length intra.now.legs ≤ 4 }
        ensures value { intra_of result ≡ intra.now }
        ensures known { AreKnown tiers.now result }
    {
        let mut legs = ArrayVec::new();
        for leg in intra.legs() {
            legs.push(TierLeg {
                months: *leg,
                tier: number_of(tiers, leg) as u8,
            });
        }
        TierSpread {
            legs,
            rate: intra.rate(),
            priority: intra.priority(),
        }
    }
}

// Adds a spread with these legs to the index.
fn add_legs(index: &mut LegIndex, number: usize, legs: &[TierLeg])
    requires number { number < BITS }
    requires some { 0 < length legs.now }
    ensures added { IsIndexed index.new number legs.now }
    ensures kept { (k : ℕ) (others : List TierLeg) → IsIndexed index.old k others → IsIndexed index.new k others }
{
    index.add(number, legs[0].at(), legs[legs.len() - 1].at());
}

impl TierPlan {
    ghost use Rattle.spread_stage.specs.near.SetPlans.{IsPlanOf};

    /// Returns the plan of a commodity with these tiers, spreads and spot months. Each leg has the months of one of the
    /// tiers. Fails if memory runs out.
    pub fn new(
        alloc: Global,
        tiers: &[Tier],
        intras: &[Intra],
        spots: &[Spot],
    ) -> Result<TierPlan, AllocError>
        requires few { length tiers.now ≤ MAX_TIERS }
        requires spreads { length intras.now ≤ BITS }
        requires known { All (λ s. All (λ leg. list_any (has_months leg) tiers.now ≡ true) s.legs) intras.now }
        requires legs { All (λ s. length s.legs ≤ 4) intras.now }
        requires some { All (λ s. 0 < length s.legs) intras.now }
        requires spots { length spots.now ≤ MAX_SPOT_MONTHS }
        ensures { IfOk result (IsPlanOf tiers.now intras.now spots.now) }
    {
        let mut index = LegIndex::none();
        let mut spreads = Vec::with_capacity(alloc, intras.len())?;
        for intra in intras {
            let spread = TierSpread::new(tiers, intra);
            add_legs(&mut index, spreads.len(), &spread.legs);
            spreads.push(spread)?;
        }
        Ok(TierPlan {
            spreads,
            index,
            tiers: TierIndex::new(tiers),
            spots: SpotIndex::new(spots),
        })
    }
}
