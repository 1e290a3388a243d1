//! Spreads with the months of their tiers, or with their commodity numbers.
ghost use Rattle.std.specs.Prelude.{◌≡◌, ◌<◌, ◌&&◌, ◌==◌, length, map};
ghost use Rattle.std.specs.Prelude.{List, filter, find, option_copied, bytes_eq, false, All, IfOk};
ghost use Rattle.span_tables.specs.Accepted.{commodity_number};
ghost use Rattle.span_tables.specs.Names.{has_repeat};
ghost use Rattle.span_tables.specs.Tables.{commodity_leg, inter_spread, intra_spread, month_leg};
ghost use Rattle.span_tables.specs.declared.records.Tier.{Tier};

use crate::groups::{empty_lists, number_near, number_of, push_at};
use crate::legs::MonthLeg;
use crate::name::Name;
use crate::records::{
    Commodity, CommodityLeg, Inter, InterLeg, InterRecord, Intra, IntraLeg, IntraRecord, Tier,
};
use arrayvec::ArrayVec;
use span_money::divisor::Divisor;
use std::alloc::{AllocError, Global};

// Returns the tier of a commodity with a number, if there is one.
fn tier_of<'a>(tiers: &'a [Tier], commodity: &Name, number: u32) -> Option<&'a Tier>
    ensures { option_copied result ≡ find (λ t. bytes_eq t.commodity commodity.now && (t.number == number)) tiers.entry.now }
{
    tiers.iter().find(|tier| tier.commodity == *commodity && tier.number == number)
}

// Returns a leg with the months of its tier, or with no months if there is no such tier.
fn month_leg(tiers: &[Tier], commodity: &Name, leg: &IntraLeg) -> MonthLeg
    ensures { result ≡ month_leg tiers.now commodity.now leg.now }
{
    match tier_of(tiers, commodity, leg.tier) {
        Some(tier) => MonthLeg {
            first: tier.first,
            last: tier.last,
            side: leg.side,
            ratio: Divisor::new(leg.ratio),
        },
        None => MonthLeg {
            first: 1,
            last: 0,
            side: leg.side,
            ratio: Divisor::new(leg.ratio),
        },
    }
}

// Returns an intracommodity spread with its tiers' months.
fn intra_of(tiers: &[Tier], spread: &IntraRecord) -> Intra
    ensures { result ≡ intra_spread tiers.now spread.now }
{
    let mut legs = ArrayVec::new();
    for leg in spread.legs.as_slice() {
        legs.push(month_leg(tiers, &spread.commodity, leg));
    }
    Intra::new(spread.priority, spread.rate, legs)
}

// Returns the intracommodity spreads of each commodity in their order, each with its tiers' months. `tier_lists` has the
// tiers of each commodity.
pub(crate) fn intras_by_commodity(
    alloc: Global,
    commodities: &[Commodity],
    tier_lists: &[Vec<Tier>],
    spreads: &[IntraRecord],
) -> Result<Vec<Vec<Intra>>, AllocError>
    requires apart { has_repeat (λ c d. bytes_eq c.id d.id) commodities.now ≡ false }
    requires every { length tier_lists.now ≡ length commodities.now }
    requires known { All (λ s. commodity_number commodities.now s.commodity < length commodities.now) spreads.now }
    ensures { IfOk result (λ lists. (tiers : List Tier)
        → map (λ v. v.items) tier_lists.now ≡ map (λ c. filter (λ t. bytes_eq t.commodity c.id) tiers) commodities.now
        → map (λ v. v.items) lists.items
        ≡ map (λ c. map (intra_spread tiers) (filter (λ s. bytes_eq s.commodity c.id) spreads.now)) commodities.now) }
{
    let mut lists = empty_lists(alloc, commodities.len())?;
    let mut place = 0;
    for spread in spreads {
        place = number_near(commodities, place, &spread.commodity);
        let intra = intra_of(&tier_lists[place], spread);
        push_at(&mut lists, place, intra)?;
    }
    Ok(lists)
}

// Returns a leg with its commodity number.
fn commodity_leg(commodities: &[Commodity], leg: &InterLeg) -> CommodityLeg
    ensures { result ≡ commodity_leg commodities.now leg.now }
{
    CommodityLeg {
        commodity: number_of(commodities, &leg.commodity),
        side: leg.side,
        ratio: Divisor::new(leg.ratio),
    }
}

// Returns an intercommodity spread with its commodity numbers.
fn inter_of(commodities: &[Commodity], spread: &InterRecord) -> Inter
    ensures { result ≡ inter_spread commodities.now spread.now }
{
    let mut legs = ArrayVec::new();
    for leg in spread.legs.as_slice() {
        legs.push(commodity_leg(commodities, leg));
    }
    Inter::new(spread.priority, spread.basis_points, legs)
}

// Returns the intercommodity spreads in their order, each with its commodity numbers.
pub(crate) fn inters_with_numbers(
    alloc: Global,
    commodities: &[Commodity],
    spreads: &[InterRecord],
) -> Result<Vec<Inter>, AllocError>
    ensures { IfOk result (λ inters. inters.items ≡ map (inter_spread commodities.now) spreads.now) }
{
    let mut inters = Vec::new(alloc);
    for spread in spreads {
        inters.push(inter_of(commodities, spread))?;
    }
    Ok(inters)
}
