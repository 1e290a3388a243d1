//! The rules that depend only on a record itself or on the names in it: C2, C5, C7, C8 and C9.
ghost use Rattle.std.specs.Prelude.{◌≡◌, ◌&&◌, ◌==◌, bytes_eq, map};
ghost use Rattle.std.specs.List.{list_all, list_any};
ghost use Rattle.span_tables.specs.Names.{has_repeat};
ghost use Rattle.span_tables.specs.Rules.{are_one_sided, is_backwards, is_one_sided, repeats_leg, same_side};
ghost use Rattle.param_check.specs.near.Keys.{is_key_unknown, names_unknown, names_unknown_tier};

use crate::check::keys::{Key, name_key};
use indexmap::IndexSet;
use span_tables::name::Name;
use span_tables::records::{InterLeg, IntraLeg, Record};
use span_tables::sides::Side;

// ---- C2

// Returns whether no record has the key of this name and number.
fn is_key_unknown(keys: &IndexSet<Key>, name: &Name, number: u32) -> bool
    ensures { result ≡ is_key_unknown keys.now.keys name.now number }
{
    !keys.contains(&name_key(name, number))
}

// Returns whether a leg has an unknown commodity.
fn has_unknown_leg(commodities: &IndexSet<Key>, legs: &[InterLeg]) -> bool
    ensures { result ≡ list_any (λ leg. is_key_unknown commodities.now.keys leg.commodity 0) legs.now }
{
    legs.iter()
        .any(|leg| is_key_unknown(commodities, &leg.commodity, 0))
}

/// Returns whether a record names an unknown commodity.
pub(crate) fn names_unknown(commodities: &IndexSet<Key>, item: &Record) -> bool
    ensures { result ≡ names_unknown commodities.now.keys item.now }
{
    match item {
        Record::Set(_) | Record::Commodity(_) => false,
        Record::Contract(contract) => is_key_unknown(commodities, &contract.commodity, 0),
        Record::Tier(tier) => is_key_unknown(commodities, &tier.commodity, 0),
        Record::Intra(spread) => is_key_unknown(commodities, &spread.commodity, 0),
        Record::Spot(spot) => is_key_unknown(commodities, &spot.commodity, 0),
        Record::Inter(spread) => has_unknown_leg(commodities, &spread.legs),
    }
}

// ---- C5

/// Returns whether a record is a TIER whose first month is after its last.
pub(crate) fn is_backwards(item: &Record) -> bool
    ensures { result ≡ is_backwards item.now }
{
    match item {
        Record::Tier(tier) => tier.last < tier.first,
        _ => false,
    }
}

// ---- C7

// Returns whether a leg has an unknown tier.
fn has_unknown_tier(tiers: &IndexSet<Key>, commodity: &Name, legs: &[IntraLeg]) -> bool
    ensures { result ≡ list_any (λ leg. is_key_unknown tiers.now.keys commodity.now leg.tier) legs.now }
{
    legs.iter()
        .any(|leg| is_key_unknown(tiers, commodity, leg.tier))
}

/// Returns whether a record is an INTRA with a leg of an unknown tier.
pub(crate) fn names_unknown_tier(tiers: &IndexSet<Key>, item: &Record) -> bool
    ensures { result ≡ names_unknown_tier tiers.now.keys item.now }
{
    match item {
        Record::Intra(spread) => has_unknown_tier(tiers, &spread.commodity, &spread.legs),
        _ => false,
    }
}

// ---- C8

// Returns whether two legs are on the same side.
fn same_side(one: Side, other: Side) -> bool
    ensures { result ≡ same_side one other }
{
    matches!((one, other), (Side::A, Side::A) | (Side::B, Side::B))
}

// Returns whether one of the legs has the tier and side of this leg.
fn has_tier_leg(leg: &IntraLeg, legs: &[IntraLeg]) -> bool
    ensures { result ≡ list_any (λ other. (leg.now.tier == other.tier) && same_side leg.now.side other.side) legs.now }
{
    legs.iter().any(|other| leg.tier == other.tier && same_side(leg.side, other.side))
}

// Returns whether two legs have the same tier and side.
fn repeats_tier_leg(legs: &[IntraLeg]) -> bool
    ensures { result ≡ has_repeat (λ a b. (a.tier == b.tier) && same_side a.side b.side) legs.now }
{
    for (index, leg) in legs.iter().enumerate() {
        if has_tier_leg(leg, &legs[index + 1..]) {
            return true;
        }
    }
    false
}

// Returns whether one of the legs has the commodity of this leg.
fn has_commodity_leg(leg: &InterLeg, legs: &[InterLeg]) -> bool
    ensures { result ≡ list_any (λ other. bytes_eq leg.now.commodity other.commodity) legs.now }
{
    legs.iter().any(|other| leg.commodity == other.commodity)
}

// Returns whether two legs have the same commodity.
fn repeats_commodity_leg(legs: &[InterLeg]) -> bool
    ensures { result ≡ has_repeat (λ a b. bytes_eq a.commodity b.commodity) legs.now }
{
    for (index, leg) in legs.iter().enumerate() {
        if has_commodity_leg(leg, &legs[index + 1..]) {
            return true;
        }
    }
    false
}

/// Returns whether a record is a spread with two legs of the same tier and side, or of the same commodity.
pub(crate) fn repeats_leg(item: &Record) -> bool
    ensures { result ≡ repeats_leg item.now }
{
    match item {
        Record::Intra(spread) => repeats_tier_leg(&spread.legs),
        Record::Inter(spread) => repeats_commodity_leg(&spread.legs),
        _ => false,
    }
}

// ---- C9

// Returns whether all legs are on this side.
fn tier_legs_on(legs: &[IntraLeg], side: Side) -> bool
    ensures { result ≡ list_all (same_side side) (map (λ leg. leg.side) legs.now) }
{
    legs.iter()
        .map(|leg| leg.side)
        .all(|other| same_side(side, other))
}

// Returns whether no leg is on side A, or none is on side B.
fn tier_legs_one_sided(legs: &[IntraLeg]) -> bool
    ensures { result ≡ are_one_sided (map (λ leg. leg.side) legs.now) }
{
    tier_legs_on(legs, Side::A) || tier_legs_on(legs, Side::B)
}

// Returns whether all legs are on this side.
fn commodity_legs_on(legs: &[InterLeg], side: Side) -> bool
    ensures { result ≡ list_all (same_side side) (map (λ leg. leg.side) legs.now) }
{
    legs.iter()
        .map(|leg| leg.side)
        .all(|other| same_side(side, other))
}

// Returns whether no leg is on side A, or none is on side B.
fn commodity_legs_one_sided(legs: &[InterLeg]) -> bool
    ensures { result ≡ are_one_sided (map (λ leg. leg.side) legs.now) }
{
    commodity_legs_on(legs, Side::A) || commodity_legs_on(legs, Side::B)
}

/// Returns whether a record is a spread with no leg on side A, or none on side B.
pub(crate) fn is_one_sided(item: &Record) -> bool
    ensures { result ≡ is_one_sided item.now }
{
    match item {
        Record::Intra(spread) => tier_legs_one_sided(&spread.legs),
        Record::Inter(spread) => commodity_legs_one_sided(&spread.legs),
        _ => false,
    }
}
