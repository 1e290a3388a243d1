//! Lists by commodity number of the records that name a commodity.
ghost use Rattle.std.specs.Prelude.{◌≡◌, ◌<◌, ◌++◌, ◌∷◌, [], length, map, filter};
ghost use Rattle.std.specs.Prelude.{bytes_eq, replicate, slice_index_or, slice_set, false, All, IfOk, OnOk};
ghost use Rattle.std.specs.List.{position};
ghost use Rattle.span_tables.specs.Accepted.{commodity_number};
ghost use Rattle.span_tables.specs.Names.{has_repeat};

use crate::name::Name;
use crate::records::{Commodity, Spot, Tier};
use std::alloc::{AllocError, Global};

// Returns the number of the commodity with an id, if there is one.
fn place_of(commodities: &[Commodity], id: &Name) -> Option<usize>
    ensures { result ≡ position (λ c. bytes_eq c.id id.now) commodities.now }
{
    commodities.iter().position(|commodity| commodity.id == *id)
}

// Returns the number of the commodity with an id, or the number of commodities if there is none.
#[tactic(auto, using(crate::proofs::Places::position_or_length))]
pub(crate) fn number_of(commodities: &[Commodity], id: &Name) -> usize
    ensures { result ≡ commodity_number commodities.now id.now }
{
    place_of(commodities, id).unwrap_or(commodities.len())
}

// Returns the same number, and checks `near` first: records of a commodity are usually adjacent.
pub(crate) fn number_near(commodities: &[Commodity], near: usize, id: &Name) -> usize
    requires { has_repeat (λ c d. bytes_eq c.id d.id) commodities.now ≡ false }
    ensures { result ≡ commodity_number commodities.now id.now }
{
    if let Some(commodity) = commodities.get(near) {
        if commodity.id == *id {
            return near;
        }
    }
    number_of(commodities, id)
}

/// Returns `count` empty lists.
pub fn empty_lists<T: Drop>(alloc: Global, count: usize) -> Result<Vec<Vec<T>>, AllocError>
    ensures { IfOk result (λ lists. map (λ v. v.items) lists.items ≡ replicate count []) }
{
    let mut lists = Vec::new(alloc);
    for _ in 0..count {
        lists.push(Vec::new(alloc))?;
    }
    Ok(lists)
}

/// Appends a value to the list at index `place`.
pub fn push_at<T: Drop>(lists: &mut Vec<Vec<T>>, place: usize, value: T) -> Result<(), AllocError>
    requires { place < length lists.old.items }
    ensures items { OnOk result (map (λ v. v.items) lists.new.items
        ≡ slice_set (map (λ v. v.items) lists.old.items) place
        (slice_index_or (map (λ v. v.items) lists.old.items) place [] ++ value ∷ [])) }
    ensures len { length lists.new.items ≡ length lists.old.items }
{
    lists[place].push(value)?;
    Ok(())
}

// Returns the tiers of each commodity, in file order.
pub(crate) fn tiers_by_commodity(
    alloc: Global,
    commodities: &[Commodity],
    tiers: &[Tier],
) -> Result<Vec<Vec<Tier>>, AllocError>
    requires apart { has_repeat (λ c d. bytes_eq c.id d.id) commodities.now ≡ false }
    requires known { All (λ t. commodity_number commodities.now t.commodity < length commodities.now) tiers.now }
    ensures { IfOk result (λ lists. map (λ v. v.items) lists.items
        ≡ map (λ c. filter (λ t. bytes_eq t.commodity c.id) tiers.now) commodities.now) }
{
    let mut lists = empty_lists(alloc, commodities.len())?;
    let mut place = 0;
    for tier in tiers {
        place = number_near(commodities, place, &tier.commodity);
        push_at(&mut lists, place, tier.copied())?;
    }
    Ok(lists)
}

// Returns the spot months of each commodity, in file order.
pub(crate) fn spots_by_commodity(
    alloc: Global,
    commodities: &[Commodity],
    spots: &[Spot],
) -> Result<Vec<Vec<Spot>>, AllocError>
    requires apart { has_repeat (λ c d. bytes_eq c.id d.id) commodities.now ≡ false }
    requires known { All (λ s. commodity_number commodities.now s.commodity < length commodities.now) spots.now }
    ensures { IfOk result (λ lists. map (λ v. v.items) lists.items
        ≡ map (λ c. filter (λ s. bytes_eq s.commodity c.id) spots.now) commodities.now) }
{
    let mut lists = empty_lists(alloc, commodities.len())?;
    let mut place = 0;
    for spot in spots {
        place = number_near(commodities, place, &spot.commodity);
        push_at(&mut lists, place, spot.copied())?;
    }
    Ok(lists)
}
