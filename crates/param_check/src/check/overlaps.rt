//! The rule that a tier shares no month with an earlier tier of its commodity.
ghost use Rattle.std.specs.Prelude.{◌≡◌, ℕ, ◌++◌, ◌∷◌, [], List};
ghost use Rattle.std.specs.Prelude.{bytes_eq, if◌then◌else◌, option_to_list, IfOk, OnOk};
ghost use Rattle.std.specs.List.{list_any};
ghost use Rattle.param_check.specs.near.Overlaps.{meet, meets_earlier, months_in, months_under};

use indexmap::IndexMap;
use span_tables::name::Name;
use span_tables::records::Record;
use std::alloc::{AllocError, Global};

/// The months (`yyyymm`) of a tier.
#[derive(Clone, Copy, Debug)]
pub(crate) struct Months {
    pub first: u32,
    pub last: u32,
}

// Returns whether two tiers with these months share a month.
fn meet(one: Months, other: Months) -> bool
    ensures { result ≡ meet one other }
{
    one.first.max(other.first) <= one.last.min(other.last)
}

// Returns whether a tier with these months shares a month with one of the earlier tiers.
fn meets(months: Months, earlier: &[Months]) -> bool
    ensures { result ≡ list_any (meet months) earlier.now }
{
    earlier.iter().any(|other| meet(months, *other))
}

// Adds the months of a tier to the months of its commodity, and returns whether it shares a month with an earlier tier.
fn meets_or_joins(
    alloc: Global,
    tiers: &mut IndexMap<Name, Vec<Months>>,
    commodity: &Name,
    months: Months,
) -> Result<bool, AllocError>
    ensures meets { IfOk result (λ met. met
        ≡ list_any (meet months) (months_in tiers.old commodity.now)) }
    ensures joins { OnOk result ((c : List ℕ)
        → months_in tiers.new c
        ≡ months_in tiers.old c
        ++ (if bytes_eq commodity.now c then months ∷ [] else [])) }
{
    if let Some(earlier) = tiers.get_mut(commodity) {
        let met = meets(months, earlier);
        earlier.push(months)?;
        return Ok(met);
    }
    let mut group = Vec::new(alloc);
    group.push(months)?;
    tiers.insert(commodity.copied(), group)?;
    Ok(false)
}

/// Adds the months of a record if it is a tier, and returns whether it shares a month with an earlier tier of its
/// commodity.
pub(crate) fn overlaps_or_joins(
    alloc: Global,
    tiers: &mut IndexMap<Name, Vec<Months>>,
    item: &Record,
) -> Result<bool, AllocError>
    ensures meets { IfOk result (λ met. met
        ≡ meets_earlier (months_in tiers.old) item.now) }
    ensures joins { OnOk result ((c : List ℕ)
        → months_in tiers.new c
        ≡ months_in tiers.old c ++ option_to_list (months_under c item.now)) }
{
    let Record::Tier(tier) = item else {
        return Ok(false);
    };
    let months = Months {
        first: tier.first,
        last: tier.last,
    };
    meets_or_joins(alloc, tiers, &tier.commodity, months)
}
