//! The records of a file by kind.
ghost use Rattle.std.specs.Prelude.{◌≡◌, ◌++◌, Some, true, IfOk, OnOk, option_to_list};
ghost use Rattle.span_tables.specs.near.ByKind.{AreByKind};
ghost use Rattle.span_tables.specs.near.Kept.{tables_from};
ghost use Rattle.span_tables.specs.near.Limits.{begins_with_set};
ghost use Rattle.span_tables.specs.Rules.{as_commodity, as_contract, as_inter, as_intra, as_spot, as_tier};
ghost use Rattle.span_tables.specs.Tables.{set_in, tables_of};
ghost use Rattle.span_tables.specs.declared.records.SetRecord.{SetRecord};

use crate::name::Name;
use crate::records::{
    Commodity, Contract, InterRecord, IntraRecord, Record, SetRecord, Spot, Tier,
};
use std::alloc::{AllocError, Global};

// The records of each kind, in file order.
#[derive(Drop)]
pub(crate) struct Kinds {
    pub(crate) commodities: Vec<Commodity>,
    pub(crate) contracts: Vec<Contract>,
    pub(crate) tiers: Vec<Tier>,
    pub(crate) intras: Vec<IntraRecord>,
    pub(crate) spots: Vec<Spot>,
    pub(crate) inters: Vec<InterRecord>,
}

impl Kinds {
    ghost use Rattle.std.specs.Prelude.{◌≡◌, []};
    ghost use Rattle.span_tables.specs.near.ByKind.{AreByKind};

    fn new(alloc: Global) -> Kinds
        ensures { AreByKind [] result.commodities.items result.contracts.items result.tiers.items result.intras.items result.spots.items
            result.inters.items }
    {
        Kinds {
            commodities: Vec::new(alloc),
            contracts: Vec::new(alloc),
            tiers: Vec::new(alloc),
            intras: Vec::new(alloc),
            spots: Vec::new(alloc),
            inters: Vec::new(alloc),
        }
    }
}

// Adds a record to the list of its kind.
fn add(kinds: &mut Kinds, next: Record) -> Result<(), AllocError>
    ensures commodities { OnOk result (kinds.new.commodities.items ≡ kinds.old.commodities.items ++ option_to_list (as_commodity next)) }
    ensures contracts { OnOk result (kinds.new.contracts.items ≡ kinds.old.contracts.items ++ option_to_list (as_contract next)) }
    ensures tiers { OnOk result (kinds.new.tiers.items ≡ kinds.old.tiers.items ++ option_to_list (as_tier next)) }
    ensures intras { OnOk result (kinds.new.intras.items ≡ kinds.old.intras.items ++ option_to_list (as_intra next)) }
    ensures spots { OnOk result (kinds.new.spots.items ≡ kinds.old.spots.items ++ option_to_list (as_spot next)) }
    ensures inters { OnOk result (kinds.new.inters.items ≡ kinds.old.inters.items ++ option_to_list (as_inter next)) }
{
    match next {
        Record::Set(_) => {}
        Record::Commodity(commodity) => kinds.commodities.push(commodity)?,
        Record::Contract(contract) => kinds.contracts.push(contract)?,
        Record::Tier(tier) => kinds.tiers.push(tier)?,
        Record::Intra(spread) => kinds.intras.push(spread)?,
        Record::Spot(spot) => kinds.spots.push(spot)?,
        Record::Inter(spread) => kinds.inters.push(spread)?,
    }
    Ok(())
}

// Returns the records by kind, in file order.
fn by_kind(alloc: Global, records: Vec<Record>) -> Result<Kinds, AllocError>
    ensures { IfOk result (λ kinds. AreByKind records.items kinds.commodities.items kinds.contracts.items kinds.tiers.items
        kinds.intras.items kinds.spots.items kinds.inters.items) }
{
    let mut kinds = Kinds::new(alloc);
    for record in records {
        add(&mut kinds, record)?;
    }
    Ok(kinds)
}

// Returns the records by kind in the order that tables have, with spreads by rising priority.
pub(crate) fn in_order(alloc: Global, records: Vec<Record>) -> Result<Kinds, AllocError>
    ensures { IfOk result (λ kinds. (set : SetRecord) → set_in records.items ≡ Some set → tables_from set kinds ≡ tables_of records.items) }
{
    let mut kinds = by_kind(alloc, records)?;
    kinds.intras.sort_by_key(|intra| intra.priority)?;
    kinds.inters.sort_by_key(|inter| inter.priority)?;
    Ok(kinds)
}

// Returns the SET record, which is the first record.
pub(crate) fn set_record(records: &[Record]) -> SetRecord
    requires { begins_with_set records.now ≡ true }
    ensures { set_in records.now ≡ Some result }
{
    match records.first() {
        Some(Record::Set(set)) => SetRecord {
            id: set.id.copied(),
            profile: set.profile,
            currency: set.currency,
        },
        _ => SetRecord {
            id: Name::default(),
            profile: 0,
            currency: [0; 3],
        },
    }
}
