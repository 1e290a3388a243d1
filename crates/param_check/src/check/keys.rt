//! Keys that no two records of a kind may share.
ghost use Rattle.std.specs.Prelude.{◌≡◌, ◌||◌, false, IfOk, OnOk};
ghost use Rattle.param_check.specs.near.Keys.{has_key, is_key_among, is_same, key_of};

use indexmap::IndexSet;
use span_tables::name::Name;
use span_tables::records::Record;
use std::alloc::{AllocError, Global};

/// The kind of a key: the records that have such a key, and the fields that make it up.
#[derive(Clone, Copy, Debug, PartialEq, Eq)]
pub(crate) enum Identity {
    /// The id of a COMMODITY.
    Commodity,
    /// The id of a CONTRACT.
    Contract,
    /// The commodity and number of a TIER.
    Tier,
    /// The commodity and priority of an INTRA, or the priority of an INTER.
    Priority,
    /// The commodity and month of a SPOT.
    SpotMonth,
}

/// The key of a record: a name, if it has one, and a number, which is 0 if it has none.
#[derive(Debug, Drop, PartialEq, Eq, Hash)]
pub(crate) struct Key {
    pub name: Option<Name>,
    pub number: u32,
}

// Returns the key of a record, or `None` if it is of another kind.
fn key_of(identity: Identity, item: &Record) -> Option<Key>
    ensures { result ≡ key_of identity item.now }
{
    match (identity, item) {
        (Identity::Commodity, Record::Commodity(commodity)) => Some(name_key(&commodity.id, 0)),
        (Identity::Contract, Record::Contract(contract)) => Some(name_key(&contract.id, 0)),
        (Identity::Tier, Record::Tier(tier)) => Some(name_key(&tier.commodity, tier.number)),
        (Identity::Priority, Record::Intra(spread)) => {
            Some(name_key(&spread.commodity, spread.priority))
        }
        (Identity::Priority, Record::Inter(spread)) => Some(Key {
            name: None,
            number: spread.priority,
        }),
        (Identity::SpotMonth, Record::Spot(spot)) => Some(name_key(&spot.commodity, spot.month)),
        _ => None,
    }
}

/// Returns the key of a name and a number.
pub(crate) fn name_key(name: &Name, number: u32) -> Key
    ensures { result ≡ record { name = Some name.now; number = number } }
{
    Key {
        name: Some(name.copied()),
        number,
    }
}

/// Adds the key of a record to `keys`, and returns whether it was already among them.
pub(crate) fn repeats_or_joins(
    keys: &mut IndexSet<Key>,
    identity: Identity,
    item: &Record,
) -> Result<bool, AllocError>
    ensures repeats { IfOk result (λ repeats. repeats ≡ is_key_among keys.old.keys (key_of identity item.now)) }
    ensures members { OnOk result ((k : Key) → is_key_among keys.new.keys (Some k)
        ≡ (is_key_among keys.old.keys (Some k) || is_same (key_of identity item.now) k)) }
{
    let Some(key) = key_of(identity, item) else {
        return Ok(false);
    };
    let is_new = keys.insert(key)?;
    Ok(!is_new)
}

/// Returns the keys of all records that have one.
pub(crate) fn all_keys(
    alloc: Global,
    identity: Identity,
    records: &[Record],
) -> Result<IndexSet<Key>, AllocError>
    ensures { IfOk result (λ keys. (key : Key) → is_key_among keys.keys (Some key) ≡ has_key identity records.now key) }
{
    let mut keys = IndexSet::new(alloc);
    for item in records {
        repeats_or_joins(&mut keys, identity, item)?;
    }
    Ok(keys)
}
