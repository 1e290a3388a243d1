//! The profile of a file, and the number of records read of each kind that has a limit.
ghost use Rattle.std.specs.Prelude.{◌≡◌, ◌+◌, ◌<◌, ◌^◌, OnOk, [], ◌∷◌};
ghost use Rattle.span_csv.specs.near.Checks.{CountsOne, count_in, limit_of};
ghost use Rattle.span_csv.specs.ParamFaults.{profile_of};

use crate::checks::is_set;
use crate::fields::profile_in;
use crate::row::Row;
use indexmap::IndexMap;
use span_tables::limits::{
    MAX_COMMODITIES, MAX_CONTRACTS, MAX_INTER_SPREADS, MAX_INTRA_SPREADS, MAX_SPOT_MONTHS,
    MAX_TIERS,
};
use span_tables::name::Name;
use span_tables::records::Record;
use std::alloc::{AllocError, Global};

// Returns the count of a commodity.
fn count_of(counts: &IndexMap<Name, usize>, commodity: &Name) -> usize
    ensures { result ≡ count_in counts.now commodity.now }
{
    match counts.get(commodity) {
        Some(count) => *count,
        None => 0,
    }
}

// Adds one to the count of a commodity.
fn count_one(counts: &mut IndexMap<Name, usize>, commodity: &Name) -> Result<(), AllocError>
    requires { count_in counts.old commodity.now + 1 < 2 ^ 64 }
    ensures { OnOk result (CountsOne counts.old commodity.now counts.new) }
{
    let count = count_of(counts, commodity);
    match counts.insert(commodity.copied(), count + 1) {
        Ok(_) => Ok(()),
        Err(_) => Err(AllocError),
    }
}

// Returns the profile of a file that begins with this record.
fn profile_from(first: &Row) -> u8
    ensures { result ≡ profile_of (first.now ∷ []) }
{
    if is_set(first) {
        profile_in(first, 2).unwrap_or(1)
    } else {
        1
    }
}

/// Returns the maximum number of records of a record's kind, or of its kind and commodity.
pub(crate) fn limit_of(value: &Record) -> usize
    ensures { result ≡ limit_of value.now }
{
    match value {
        Record::Set(_) => 1,
        Record::Commodity(_) => MAX_COMMODITIES,
        Record::Contract(_) => MAX_CONTRACTS,
        Record::Tier(_) => MAX_TIERS,
        Record::Intra(_) => MAX_INTRA_SPREADS,
        Record::Spot(_) => MAX_SPOT_MONTHS,
        Record::Inter(_) => MAX_INTER_SPREADS,
    }
}

/// The counts of the records read, and the profile that the first one gives. Each kind with a limit is counted, some
/// kinds in total and others for each commodity.
#[derive(Drop)]
pub(crate) struct Tally {
    profile: u8,
    commodities: usize,
    contracts: usize,
    tiers: IndexMap<Name, usize>,
    intras: IndexMap<Name, usize>,
    spots: IndexMap<Name, usize>,
    inters: usize,
}

impl Tally {
    ghost use Rattle.span_csv.specs.near.Checks.{AddsRecord, KeepsProfile, Tallies, count_for};

    /// Returns the tally of no records.
    pub(crate) fn new(alloc: Global) -> Tally
        ensures { Tallies result [] }
    {
        Tally {
            profile: 1,
            commodities: 0,
            contracts: 0,
            tiers: IndexMap::new(alloc),
            intras: IndexMap::new(alloc),
            spots: IndexMap::new(alloc),
            inters: 0,
        }
    }

    /// Returns the profile of the file, or 1 before its first record.
    pub(crate) fn profile(&self) -> u8
        ensures { result ≡ self.now.profile }
    {
        self.profile
    }

    /// Returns the number of records that the limit of a record counts.
    pub(crate) fn count(&self, value: &Record) -> usize
        ensures { result ≡ count_for self.now value.now }
    {
        match value {
            Record::Set(_) => 0,
            Record::Commodity(_) => self.commodities,
            Record::Contract(_) => self.contracts,
            Record::Tier(tier) => count_of(&self.tiers, &tier.commodity),
            Record::Intra(spread) => count_of(&self.intras, &spread.commodity),
            Record::Spot(spot) => count_of(&self.spots, &spot.commodity),
            Record::Inter(_) => self.inters,
        }
    }

    /// Sets the profile of the file from this record, if it is the first.
    #[inline(always)]
    pub(crate) fn keep_profile(&mut self, first: bool, row: &Row)
        ensures { KeepsProfile first row.now self.old self.new }
    {
        if first {
            self.profile = profile_from(row);
        }
    }

    /// Counts a record if its kind has a limit.
    pub(crate) fn add(&mut self, value: &Record) -> Result<(), AllocError>
        requires { count_for self.old value.now + 1 < 2 ^ 64 }
        ensures { OnOk result (AddsRecord value.now self.old self.new) }
    {
        match value {
            Record::Set(_) => {}
            Record::Commodity(_) => self.commodities += 1,
            Record::Contract(_) => self.contracts += 1,
            Record::Tier(tier) => count_one(&mut self.tiers, &tier.commodity)?,
            Record::Intra(spread) => count_one(&mut self.intras, &spread.commodity)?,
            Record::Spot(spot) => count_one(&mut self.spots, &spot.commodity)?,
            Record::Inter(_) => self.inters += 1,
        }
        Ok(())
    }
}
