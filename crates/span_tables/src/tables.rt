//! The accepted tables of a parameter set.
ghost use Rattle.std.specs.Prelude.{◌≡◌, ◌<◌, ◌≤◌, [], length, map};
ghost use Rattle.std.specs.Prelude.{slice_index_or, false, true, All, IfOk};
ghost use Rattle.std.specs.Arc.{arc_value};
ghost use Rattle.std.specs.List.{list_any};
ghost use Rattle.span_tables.specs.Accepted.{IsInter, IsIntra, IsSpot, IsWithinLimits};
ghost use Rattle.span_tables.specs.near.Gathered.{number_of};
ghost use Rattle.span_tables.specs.near.Kept.{IsAccepted, tables_from};
ghost use Rattle.span_tables.specs.Tables.{commodity_id};
ghost use Rattle.span_tables.specs.Names.{has_repeat};
ghost use Rattle.span_tables.specs.Rules.{keeps_rules, share_month};
ghost use Rattle.span_tables.specs.Tables.{facts_in, has_months, inters_of, intras_of, spots_of, tables_of, tiers_of};
ghost use Rattle.span_tables.specs.declared.limits.TheConstants.{MAX_INTER_SPREADS, MAX_INTRA_SPREADS, MAX_SPOT_MONTHS, MAX_TIERS};

use crate::contracts::Contracts;
use crate::groups::{spots_by_commodity, tiers_by_commodity};
use crate::kinds::{Kinds, in_order, set_record};
use crate::name::Name;
use crate::profiles::{ProfileFacts, facts_of};
use crate::raw::RawTables;
use crate::records::{
    Commodity, Contract, Inter, InterRecord, Intra, IntraRecord, SetRecord, Spot, Tier,
};
use crate::spreads::{inters_with_numbers, intras_by_commodity};
use std::alloc::{AllocError, Global};
use std::marker::Model;
use std::sync::Arc;

/// The number of records of each kind in the tables.
#[derive(Clone, Copy, Debug, PartialEq, Eq)]
pub struct Counts {
    pub commodities: usize,
    pub contracts: usize,
    pub tiers: usize,
    pub intra: usize,
    pub spots: usize,
    pub inter: usize,
}

/// The accepted tables of a parameter set.
///
/// Commodities and contracts are numbered from 0 in file order, and spreads are sorted by priority. In addition to the
/// records, the tables have the terms of each contract, spreads with their months or commodity numbers, and the spot
/// months and the tiers of each commodity.
#[derive(Drop)]
pub struct Tables {
    set: SetRecord,
    commodities: Vec<Commodity>,
    contracts: Arc<Contracts>,
    tiers: Vec<Tier>,
    intra_records: Vec<IntraRecord>,
    spots: Vec<Spot>,
    inter_records: Vec<InterRecord>,
    intras: Vec<Vec<Intra>>,
    spot_months: Vec<Vec<Spot>>,
    inters: Vec<Inter>,
    tier_lists: Vec<Vec<Tier>>,
}

impl Model for Tables {
    ghost use Rattle.std.specs.Prelude.{map};
    ghost use Rattle.std.specs.Arc.{arc_value};
    ghost use Rattle.span_tables.specs.near.Kept.{IsTables};
    ghost use Rattle.span_tables.specs.Tables.{AcceptedTables};

    ghost Value = { AcceptedTables };

    ghost view = { λ t. record {
      set_id = t.set.id;
      profile = t.set.profile;
      currency = t.set.currency;
      commodities = t.commodities.items;
      contracts = (arc_value t.contracts).records;
      tiers = t.tiers.items;
      intra_records = t.intra_records.items;
      spots = t.spots.items;
      inter_records = t.inter_records.items;
    } };

    ghost invariant = { λ t. IsTables
        (record {
          set_id = t.set.id;
          profile = t.set.profile;
          currency = t.set.currency;
          commodities = t.commodities.items;
          contracts = (arc_value t.contracts).records;
          tiers = t.tiers.items;
          intra_records = t.intra_records.items;
          spots = t.spots.items;
          inter_records = t.inter_records.items;
        })
        (arc_value t.contracts).terms (map (λ v. v.items) t.intras.items) (map (λ v. v.items) t.spot_months.items)
        t.inters.items (map (λ v. v.items) t.tier_lists.items) };
}

// Returns the list at index `place`.
fn list_at<T>(lists: &[Vec<T>], place: usize) -> &[T]
    requires { place < length lists.now }
    ensures { result.now ≡ slice_index_or (map (λ v. v.items) lists.now) place [] }
{
    lists[place].as_slice()
}

impl Tables {
    /// Returns the tables of the records of a file that keep every rule.
    pub fn new(alloc: Global, raw: RawTables) -> Result<Tables, AllocError>
        requires { keeps_rules raw ≡ true }
        ensures { IfOk result (λ tables. tables ≡ tables_of raw) }
    {
        let set = set_record(raw.records());
        let kinds = in_order(alloc, raw.into_records())?;
        Tables::with_numbers(alloc, set, kinds)
    }

    // Returns the tables of sorted records, with the months and numbers that the records name.
    fn with_numbers(alloc: Global, set: SetRecord, kinds: Kinds) -> Result<Tables, AllocError>
        requires { IsAccepted (tables_from set kinds) }
        ensures { IfOk result (λ tables. tables ≡ tables_from set kinds) }
    {
        let records = kinds.contracts;
        let commodities = kinds.commodities.as_slice();
        let tiers = kinds.tiers.as_slice();
        let spreads = kinds.intras.as_slice();
        let spots = kinds.spots.as_slice();
        let tier_lists = tiers_by_commodity(alloc, commodities, tiers)?;
        let intras = intras_by_commodity(alloc, commodities, &tier_lists, spreads)?;
        let spot_months = spots_by_commodity(alloc, commodities, spots)?;
        let inters = inters_with_numbers(alloc, commodities, &kinds.inters)?;
        let contracts = Contracts::of(alloc, commodities, records)?;
        let contracts = Arc::new(alloc, contracts)?;
        Ok(Tables {
            set,
            commodities: kinds.commodities,
            contracts,
            tiers: kinds.tiers,
            intra_records: kinds.intras,
            spots: kinds.spots,
            inter_records: kinds.inters,
            intras,
            spot_months,
            inters,
            tier_lists,
        })
    }

    /// Returns the id of the parameter set.
    pub fn set_id(&self) -> &Name
        ensures { result.now ≡ self.now.set_id }
    {
        &self.set.id
    }

    /// Returns the profile of the parameter set, which is the version of its SET record.
    pub fn profile(&self) -> u8
        ensures { result ≡ self.now.profile }
    {
        self.set.profile
    }

    /// Returns the currency of the parameter set: three capital letters, such as `USD`.
    pub fn currency(&self) -> &[u8; 3]
        ensures { result.now ≡ self.now.currency }
    {
        &self.set.currency
    }

    /// Returns the properties of the parameter set's profile.
    pub fn facts(&self) -> ProfileFacts
        ensures { result ≡ facts_in self.now }
    {
        facts_of(self.profile())
    }

    /// Does nothing. Its contract states that the tables are within their limits.
    pub fn known(&self)
        ensures { IsWithinLimits self.now }
    {
        let _ = &self.commodities;
    }

    /// Returns the commodities, indexed by number.
    pub fn commodities(&self) -> &[Commodity]
        ensures value { result.now ≡ self.now.commodities }
        ensures limits { IsWithinLimits self.now }
    {
        &self.commodities
    }

    /// Returns the contracts, indexed by number.
    pub fn contracts(&self) -> &[Contract]
        ensures value { result.now ≡ self.now.contracts }
        ensures limits { IsWithinLimits self.now }
    {
        self.contracts.records()
    }

    // Returns the contracts, each with its terms.
    pub(crate) fn with_terms(&self) -> &Contracts
        ensures value { result.now.records ≡ self.now.contracts }
        ensures limits { IsWithinLimits self.now }
    {
        &self.contracts
    }

    // Returns one more shared reference to the contracts.
    pub(crate) fn share_contracts(&self) -> Result<Arc<Contracts>, AllocError>
        ensures value { IfOk result (λ contracts. (arc_value contracts).records ≡ self.now.contracts) }
        ensures limits { IsWithinLimits self.now }
    {
        Arc::try_clone(&self.contracts)
    }

    /// Returns the commodity number of the contract with a number, or 0 if there is no such contract.
    pub fn commodity_of(&self, contract: u32) -> usize
        ensures value { result ≡ number_of self.now contract }
        ensures known { contract < length self.now.contracts → result < length self.now.commodities }
    {
        self.contracts.commodity_of(contract)
    }

    /// Returns the tiers of all commodities, in file order.
    pub fn tiers(&self) -> &[Tier]
        ensures { result.now ≡ self.now.tiers }
    {
        &self.tiers
    }

    /// Returns the INTRA records of all commodities, by rising priority. Their legs name tiers.
    pub fn intra_records(&self) -> &[IntraRecord]
        ensures { result.now ≡ self.now.intra_records }
    {
        &self.intra_records
    }

    /// Returns the SPOT records of all commodities, in file order.
    pub fn spot_records(&self) -> &[Spot]
        ensures { result.now ≡ self.now.spots }
    {
        &self.spots
    }

    /// Returns the INTER records, by rising priority. Their legs name commodities.
    pub fn inter_records(&self) -> &[InterRecord]
        ensures { result.now ≡ self.now.inter_records }
    {
        &self.inter_records
    }

    /// Returns the tiers of the commodity with this number, in file order. No two of them share a month.
    pub fn tiers_of(&self, commodity: usize) -> &[Tier]
        requires { commodity < length self.now.commodities }
        ensures value { result.now ≡ tiers_of self.now (commodity_id self.now commodity) }
        ensures few { length result.now ≤ MAX_TIERS }
        ensures apart { has_repeat share_month result.now ≡ false }
    {
        list_at(&self.tier_lists, commodity)
    }

    /// Returns the intracommodity spreads of the commodity with this number, by rising priority. Each leg has the months
    /// of a tier of the commodity.
    pub fn intras(&self, commodity: usize) -> &[Intra]
        requires { commodity < length self.now.commodities }
        ensures value { result.now ≡ intras_of self.now (commodity_id self.now commodity) }
        ensures few { length result.now ≤ MAX_INTRA_SPREADS }
        ensures in_range { All IsIntra result.now }
        ensures of_tiers { All (λ s. All (λ leg.
            list_any (has_months leg) (tiers_of self.now (commodity_id self.now commodity)) ≡ true) s.legs) result.now }
    {
        list_at(&self.intras, commodity)
    }

    /// Returns the spot months of the commodity with this number, in file order.
    pub fn spots(&self, commodity: usize) -> &[Spot]
        requires { commodity < length self.now.commodities }
        ensures value { result.now ≡ spots_of self.now (commodity_id self.now commodity) }
        ensures few { length result.now ≤ MAX_SPOT_MONTHS }
        ensures in_range { All IsSpot result.now }
    {
        list_at(&self.spot_months, commodity)
    }

    /// Returns the intercommodity spreads, by rising priority.
    pub fn inters(&self) -> &[Inter]
        ensures value { result.now ≡ inters_of self.now }
        ensures few { length result.now ≤ MAX_INTER_SPREADS }
        ensures in_range { All (IsInter (length self.now.commodities)) result.now }
    {
        &self.inters
    }

    /// Returns the number of records of each kind.
    pub fn counts(&self) -> Counts
        ensures { result ≡ record {
          commodities = length self.now.commodities;
          contracts = length self.now.contracts;
          tiers = length self.now.tiers;
          intra = length self.now.intra_records;
          spots = length self.now.spots;
          inter = length self.now.inter_records;
        } }
    {
        Counts {
            commodities: self.commodities.len(),
            contracts: self.contracts.records().len(),
            tiers: self.tiers.len(),
            intra: self.intra_records.len(),
            spots: self.spots.len(),
            inter: self.inter_records.len(),
        }
    }
}
