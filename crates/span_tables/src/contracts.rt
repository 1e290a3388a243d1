//! The contracts of a parameter set, each with its terms.
ghost use Rattle.std.specs.Prelude.{◌≡◌, ◌<◌, ◌≤◌, All, IfOk, IfSome, length, map, false, slice_get};
ghost use Rattle.span_tables.specs.Accepted.{IsContract, commodity_number};
ghost use Rattle.span_tables.specs.Names.{has_repeat};
ghost use Rattle.std.specs.Prelude.{bytes_eq};
ghost use Rattle.span_tables.specs.declared.limits.TheConstants.{MAX_COMMODITIES};
ghost use Rattle.span_tables.specs.near.Terms.{AreTermsOf, number_at, numbered_terms, terms_of};

use crate::groups::number_near;
use crate::limits::SCENARIOS;
use crate::records::{Commodity, Contract, ProductKind};
use std::alloc::{AllocError, Global};
use std::marker::Model;

/// The terms of a contract from which figures are computed. They are the fields of its record without the names, so
/// that a calculation over many contracts reads little memory.
#[derive(Clone, Copy, Debug)]
pub struct Terms {
    /// The risk array: the value of each scenario for one long contract, in minor units. A loss is positive.
    pub values: [i32; SCENARIOS],
    /// The delta of one long contract, in units of 10^-8: its composite delta times its scale.
    pub units: i32,
    /// The month (`yyyymm`).
    pub month: u32,
    /// The value of one long contract, in minor units. It is 0 for a future.
    pub option_value: u32,
    /// The commodity number.
    pub commodity: u8,
    pub kind: ProductKind,
}

// Returns the terms of a contract of the commodity with this number.
fn numbered_terms(commodity: usize, contract: &Contract) -> Terms
    requires commodity { commodity < MAX_COMMODITIES }
    requires contract { IsContract contract.now }
    ensures { result ≡ numbered_terms commodity contract.now }
{
    Terms {
        values: contract.values,
        units: contract.delta.get() * contract.scale.get() as i32,
        month: contract.month,
        option_value: contract.extras.option_value,
        commodity: commodity as u8,
        kind: contract.kind,
    }
}

/// The contracts of a parameter set, in file order, each with its record and its terms.
#[derive(Drop)]
pub struct Contracts {
    records: Vec<Contract>,
    terms: Vec<Terms>,
}

impl Model for Contracts {
    ghost use Rattle.span_tables.specs.near.Terms.{AreTerms, ContractsView};

    ghost Value = { ContractsView };

    ghost view = { λ c. record { records = c.records.items; terms = c.terms.items } };

    ghost invariant = { λ c. AreTerms c.records.items c.terms.items };
}

// Returns the terms of each contract.
fn all_terms(
    alloc: Global,
    commodities: &[Commodity],
    contracts: &[Contract],
) -> Result<Vec<Terms>, AllocError>
    requires few { length commodities.now ≤ MAX_COMMODITIES }
    requires apart { has_repeat (λ c d. bytes_eq c.id d.id) commodities.now ≡ false }
    requires known { All (λ x. commodity_number commodities.now x.commodity < length commodities.now) contracts.now }
    requires in_range { All IsContract contracts.now }
    ensures { IfOk result (λ terms. terms.items ≡ map (terms_of commodities.now) contracts.now) }
{
    let mut terms = Vec::with_capacity(alloc, contracts.len())?;
    let mut number = 0;
    for contract in contracts {
        number = number_near(commodities, number, &contract.commodity);
        terms.push(numbered_terms(number, contract))?;
    }
    Ok(terms)
}

impl Contracts {
    /// Returns the contracts with these records, each with its terms.
    pub(crate) fn of(
        alloc: Global,
        commodities: &[Commodity],
        records: Vec<Contract>,
    ) -> Result<Contracts, AllocError>
        requires few { length commodities.now ≤ MAX_COMMODITIES }
        requires apart { has_repeat (λ c d. bytes_eq c.id d.id) commodities.now ≡ false }
        requires known { All (λ x. commodity_number commodities.now x.commodity < length commodities.now) records.items }
        requires in_range { All IsContract records.items }
        ensures records { IfOk result (λ contracts. contracts.records ≡ records.items) }
        ensures terms { IfOk result (λ contracts. contracts.terms ≡ map (terms_of commodities.now) records.items) }
    {
        let terms = all_terms(alloc, commodities, &records)?;
        Ok(Contracts { records, terms })
    }

    /// Returns the records, indexed by contract number.
    pub fn records(&self) -> &[Contract]
        ensures { result.now ≡ self.now.records }
    {
        &self.records
    }

    /// Returns the record of the contract with a number.
    pub fn at(&self, contract: u32) -> &Contract
        requires { contract < length self.now.records }
        ensures { IfSome (slice_get self.now.records contract) (λ x. result.now ≡ x) }
    {
        &self.records[contract as usize]
    }

    /// Returns the terms of the contract with a number.
    pub fn terms(&self, contract: u32) -> &Terms
        requires { contract < length self.now.records }
        ensures { IfSome (slice_get self.now.records contract) (λ x. AreTermsOf x result.now) }
    {
        &self.terms[contract as usize]
    }

    /// Returns the commodity number of the contract with a number, or 0 if there is no such contract.
    pub fn commodity_of(&self, contract: u32) -> usize
        ensures { result ≡ number_at self.now.terms contract }
    {
        match self.terms.get(contract as usize) {
            Some(terms) => usize::from(terms.commodity),
            None => 0,
        }
    }
}
