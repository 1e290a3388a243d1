//! The checker of parameter files.
mod keys;
mod overlaps;
mod rules;

ghost use Rattle.std.specs.Prelude.{◌≡◌, ◌++◌, ◌∷◌, [], List, IfOk, OnOk};
ghost use Rattle.param_check.specs.CheckFaults.{check_fault, check_faults, checked, is_memory};
ghost use Rattle.param_check.specs.near.NamedRules.{breaks_of, fault_of, rule_faults, IsSeen};
ghost use Rattle.param_check.specs.near.Overlaps.{months_in};
ghost use Rattle.span_tables.specs.Gives.{Gives};
ghost use Rattle.span_tables.specs.declared.records.Record.{Record};

use crate::check::keys::{Identity, Key, all_keys, repeats_or_joins};
use crate::check::overlaps::{Months, overlaps_or_joins};
use crate::check::rules::{
    is_backwards, is_one_sided, names_unknown, names_unknown_tier, repeats_leg,
};
use crate::faults::CheckFault;
use indexmap::{IndexMap, IndexSet};
use span_tables::name::Name;
use span_tables::raw::RawTables;
use span_tables::records::Record;
use span_tables::tables::Tables;
use std::alloc::{AllocError, Global};

/// A rule on the records of a parameter file.
#[derive(Clone, Copy)]
pub(crate) enum Rule {
    /// C1, C3, C4, C10 and C11: no two records share a key of this kind.
    Repeats(Identity),
    /// C2.
    UnknownCommodity,
    /// C5.
    TierBackwards,
    /// C6.
    TierOverlap,
    /// C7.
    UnknownTier,
    /// C8.
    RepeatedLeg,
    /// C9.
    OneSided,
}

// The rules in the order of their numbers.
const RULES: [Rule; 11] = [
    Rule::Repeats(Identity::Commodity),
    Rule::UnknownCommodity,
    Rule::Repeats(Identity::Contract),
    Rule::Repeats(Identity::Tier),
    Rule::TierBackwards,
    Rule::TierOverlap,
    Rule::UnknownTier,
    Rule::RepeatedLeg,
    Rule::OneSided,
    Rule::Repeats(Identity::Priority),
    Rule::Repeats(Identity::SpotMonth),
];

// Returns the fault of a record that breaks a rule.
fn fault_of(rule: Rule, at: usize) -> CheckFault
    ensures { result ≡ fault_of rule at }
{
    match rule {
        Rule::Repeats(Identity::Commodity) => CheckFault::DuplicateCommodity { at },
        Rule::UnknownCommodity => CheckFault::UnknownCommodity { at },
        Rule::Repeats(Identity::Contract) => CheckFault::DuplicateContract { at },
        Rule::Repeats(Identity::Tier) => CheckFault::DuplicateTier { at },
        Rule::TierBackwards => CheckFault::TierBackwards { at },
        Rule::TierOverlap => CheckFault::TierOverlap { at },
        Rule::UnknownTier => CheckFault::UnknownTier { at },
        Rule::RepeatedLeg => CheckFault::RepeatedLeg { at },
        Rule::OneSided => CheckFault::OneSided { at },
        Rule::Repeats(Identity::Priority) => CheckFault::DuplicatePriority { at },
        Rule::Repeats(Identity::SpotMonth) => CheckFault::DuplicateSpot { at },
    }
}

// Returns the keys that a rule needs before the first record.
fn first_keys(alloc: Global, rule: Rule, records: &[Record]) -> Result<IndexSet<Key>, AllocError>
    ensures { IfOk result (λ keys. IsSeen rule records.now [] keys.keys (λ c. [])) }
{
    match rule {
        Rule::UnknownCommodity => all_keys(alloc, Identity::Commodity, records),
        Rule::UnknownTier => all_keys(alloc, Identity::Tier, records),
        _ => Ok(IndexSet::new(alloc)),
    }
}

// Returns whether a record breaks a rule, by the keys and the months of tiers seen so far for the rule. Adds the
// record's own.
fn breaks(
    alloc: Global,
    rule: Rule,
    keys: &mut IndexSet<Key>,
    tiers: &mut IndexMap<Name, Vec<Months>>,
    item: &Record,
) -> Result<bool, AllocError>
    ensures { IfOk result (λ breaks. (all earlier : List Record) → IsSeen rule all earlier keys.old.keys (months_in tiers.old)
        → (breaks ≡ breaks_of rule all earlier item.now)
        × IsSeen rule all (earlier ++ item.now ∷ []) keys.new.keys (months_in tiers.new)) }
{
    match rule {
        Rule::Repeats(identity) => repeats_or_joins(keys, identity, item),
        Rule::UnknownCommodity => Ok(names_unknown(keys, item)),
        Rule::TierBackwards => Ok(is_backwards(item)),
        Rule::TierOverlap => overlaps_or_joins(alloc, tiers, item),
        Rule::UnknownTier => Ok(names_unknown_tier(keys, item)),
        Rule::RepeatedLeg => Ok(repeats_leg(item)),
        Rule::OneSided => Ok(is_one_sided(item)),
    }
}

// Appends the faults of the records that break a rule.
fn tell_rule(
    alloc: Global,
    rule: Rule,
    records: &[Record],
    faults: &mut Vec<CheckFault>,
) -> Result<(), AllocError>
    ensures { OnOk result (faults.new.items ≡ faults.old.items ++ rule_faults records.now rule) }
{
    let mut keys = first_keys(alloc, rule, records)?;
    let mut tiers = IndexMap::new(alloc);
    for (index, item) in records.iter().enumerate() {
        if breaks(alloc, rule, &mut keys, &mut tiers, item)? {
            faults.push(fault_of(rule, index + 1))?;
        }
    }
    Ok(())
}

// Returns the faults of all rules.
#[tactic(auto, unfolding(crate::specs::CheckFaults::check_faults))]
fn all_faults(alloc: Global, records: &[Record]) -> Result<Vec<CheckFault>, AllocError>
    ensures { IfOk result (λ faults. faults.items ≡ check_faults records.now) }
{
    let mut faults = Vec::new(alloc);
    for rule in &RULES {
        tell_rule(alloc, *rule, records, &mut faults)?;
    }
    Ok(faults)
}

/// Returns the lowest-numbered broken rule, with the first record that breaks it (docs/FORMATS.md, "Faults").
#[tactic(auto, unfolding(crate::specs::CheckFaults::check_fault))]
pub fn check_fault(alloc: Global, records: &[Record]) -> Result<Option<CheckFault>, AllocError>
    ensures { IfOk result (λ fault. fault ≡ check_fault records.now) }
{
    let faults = all_faults(alloc, records)?;
    Ok(faults.into_iter().next())
}

/// Returns each pair of a rule, C1 to C11, and a record that breaks it, ordered by rule and then by record
/// (docs/FORMATS.md, "All faults").
pub fn check_faults(alloc: Global, records: &RawTables) -> Result<Vec<CheckFault>, AllocError>
    ensures { IfOk result (λ faults. faults.items ≡ check_faults records.now) }
{
    all_faults(alloc, records.records())
}

/// Returns the tables of the records of a file. Fails with the lowest-numbered broken rule, C1 to C11, and the first
/// record that breaks it (docs/FORMATS.md, "Faults").
#[tactic(auto, using(crate::proofs::RuleLaws::rules_kept), unfolding(crate::specs::CheckFaults::checked))]
pub fn check(alloc: Global, raw: RawTables) -> Result<Tables, CheckFault>
    ensures { Gives is_memory result (checked raw) }
{
    if let Some(fault) = check_fault(alloc, raw.records())? {
        return Err(fault);
    }
    let tables = Tables::new(alloc, raw)?;
    Ok(tables)
}
