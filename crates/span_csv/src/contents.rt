//! The value of a record: it is read field by field, and is none if a field fails a test of its form.
ghost use Rattle.std.specs.Prelude.{◌≡◌, ◌≤◌, ◌+◌, ◌<◌, ◌^◌, drop, length, map, option_map, take};
ghost use Rattle.std.specs.List.{list_all};
ghost use Rattle.span_tables.specs.declared.limits.TheConstants.{SCENARIOS};
ghost use Rattle.span_tables.specs.declared.records.Record.TheVariants as record_of;
ghost use Rattle.span_tables.specs.Tables.{most_option_value};
ghost use Rattle.span_csv.specs.near.Grammar.{HasLegs, HasSize, IsRead, are_right, array_values, has_right_legs, is_right};
ghost use Rattle.span_csv.specs.near.Grammar.{is_right_contract, is_right_record, leg_at};
ghost use Rattle.span_csv.specs.Records.{all_have, an_array_value, array_place, commodity_forms, commodity_record, contract_back};
ghost use Rattle.span_csv.specs.Records.{contract_record, extras_in, inter_front, inter_leg, inter_leg_forms, inter_record};
ghost use Rattle.span_csv.specs.Records.{intra_front, intra_leg, intra_leg_forms, intra_record, legs_of, product_at, record_of_kind};
ghost use Rattle.span_csv.specs.Records.{set_forms, set_record, spot_forms, spot_record, tier_forms, tier_record};
ghost use Rattle.span_csv.specs.declared.rows.TheConstants.{EXTRAS};

use crate::fields::{
    array_value_in, count_in, currency_in, delta_in, method_in, month_in, name_in, product_in,
    profile_in, ratio_in, scale_in, side_in,
};
use crate::grammar::Kind;
use crate::row::Row;
use crate::rows::{EXTRAS, FIRST_VALUE};
use arrayvec::ArrayVec;
use span_tables::limits::{
    MAX_BASIS_POINTS, MAX_OPTION_VALUE, MAX_PRIORITY, MAX_RATE, MAX_TIER_NUMBER, SCENARIOS,
};
use span_tables::profiles::facts_of;
use span_tables::records::{
    Commodity, Contract, ContractExtras, InterLeg, InterRecord, IntraLeg, IntraRecord, ProductKind,
    Record, SetRecord, Spot, Tier,
};

fn set_record(row: &Row) -> Option<Record>
    ensures { IsRead (are_right set_forms row.now 1) (record_of.Set (set_record row.now)) result }
{
    Some(Record::Set(SetRecord {
        id: name_in(row, 1)?,
        profile: profile_in(row, 2)?,
        currency: currency_in(row, 3)?,
    }))
}

fn commodity_record(row: &Row) -> Option<Record>
    ensures { IsRead (are_right commodity_forms row.now 1) (record_of.Commodity (commodity_record row.now)) result }
{
    Some(Record::Commodity(Commodity {
        id: name_in(row, 1)?,
        minimum_rate: count_in(row, 2, 0, MAX_RATE)?,
        method: method_in(row, 3)?,
    }))
}

// Returns the risk array of a CONTRACT.
fn array_values(row: &Row) -> Option<[i32; SCENARIOS]>
    requires { EXTRAS ≤ length row.now }
    ensures { IsRead (list_all (is_right an_array_value) (take SCENARIOS (drop array_place row.now))) (array_values row.now) result }
{
    let mut values = [0; SCENARIOS];
    for i in 0..SCENARIOS {
        values[i] = array_value_in(row, FIRST_VALUE + i)?;
    }
    Some(values)
}

// Returns the maximum option value of a kind of contract.
fn most_option_value(product: ProductKind) -> u32
    ensures { result ≡ most_option_value product }
{
    match product {
        ProductKind::Future => 0,
        ProductKind::Call | ProductKind::Put => MAX_OPTION_VALUE,
    }
}

// Returns the values that a profile adds to a contract of a kind, which are the last fields of its record.
fn extras(profile: u8, product: ProductKind, row: &Row) -> Option<ContractExtras>
    requires { length row.now ≡ EXTRAS + length (contract_back profile product) }
    ensures { IsRead (are_right (contract_back profile product) row.now EXTRAS) (extras_in row.now) result }
{
    if !facts_of(profile).options_have_value {
        return Some(ContractExtras::none());
    }
    let option_value = count_in(row, EXTRAS, 0, most_option_value(product))?;
    Some(ContractExtras { option_value })
}

fn contract_record(profile: u8, row: &Row) -> Option<Record>
    requires { length row.now ≡ EXTRAS + length (contract_back profile (product_at row.now 3)) }
    ensures { IsRead (is_right_contract profile row.now) (record_of.Contract (contract_record row.now)) result }
{
    let kind = product_in(row, 3)?;
    Some(Record::Contract(Contract {
        id: name_in(row, 1)?,
        commodity: name_in(row, 2)?,
        kind,
        month: month_in(row, 4)?,
        delta: delta_in(row, 5)?,
        scale: scale_in(row, 6)?,
        values: array_values(row)?,
        extras: extras(profile, kind, row)?,
    }))
}

fn tier_record(row: &Row) -> Option<Record>
    ensures { IsRead (are_right tier_forms row.now 1) (record_of.Tier (tier_record row.now)) result }
{
    Some(Record::Tier(Tier {
        commodity: name_in(row, 1)?,
        number: count_in(row, 2, 1, MAX_TIER_NUMBER)?,
        first: month_in(row, 3)?,
        last: month_in(row, 4)?,
    }))
}

// Returns the leg whose fields begin at an index.
fn intra_leg(row: &Row, at: usize) -> Option<IntraLeg>
    requires { at + 2 < 2 ^ 64 }
    ensures { IsRead (all_have is_right intra_leg_forms (leg_at row.now at)) (intra_leg (leg_at row.now at)) result }
{
    Some(IntraLeg {
        tier: count_in(row, at, 1, MAX_TIER_NUMBER)?,
        side: side_in(row, at + 1)?,
        ratio: ratio_in(row, at + 2)?,
    })
}

fn intra_legs(row: &Row) -> Option<ArrayVec<IntraLeg, 4>>
    requires { HasLegs 4 row.now }
    ensures { IsRead (list_all (all_have is_right intra_leg_forms) (legs_of (drop 4 row.now)))
        (map intra_leg (legs_of (drop 4 row.now))) (option_map (λ legs. legs.items) result) }
{
    let mut legs = ArrayVec::new();
    for i in 0..(row.len() - 4) / 3 {
        legs.push(intra_leg(row, 4 + 3 * i)?);
    }
    Some(legs)
}

fn intra_record(row: &Row) -> Option<Record>
    requires { HasLegs 4 row.now }
    ensures { IsRead (has_right_legs intra_front intra_leg_forms row.now) (record_of.Intra (intra_record row.now)) result }
{
    Some(Record::Intra(IntraRecord {
        commodity: name_in(row, 1)?,
        priority: count_in(row, 2, 1, MAX_PRIORITY)?,
        rate: count_in(row, 3, 0, MAX_RATE)?,
        legs: intra_legs(row)?,
    }))
}

fn spot_record(row: &Row) -> Option<Record>
    ensures { IsRead (are_right spot_forms row.now 1) (record_of.Spot (spot_record row.now)) result }
{
    Some(Record::Spot(Spot {
        commodity: name_in(row, 1)?,
        month: month_in(row, 2)?,
        spread_rate: count_in(row, 3, 0, MAX_RATE)?,
        outright_rate: count_in(row, 4, 0, MAX_RATE)?,
    }))
}

// Returns the leg whose fields begin at an index.
fn inter_leg(row: &Row, at: usize) -> Option<InterLeg>
    requires { at + 2 < 2 ^ 64 }
    ensures { IsRead (all_have is_right inter_leg_forms (leg_at row.now at)) (inter_leg (leg_at row.now at)) result }
{
    Some(InterLeg {
        commodity: name_in(row, at)?,
        side: side_in(row, at + 1)?,
        ratio: ratio_in(row, at + 2)?,
    })
}

fn inter_legs(row: &Row) -> Option<ArrayVec<InterLeg, 4>>
    requires { HasLegs 3 row.now }
    ensures { IsRead (list_all (all_have is_right inter_leg_forms) (legs_of (drop 3 row.now)))
        (map inter_leg (legs_of (drop 3 row.now))) (option_map (λ legs. legs.items) result) }
{
    let mut legs = ArrayVec::new();
    for i in 0..(row.len() - 3) / 3 {
        legs.push(inter_leg(row, 3 + 3 * i)?);
    }
    Some(legs)
}

fn inter_record(row: &Row) -> Option<Record>
    requires { HasLegs 3 row.now }
    ensures { IsRead (has_right_legs inter_front inter_leg_forms row.now) (record_of.Inter (inter_record row.now)) result }
{
    Some(Record::Inter(InterRecord {
        priority: count_in(row, 1, 1, MAX_PRIORITY)?,
        basis_points: count_in(row, 2, 0, MAX_BASIS_POINTS)?,
        legs: inter_legs(row)?,
    }))
}

/// Returns the value of a record of a kind under a profile, if each field passes all tests of its form.
pub(crate) fn record_of_kind(kind: Kind, profile: u8, row: &Row) -> Option<Record>
    requires { HasSize kind profile row.now }
    ensures { IsRead (is_right_record kind profile row.now) (record_of_kind kind row.now) result }
{
    match kind {
        Kind::Set => set_record(row),
        Kind::Commodity => commodity_record(row),
        Kind::Contract => contract_record(profile, row),
        Kind::Tier => tier_record(row),
        Kind::Intra => intra_record(row),
        Kind::Spot => spot_record(row),
        Kind::Inter => inter_record(row),
    }
}
