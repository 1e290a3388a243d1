//! The scan of sixteen scenario sums (docs/METHOD.md, Scan).
ghost use Rattle.std.specs.Prelude.{◌≡◌, ◌≢◌, ℕ, ◌*◌, ◌<◌, ◌≤◌, ◌≤ℤ◌, ◌+ℤ◌, ◌-ℤ◌, pos, All, Contains, nat_abs, slice_index_or};
ghost use Rattle.span_money.specs.Numbers.{positive_part};
ghost use Rattle.scan_risk.specs.Scenarios.{active_scenario, at_scenario, paired_scenario, price2, scan_of};
ghost use Rattle.span_tables.specs.declared.limits.TheConstants.{MAX_PRICE2, MAX_SUM, SCENARIOS};

use crate::Scan;
use span_money::amounts::Money;
use span_tables::limits::SCENARIOS;
use std::simd::i64x16;

// The last scenario that is paired with another one: 15 and 16 have no volatility move.
const LAST_OF_PAIRS: u8 = 14;

// Returns the largest of the sums, in minor units.
fn largest(sums: &[i64; SCENARIOS]) -> i64
    requires { All (λ s. nat_abs s ≤ MAX_SUM) sums.now }
    ensures above { All (λ s. s ≤ℤ result) sums.now }
    ensures found { Contains sums.now result }
    ensures bound { nat_abs result ≤ MAX_SUM }
{
    let mut largest = sums[0];
    for sum in sums {
        largest = largest.max(*sum);
    }
    largest
}

// Returns the first index of a sum that is among the sums. All lanes are compared at once.
fn first_index(sums: &[i64; SCENARIOS], sum: i64) -> u8
    requires sizes { All (λ s. nat_abs s ≤ MAX_SUM) sums.now }
    requires found { Contains sums.now sum }
    ensures here { slice_index_or sums.now result (pos 0) ≡ sum }
    ensures before { (k : ℕ) → k < result → slice_index_or sums.now k (pos 0) ≢ sum }
    ensures within { result < SCENARIOS }
{
    let equal = i64x16::from_array(*sums).simd_eq(i64x16::splat(sum));
    equal.to_bitmask().trailing_zeros() as u8
}

// Returns the lowest-numbered scenario that has the largest sum.
fn active(sums: &[i64; SCENARIOS], largest: i64) -> u8
    requires sizes { All (λ s. nat_abs s ≤ MAX_SUM) sums.now }
    requires above { All (λ s. s ≤ℤ largest) sums.now }
    requires found { Contains sums.now largest }
    ensures value { result ≡ active_scenario sums.now }
    ensures low { 1 ≤ result }
    ensures high { result ≤ SCENARIOS }
{
    first_index(sums, largest) + 1
}

// Returns the scenario with the opposite volatility move: 1 with 2, up to 13 with 14; 15 and 16 with themselves.
fn paired(active: u8) -> u8
    requires low { 1 ≤ active }
    requires high { active ≤ SCENARIOS }
    ensures value { result ≡ paired_scenario active }
    ensures low { 1 ≤ result }
    ensures high { result ≤ SCENARIOS }
{
    if active > LAST_OF_PAIRS {
        active
    } else if active % 2 == 1 {
        active + 1
    } else {
        active - 1
    }
}

// Returns the sum of a scenario, numbered from 1.
fn sum_at(sums: &[i64; SCENARIOS], scenario: u8) -> i64
    requires low { 1 ≤ scenario }
    requires high { scenario ≤ SCENARIOS }
    requires sizes { All (λ s. nat_abs s ≤ MAX_SUM) sums.now }
    ensures value { result ≡ at_scenario sums.now scenario }
    ensures bound { nat_abs result ≤ MAX_SUM }
{
    sums[usize::from(scenario) - 1]
}

// Returns the sum of two scenarios together.
fn pair_sum(sums: &[i64; SCENARIOS], one: u8, other: u8) -> i64
    requires one_low { 1 ≤ one }
    requires one_high { one ≤ SCENARIOS }
    requires other_low { 1 ≤ other }
    requires other_high { other ≤ SCENARIOS }
    requires sizes { All (λ s. nat_abs s ≤ MAX_SUM) sums.now }
    ensures value { result ≡ at_scenario sums.now one +ℤ at_scenario sums.now other }
    ensures bound { nat_abs result ≤ 2 * MAX_SUM }
{
    sum_at(sums, one) + sum_at(sums, other)
}

// Returns `over` less `under`, or 0 if that is negative.
fn excess(over: i64, under: i64) -> u64
    requires over { nat_abs over ≤ 2 * MAX_SUM }
    requires under { nat_abs under ≤ 2 * MAX_SUM }
    ensures value { result ≡ positive_part (over -ℤ under) }
    ensures bound { result ≤ MAX_PRICE2 }
{
    if over > under {
        (over - under) as u64
    } else {
        0
    }
}

// Returns twice the price risk, in minor units: the active and the paired sum less sums 1 and 2, or 0 if that is
// negative.
fn price_risk_doubled(sums: &[i64; SCENARIOS], active: u8, paired: u8) -> u64
    requires active_low { 1 ≤ active }
    requires active_high { active ≤ SCENARIOS }
    requires paired_low { 1 ≤ paired }
    requires paired_high { paired ≤ SCENARIOS }
    requires sizes { All (λ s. nat_abs s ≤ MAX_SUM) sums.now }
    requires is_active { active ≡ active_scenario sums.now }
    requires is_paired { paired ≡ paired_scenario active }
    ensures value { result ≡ price2 sums.now }
    ensures bound { result ≤ MAX_PRICE2 }
{
    excess(pair_sum(sums, active, paired), pair_sum(sums, 1, 2))
}

/// Returns the scan of sixteen scenario sums, in minor units: the largest sum, the scenario that it comes from with its
/// pair, and twice the price risk. The size of each sum is at most `MAX_SUM`.
#[tactic(auto, unfolding(crate::specs::Scenarios::scan_of))]
pub fn scan(sums: &[i64; SCENARIOS]) -> Scan
    requires { All (λ s. nat_abs s ≤ MAX_SUM) sums.now }
    ensures value { result ≡ scan_of sums.now }
    ensures risk_above { pos 0 ≤ℤ result.risk }
    ensures risk_bound { nat_abs result.risk ≤ MAX_SUM }
    ensures active_low { 1 ≤ result.active }
    ensures active_high { result.active ≤ SCENARIOS }
    ensures paired_low { 1 ≤ result.paired }
    ensures paired_high { result.paired ≤ SCENARIOS }
    ensures price2_bound { result.price2 ≤ MAX_PRICE2 }
{
    let largest = largest(sums);
    let risk = Money::new(i128::from(largest.max(0)));
    let active = active(sums, largest);
    let paired = paired(active);
    let price2 = price_risk_doubled(sums, active, paired);
    Scan {
        risk,
        active,
        paired,
        price2,
    }
}
