//! The sums of the sixteen scenarios over the held contracts of a commodity (docs/METHOD.md, Scan).
ghost use Rattle.std.specs.Prelude.{◌≡◌, ◌+◌, ◌≤◌, ◌+ℤ◌, ◌*ℤ◌, map, replicate, All, nat_abs};
ghost use Rattle.std.specs.Simd.Lanes.{zip2};
ghost use Rattle.span_tables.specs.declared.limits.TheConstants.{MAX_NET, MAX_SUM, MAX_TERM, SCENARIOS};
ghost use Rattle.span_tables.specs.near.Terms.{IsTerms};
ghost use Rattle.scan_risk.specs.Scenarios.{scenario_sums};

use span_tables::contracts::Terms;
use span_tables::held::Held;
use span_tables::limits::SCENARIOS;
use std::simd::{i32x16, i64x16};

// Returns a net quantity in each lane. The cast shows that it fits in 32 bits. The processor multiplies two lanes of
// such numbers with one multiplication, and lanes of 64-bit numbers with three.
fn net_lanes(net: i64) -> i64x16
    requires { nat_abs net ≤ MAX_NET }
    ensures { result ≡ replicate SCENARIOS net }
{
    i64x16::splat(i64::from(net as i32))
}

// Returns the array values of a contract's terms, one in each lane. Like a net quantity, they are known to fit in 32 bits.
fn value_lanes(of: &Terms) -> i64x16
    requires { IsTerms of.now }
    ensures { result ≡ (of.now).values }
{
    i32x16::from_array(of.values).cast::<i64>()
}

// Returns the term that a net quantity of a contract adds to the sum of each scenario, in minor units.
fn terms(of: &Terms, net: i64) -> i64x16
    requires net { nat_abs net ≤ MAX_NET }
    requires of { IsTerms of.now }
    ensures value { result ≡ map (λ v. net *ℤ v) (of.now).values }
    ensures bound { All (λ t. nat_abs t ≤ MAX_TERM) result }
{
    net_lanes(net).strict_mul(value_lanes(of))
}

// Returns the sum of each scenario with a contract's term added.
fn with_terms(sums: i64x16, terms: i64x16) -> i64x16
    requires room { All (λ s. nat_abs s + MAX_TERM ≤ MAX_SUM) sums }
    requires terms { All (λ t. nat_abs t ≤ MAX_TERM) terms }
    ensures { result ≡ zip2 (λ s t. s +ℤ t) sums terms }
{
    sums.strict_add(terms)
}

/// Returns the sum of each scenario in its own lane, with scenario 1 in the first lane. It is net quantity times array
/// value over the held contracts, in minor units, and a loss is positive. The size of a sum is at most `MAX_SUM`, so no
/// lane wraps.
pub fn lane_sums(held: &Held<'_>) -> i64x16
    ensures value { result ≡ scenario_sums held.now }
    ensures bound { All (λ s. nat_abs s ≤ MAX_SUM) result }
{
    let mut sums = i64x16::splat(0);
    for place in 0..held.len() {
        let of = held.terms(place);
        sums = with_terms(sums, terms(of, held.net(place)));
    }
    sums
}

/// Returns the sum of each scenario, from 1 to 16. It is net quantity times array value over the held contracts, in
/// minor units, and a loss is positive.
pub fn sums(held: &Held<'_>) -> [i64; SCENARIOS]
    ensures value { result ≡ scenario_sums held.now }
    ensures bound { All (λ s. nat_abs s ≤ MAX_SUM) result }
{
    lane_sums(held).to_array()
}
