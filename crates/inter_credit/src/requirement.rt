//! The short option minimum, and the requirement of a commodity (docs/METHOD.md, Minimum and requirement).
ghost use Rattle.std.specs.Prelude.{◌≡◌, ◌+◌, ◌*◌, ◌≤◌, ◌+ℤ◌, ◌-ℤ◌, pos, nat_abs, if◌then◌else◌};
ghost use Rattle.span_money.specs.Numbers.{negative_part};
ghost use Rattle.span_tables.specs.declared.limits.TheConstants.{MAX_HELD, MAX_NET, MAX_RATE};
ghost use Rattle.inter_credit.specs.Requirement.{is_call, is_put, minimum_of, requirement_of, short_count, short_options};
ghost use Rattle.inter_credit.specs.declared.requirement.TheConstants.{MAX_PART};

use span_money::amounts::{MAX_MONEY, Money};
use span_tables::held::Held;
use span_tables::records::{MinimumMethod, ProductKind};

/// The maximum size of each part of a requirement, in minor units. An amount of money has room for ten parts.
pub const MAX_PART: u128 = MAX_MONEY / 10;

// Returns the short part of a net quantity, in contracts.
fn short_part(net: i64) -> u64
    ensures value { result ≡ negative_part net }
    ensures bound { result ≤ nat_abs net }
{
    net.min(0).unsigned_abs()
}

// Returns whether a contract is a call.
fn is_call(kind: ProductKind) -> bool
    ensures { result ≡ is_call kind }
{
    match kind {
        ProductKind::Call => true,
        ProductKind::Future | ProductKind::Put => false,
    }
}

// Returns whether a contract is a put.
fn is_put(kind: ProductKind) -> bool
    ensures { result ≡ is_put kind }
{
    match kind {
        ProductKind::Put => true,
        ProductKind::Future | ProductKind::Call => false,
    }
}

// Returns the number of short contracts if they count, or 0.
#[inline(always)]
fn short_if(counts: bool, short: u64) -> u64
    ensures { result ≡ (if counts then short else 0) }
{
    u64::from(counts) * short
}

/// The number of short calls and the number of short puts, in contracts.
#[derive(Clone, Copy, Debug, PartialEq, Eq)]
pub struct ShortCounts {
    pub calls: u64,
    pub puts: u64,
}

/// Returns the number of short calls and the number of short puts among the held contracts of a commodity, in
/// contracts.
pub fn short_counts(held: &Held<'_>) -> ShortCounts
    ensures calls { result.calls ≡ short_count is_call held.now }
    ensures puts { result.puts ≡ short_count is_put held.now }
    ensures bound { result.calls + result.puts ≤ MAX_HELD * MAX_NET }
{
    let mut calls = 0;
    let mut puts = 0;
    for place in 0..held.len() {
        let short = short_part(held.net(place));
        let kind = held.terms(place).kind;
        calls += short_if(is_call(kind), short);
        puts += short_if(is_put(kind), short);
    }
    ShortCounts { calls, puts }
}

// Returns the count of short option contracts.
fn short_options(held: &Held<'_>, method: MinimumMethod) -> u64
    ensures value { result ≡ short_options method held.now }
    ensures bound { result ≤ MAX_HELD * MAX_NET }
{
    let short = short_counts(held);
    match method {
        MinimumMethod::Sum => short.calls + short.puts,
        MinimumMethod::Max => short.calls.max(short.puts),
    }
}

/// Returns the short option minimum, in minor units: the rate (in minor units a contract) times the count of short
/// option contracts.
#[tactic(auto, unfolding(crate::specs::Requirement::minimum_of))]
pub fn minimum(held: &Held<'_>, rate: u32, method: MinimumMethod) -> Money
    requires { rate ≤ MAX_RATE }
    ensures value { result ≡ pos (minimum_of rate method held.now) }
    ensures bound { nat_abs result ≤ MAX_RATE * (MAX_HELD * MAX_NET) }
{
    let count = short_options(held, method);
    Money::new((u64::from(rate) * count) as i128)
}

// Returns scan risk and charges less the credit, in minor units.
fn risk_less_credit(scan: Money, intra: Money, delivery: Money, credit: Money) -> i128
    requires scan { nat_abs scan ≤ MAX_PART }
    requires intra { nat_abs intra ≤ MAX_PART }
    requires delivery { nat_abs delivery ≤ MAX_PART }
    requires credit { nat_abs credit ≤ MAX_PART }
    ensures value { result ≡ ((scan +ℤ intra) +ℤ delivery) -ℤ credit }
    ensures bound { nat_abs result ≤ nat_abs scan + nat_abs intra + nat_abs delivery + nat_abs credit }
{
    scan.get() + intra.get() + delivery.get() - credit.get()
}

/// Returns the requirement of a commodity, in minor units: the larger of scan risk and charges less the credit, and the
/// minimum.
#[tactic(auto, unfolding(crate::specs::Requirement::requirement_of))]
pub fn requirement(
    scan: Money,
    intra: Money,
    delivery: Money,
    credit: Money,
    minimum: Money,
) -> Money
    requires scan { nat_abs scan ≤ MAX_PART }
    requires intra { nat_abs intra ≤ MAX_PART }
    requires delivery { nat_abs delivery ≤ MAX_PART }
    requires credit { nat_abs credit ≤ MAX_PART }
    requires minimum { nat_abs minimum ≤ MAX_PART }
    ensures value { result ≡ requirement_of scan intra delivery credit minimum }
    ensures bound { nat_abs result ≤ nat_abs scan + nat_abs intra + nat_abs delivery + nat_abs credit + nat_abs minimum }
{
    let risk = risk_less_credit(scan, intra, delivery, credit);
    Money::new(risk.max(minimum.get()))
}
