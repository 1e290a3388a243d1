//! The option value of a commodity (docs/METHOD.md, Option value).
ghost use Rattle.std.specs.Prelude.{◌≡◌, ◌<◌, ◌≤◌, ◌*ℤ◌, IfSome, length, nat_abs, pos, slice_get};
ghost use Rattle.span_tables.specs.near.Terms.{IsTerms};
ghost use Rattle.span_tables.specs.declared.limits.TheConstants.{MAX_NET};
ghost use Rattle.inter_credit.specs.OptionValue.{net_value_of, position_value};
ghost use Rattle.inter_credit.specs.declared.option_value.TheConstants.{MAX_NET_VALUE, MAX_POSITION_VALUE};

use span_money::amounts::Money;
use span_tables::contracts::Terms;
use span_tables::held::Held;
use span_tables::limits::{MAX_HELD, MAX_NET, MAX_OPTION_VALUE};

/// The maximum size of the value of a held contract, in minor units: the maximum net quantity times the maximum option
/// value.
pub const MAX_POSITION_VALUE: u64 = MAX_NET * MAX_OPTION_VALUE as u64;
/// The maximum size of the option value of a commodity, in minor units: `MAX_POSITION_VALUE` for each of the maximum
/// number of held contracts.
pub const MAX_NET_VALUE: u64 = MAX_HELD as u64 * MAX_POSITION_VALUE;

// Returns the value of a net quantity of a contract, in minor units.
#[tactic(auto, using(crate::proofs::ValueLemmas::position_small))]
fn worth(terms: &Terms, net: i64) -> i64
    requires net { nat_abs net ≤ MAX_NET }
    requires terms { IsTerms terms.now }
    ensures value { result ≡ net *ℤ pos (terms.now).option_value }
    ensures bound { nat_abs result ≤ MAX_POSITION_VALUE }
{
    net * i64::from(terms.option_value)
}

/// Returns the value of the held contract at index `place`, in minor units: its net quantity times its option value.
/// The value of a short option is negative.
#[tactic(auto, using(crate::proofs::ValueLemmas::position_told))]
pub fn position_value(held: &Held<'_>, place: usize) -> Money
    requires { place < length held.now }
    ensures value { IfSome (slice_get held.now place) (λ h. result ≡ position_value h) }
    ensures bound { nat_abs result ≤ MAX_POSITION_VALUE }
{
    Money::new(i128::from(worth(held.terms(place), held.net(place))))
}

/// Returns the option value of a commodity, in minor units: net quantity times option value over the held contracts. It
/// is negative if short options are worth more than long ones.
#[tactic(auto, unfolding(crate::specs::OptionValue::net_value_of))]
pub fn net_value(held: &Held<'_>) -> Money
    ensures value { result ≡ net_value_of held.now }
    ensures bound { nat_abs result ≤ MAX_NET_VALUE }
{
    let mut sum: i64 = 0;
    for place in 0..held.len() {
        sum += worth(held.terms(place), held.net(place));
    }
    Money::new(i128::from(sum))
}
