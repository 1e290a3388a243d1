//! Whether a spread between two commodities forms, asked before the spread is evaluated. No clause says that the answer
//! is ever `false`.
ghost use Rattle.std.specs.Prelude.{◌≡◌, ◌≤◌, IfOk, length, nat_abs};
ghost use Rattle.span_tables.specs.declared.limits.TheConstants.{MAX_PRICE2, MAX_UNITS};

use inter_credit::state::{InterState, empty, load};
use param_check::check::check_fault;
use sample_files::two_commodities::PARAMS;
use span_csv::params::read_params;
use span_money::amounts::Units;
use span_tables::tables::Tables;
use std::alloc::{AllocError, Global};
use std::process::Abort;
use std::test::Fail;

/// Returns the tables of two commodities with one spread between them, one against one.
#[tactic(auto, using(param_check::proofs::RuleLaws::rules_kept))]
pub(crate) fn two_commodities(rt: &impl Abort, alloc: Global) -> Result<Tables, Fail>
    ensures { IfOk result (λ tables. length tables.commodities ≡ 2) }
{
    let raw = read_params(alloc, PARAMS)?;
    if check_fault(alloc, raw.records())?.is_some() {
        return Err(Fail::from("refused"));
    }
    let tables = Tables::new(alloc, raw)?;
    assert_eq!(rt; tables.commodities().len(), 2);
    Ok(tables)
}

/// Returns a state of two commodities, each with its net delta in 10^-8 and twice its price risk in minor units.
pub(crate) fn loaded(
    alloc: Global,
    first: (i64, u64),
    second: (i64, u64),
) -> Result<InterState, AllocError>
    requires first_units { nat_abs first.0 ≤ MAX_UNITS }
    requires second_units { nat_abs second.0 ≤ MAX_UNITS }
    requires first_price { first.1 ≤ MAX_PRICE2 }
    requires second_price { second.1 ≤ MAX_PRICE2 }
    ensures { IfOk result (λ state. length state ≡ 2) }
{
    let state = empty(alloc, 2)?;
    let state = load(alloc, &state, 0, Units::new(first.0), first.1)?;
    load(alloc, &state, 1, Units::new(second.0), second.1)
}

// A spread forms if the remaining delta of each commodity is large enough, on the side of the market that one of the
// directions needs.
#[test]
fn spreads_that_may_be_formed(rt: HostRuntime) -> Result<(), Fail> {
    let alloc = rt.alloc();
    let tables = two_commodities(&rt, alloc)?;
    let spread = tables.inters().first().ok_or("a spread")?;
    for (first, second) in [
        (10_000, 10_000),
        (-10_000, -10_000),
        (10_000, 0),
        (9_999, -10_000),
    ] {
        let state = loaded(alloc, (first, 2400), (second, 3600))?;
        assert!(rt; !state.may_spread(spread), "{first} {second}");
    }
    for (first, second) in [(10_000, -10_000), (-10_000, 10_000)] {
        let state = loaded(alloc, (first, 2400), (second, 3600))?;
        assert!(rt; state.may_spread(spread), "{first} {second}");
    }
    Ok(())
}
