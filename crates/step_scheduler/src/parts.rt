//! The figures of all commodities of a job, its total and its option value, computed without storing the value of each
//! step.
ghost use Rattle.std.specs.Prelude.{◌≡◌, ◌<◌, ◌≤◌, ◌+ℤ◌, IfOk, List, OnOk, length, nat_abs};
ghost use Rattle.std.specs.Prelude.{slice_set, true};
ghost use Rattle.span_money.specs.declared.amounts.TheConstants.{MAX_MONEY};
ghost use Rattle.span_tables.specs.Holdings.{fits};
ghost use Rattle.span_tables.specs.Tables.{commodity_id, facts_in};
ghost use Rattle.span_tables.specs.declared.portfolios.Holding.{Holding};
ghost use Rattle.span_tables.specs.near.Runs.{AreByCommodity};
ghost use Rattle.spread_stage.specs.near.SetPlans.{ArePlans, IsPlan};
ghost use Rattle.inter_credit.specs.Credits.{unspread_state};
ghost use Rattle.inter_credit.specs.OptionValue.{net_value_of};
ghost use Rattle.plan_ir.specs.Figures.{held_at, inter_states, loaded_states, option_value_of, total_to};
ghost use Rattle.step_scheduler.specs.near.Figures.{AreHeldFigures};
ghost use Rattle.step_scheduler.specs.near.Parts.{ArePartsFrom, CanBeLoaded, HasState, IsPart, figures_of_part};

use crate::held_figures::HeldFigures;
use crate::run_memory::{Part, RunMemory};
use crate::watches::{Upcoming, Watch};
use inter_credit::option_value::net_value;
use inter_credit::requirement::minimum;
use inter_credit::state::InterState;
use plan_ir::figures::Figures;
use scan_risk::scanning::scan;
use scan_risk::scenarios::sums;
use span_money::amounts::Money;
use span_tables::held::Held;
use span_tables::portfolios::{Holding, Portfolio};
use span_tables::runs::{end_of_run, rise_by_commodity, sort_by_commodity};
use span_tables::tables::Tables;
use spread_stage::tier_plans::TierPlan;
use std::alloc::{AllocError, Global};
use std::mem;

// Returns the option value of a commodity, or 0 if options have no value.
#[inline(always)]
fn worth_of(tables: &Tables, held: &Held<'_>) -> Money
    ensures { (facts_in tables.now).options_have_value ≡ true → result ≡ net_value_of held.now }
{
    if !tables.facts().options_have_value {
        return Money::new(0);
    }
    net_value(held)
}

// Returns the values of a commodity from its held contracts. Uses the months and the tiers
// in `memory`, whatever they contained before.
#[inline(always)]
fn part_of(
    tables: &Tables,
    plan: &TierPlan,
    commodity: usize,
    held: &Held<'_>,
    memory: &mut RunMemory,
) -> Result<Part, AllocError>
    requires commodity { commodity < length tables.now.commodities }
    requires plan { IsPlan tables.now (commodity_id tables.now commodity) plan.now }
    ensures commodity { IfOk result (λ part. part.commodity ≡ commodity) }
    ensures part { IfOk result (λ part. (holdings : List Holding) → held.now ≡ held_at tables.now holdings commodity
        → IsPart tables.now holdings part) }
    ensures parts { memory.new.parts.items ≡ memory.old.parts.items }
{
    tables.known();
    let RunMemory { months, tiers, .. } = memory;
    let of = &tables.commodities()[commodity];
    let sums = sums(held);
    let scan = scan(&sums);
    months.refill(held)?;
    tiers.run(months, tables.tiers_of(commodity), plan)?;
    let delivery = tiers.delivery(months, tables.spots(commodity), plan);
    let minimum = minimum(held, of.minimum_rate, of.method);
    Ok(Part {
        commodity,
        scan,
        net: months.net(),
        charge: tiers.charge(),
        delivery,
        minimum,
        worth: worth_of(tables, held),
    })
}

// Computes the part of each held commodity of a job, in ascending order of number, from its holdings by commodity.
// Replaces the parts in `memory`. Calls the watch for the steps of each commodity in front of its part.
fn parts_of_runs<W: Watch>(
    tables: &Tables,
    plans: &[TierPlan],
    portfolio: &Portfolio,
    holdings: &[Holding],
    upcoming: &mut Upcoming<'_, W>,
    memory: &mut RunMemory,
) -> Result<(), AllocError>
    requires plans { ArePlans tables.now plans.now }
    requires fits { fits (length tables.now.contracts) portfolio.now.holdings ≡ true }
    requires holdings { AreByCommodity tables.now portfolio.now.holdings holdings.now }
    ensures { OnOk result (ArePartsFrom tables.now portfolio.now.holdings 0 memory.new.parts.items) }
{
    tables.known();
    portfolio.known();
    memory.parts.clear();
    let mut done = 0;
    while done < holdings.len() {
        let commodity = tables.commodity_of(holdings[done].contract);
        upcoming.pass_groups(commodity + 1);
        let end = end_of_run(tables, holdings, done + 1, commodity);
        let held = Held::of(tables, &holdings[done..end]);
        let part = part_of(tables, &plans[commodity], commodity, &held, memory)?;
        memory.parts.push(part)?;
        done = end;
    }
    Ok(())
}

// Computes the part of each held commodity of a job, in ascending order of number. Replaces the parts in `memory`.
//
// The holdings of each commodity are read where they are in the portfolio if commodity numbers rise along it, as they
// usually do.
pub(crate) fn find_parts<W: Watch>(
    tables: &Tables,
    plans: &[TierPlan],
    portfolio: &Portfolio,
    upcoming: &mut Upcoming<'_, W>,
    memory: &mut RunMemory,
) -> Result<(), AllocError>
    requires plans { ArePlans tables.now plans.now }
    requires fits { fits (length tables.now.contracts) portfolio.now.holdings ≡ true }
    ensures { OnOk result (ArePartsFrom tables.now portfolio.now.holdings 0 memory.new.parts.items) }
{
    let holdings = portfolio.holdings();
    if rise_by_commodity(tables, holdings) {
        return parts_of_runs(tables, plans, portfolio, holdings, upcoming, memory);
    }
    let alloc = *memory.sorted.allocator();
    let mut sorted = mem::replace(&mut memory.sorted, Vec::new(alloc));
    sort_by_commodity(tables, holdings, &mut sorted)?;
    parts_of_runs(tables, plans, portfolio, &sorted, upcoming, memory)?;
    memory.sorted = sorted;
    Ok(())
}

// Loads the net delta and the price risk of a commodity.
#[inline(always)]
fn load_part(states: &mut InterState, part: &Part)
    requires { CanBeLoaded states.old part.now }
    ensures { states.new ≡ slice_set states.old part.now.commodity (unspread_state part.now.net (part.now.scan).price2) }
{
    states.load(part.commodity, part.net, part.scan.price2);
}

// Replaces the states by the commodities before any spread between them.
pub(crate) fn load_all(
    alloc: Global,
    tables: &Tables,
    portfolio: &Portfolio,
    parts: &[Part],
    states: &mut InterState,
) -> Result<(), AllocError>
    requires fits { fits (length tables.now.contracts) portfolio.now.holdings ≡ true }
    requires parts { ArePartsFrom tables.now portfolio.now.holdings 0 parts.now }
    ensures value { OnOk result (states.new ≡ loaded_states tables.now portfolio.now.holdings) }
    ensures long { OnOk result (length states.new ≡ length tables.now.commodities) }
{
    tables.known();
    portfolio.known();
    states.restart(alloc, tables.commodities().len())?;
    for part in parts {
        load_part(states, part);
    }
    Ok(())
}

// Returns the figures of a held commodity, from its part and the commodities after all spreads between them.
fn figures_with(part: &Part, states: &InterState) -> Figures
    requires { HasState states.now part.now }
    ensures { result ≡ figures_of_part part.now states.now }
{
    Figures::of_stages(
        &part.scan,
        part.charge,
        part.delivery,
        part.minimum,
        states,
        part.commodity,
    )
}

// Returns the figures of all commodities, from the parts of the held ones and the commodities after all spreads between
// them.
pub(crate) fn figures_of_all(
    alloc: Global,
    tables: &Tables,
    portfolio: &Portfolio,
    parts: &[Part],
    states: &InterState,
) -> Result<HeldFigures, AllocError>
    requires fits { fits (length tables.now.contracts) portfolio.now.holdings ≡ true }
    requires parts { ArePartsFrom tables.now portfolio.now.holdings 0 parts.now }
    requires states { states.now ≡ inter_states tables.now portfolio.now.holdings }
    ensures { IfOk result (λ held. AreHeldFigures tables.now portfolio.now.holdings held) }
{
    tables.known();
    portfolio.known();
    let mut held = HeldFigures::with_capacity(alloc, parts.len())?;
    for part in parts {
        held.push(part.commodity, figures_with(part, states))?;
    }
    Ok(held)
}

// Returns the sum of two amounts of money.
fn sum(one: Money, other: Money) -> Money
    requires { nat_abs (one +ℤ other) ≤ MAX_MONEY }
    ensures { result ≡ one +ℤ other }
{
    Money::new(one.get() + other.get())
}

// Returns the sum of the requirements of all commodities. A commodity that is not held requires nothing.
pub(crate) fn total_of(
    tables: &Tables,
    portfolio: &Portfolio,
    parts: &[Part],
    held: &HeldFigures,
) -> Money
    requires fits { fits (length tables.now.contracts) portfolio.now.holdings ≡ true }
    requires parts { ArePartsFrom tables.now portfolio.now.holdings 0 parts.now }
    requires figures { AreHeldFigures tables.now portfolio.now.holdings held.now }
    ensures { result ≡ total_to tables.now portfolio.now.holdings (length tables.now.commodities) }
{
    tables.known();
    portfolio.known();
    let mut total = Money::new(0);
    for part in parts {
        total = sum(total, held.of(part.commodity).requirement);
    }
    total
}

// Returns the option value of the account, which is 0 under a profile in which options have none.
pub(crate) fn value_of_all(tables: &Tables, portfolio: &Portfolio, parts: &[Part]) -> Money
    requires fits { fits (length tables.now.contracts) portfolio.now.holdings ≡ true }
    requires parts { ArePartsFrom tables.now portfolio.now.holdings 0 parts.now }
    ensures { result ≡ option_value_of tables.now portfolio.now.holdings }
{
    if !tables.facts().options_have_value {
        return Money::new(0);
    }
    tables.known();
    portfolio.known();
    let mut value = Money::new(0);
    for part in parts {
        value = sum(value, part.worth);
    }
    value
}
