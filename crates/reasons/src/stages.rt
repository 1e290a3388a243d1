//! The reasons for the figures of a commodity: the state that an account's commodities share, and the lines of one
//! commodity.
ghost use Rattle.std.specs.Prelude.{◌≡◌, ◌++◌, ◌<◌, IfOk, List, OnOk, length, true};
ghost use Rattle.span_tables.specs.Holdings.{fits};
ghost use Rattle.span_tables.specs.declared.portfolios.Holding.{Holding};
ghost use Rattle.plan_ir.specs.Figures.{held_at, loaded_states};
ghost use Rattle.reasons.specs.Reasons.{month_reasons, reasons_of};
ghost use Rattle.reasons.specs.near.Stages.{all_held, stages_of};
ghost use Rattle.reasons.specs.near.Fields.{reasons_text};

use crate::commodities::{form_inters, push_credit, push_inters};
use crate::held::{push_held, push_scan, push_short};
use crate::months::{form_intras, push_intras, push_months, push_spots};
use inter_credit::state::{InterState, empty};
use scan_risk::scanning::scan;
use scan_risk::scenarios::sums;
use span_money::line_fields::Field;
use span_tables::held::{Held, OwnedHeld, gather_all};
use span_tables::portfolios::Portfolio;
use span_tables::sides::SpreadsFormed;
use span_tables::tables::Tables;
use spread_stage::deltas::month_deltas;
use spread_stage::tiers::start;
use std::alloc::{AllocError, Global};
use std::marker::Model;

/// What an account holds of each commodity, by commodity number, and the state that its commodities share. The state is
/// their net deltas, residual deltas and weights after all intercommodity spreads, and how many of each spread formed.
#[derive(Drop)]
pub struct Stages {
    held: Vec<OwnedHeld>,
    state: InterState,
    formed: Vec<SpreadsFormed>,
}

impl Model for Stages {
    ghost use Rattle.reasons.specs.near.Stages.{StagesView};

    ghost Value = { StagesView };

    ghost view = { λ s. record { held = s.held.items; states = s.state; formed = s.formed.items } };
}

// Returns the states of the commodities before any spread between them.
fn loaded_states(
    alloc: Global,
    tables: &Tables,
    portfolio: &Portfolio,
    held: &[OwnedHeld],
) -> Result<InterState, AllocError>
    requires fits { fits (length tables.now.contracts) portfolio.now.holdings ≡ true }
    requires held { held.now ≡ all_held tables.now portfolio.now.holdings }
    ensures value { IfOk result (λ states. states ≡ loaded_states tables.now portfolio.now.holdings) }
    ensures long { IfOk result (λ states. length states ≡ length tables.now.commodities) }
{
    let count = tables.commodities().len();
    portfolio.known();
    let mut state = empty(alloc, count)?;
    for commodity in 0..count {
        let of_commodity = held[commodity].as_held();
        let months = month_deltas(alloc, &of_commodity)?;
        let scan = scan(&sums(&of_commodity));
        state.load(commodity, months.net(), scan.price2);
    }
    Ok(state)
}

/// Computes the stages of an account that its commodities share.
pub fn stages_of(
    alloc: Global,
    tables: &Tables,
    portfolio: &Portfolio,
) -> Result<Stages, AllocError>
    requires { fits (length tables.now.contracts) portfolio.now.holdings ≡ true }
    ensures { IfOk result (λ stages. stages ≡ stages_of tables.now portfolio.now.holdings) }
{
    let held = gather_all(alloc, tables, portfolio)?;
    let mut state = loaded_states(alloc, tables, portfolio, &held)?;
    let formed = form_inters(alloc, &mut state, tables.inters())?;
    Ok(Stages {
        held,
        state,
        formed,
    })
}

// Appends the lines of a commodity's months, of the spreads between them, and of its spot months.
fn push_month_reasons(
    alloc: Global,
    out: &mut Vec<u8>,
    ids: &[Field<'_>],
    tables: &Tables,
    commodity: usize,
    held: &Held<'_>,
) -> Result<(), AllocError>
    requires { commodity < length tables.now.commodities }
    ensures { (holdings : List Holding) → held.now ≡ held_at tables.now holdings commodity → OnOk result
        (out.new.items ≡ out.old.items ++ reasons_text ids.now (month_reasons tables.now holdings commodity)) }
{
    let months = month_deltas(alloc, held)?;
    let mut tiers = start(alloc, &months)?;
    let intras = form_intras(alloc, &mut tiers, tables.intras(commodity))?;
    push_months(out, ids, &months, &tiers)?;
    push_intras(out, ids, &intras)?;
    push_spots(out, ids, &months, &tiers, tables.spots(commodity))?;
    Ok(())
}

/// Appends the lines that explain the figures of the commodity of a number, with these ids after each word. They are
/// the lines of its held contracts, scan, months, spreads and spot months, credit and short options.
pub fn push_reasons(
    alloc: Global,
    out: &mut Vec<u8>,
    ids: &[Field<'_>],
    tables: &Tables,
    stages: &Stages,
    commodity: usize,
) -> Result<(), AllocError>
    requires commodity { commodity < length tables.now.commodities }
    requires held { commodity < length stages.now.held }
    requires states { commodity < length stages.now.states }
    ensures { (holdings : List Holding) → stages.now ≡ stages_of tables.now holdings → OnOk result
        (out.new.items ≡ out.old.items ++ reasons_text ids.now (reasons_of tables.now holdings commodity)) }
{
    let held = stages.held[commodity].as_held();
    push_held(out, ids, tables, &held)?;
    push_scan(out, ids, &held)?;
    push_month_reasons(alloc, out, ids, tables, commodity, &held)?;
    push_inters(out, ids, commodity, tables.inters(), &stages.formed)?;
    push_credit(out, ids, &stages.state.states()[commodity])?;
    push_short(out, ids, &tables.commodities()[commodity], &held)?;
    Ok(())
}
