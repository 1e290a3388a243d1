//! The value of an operation on the values of its inputs. Each operation is one part of the method (docs/METHOD.md).
//!
//! The first input is a separate argument. The value is this input itself if nothing changes, an overwritten copy of it, or a
//! new value.
ghost use Rattle.std.specs.Prelude.{◌≡◌, [], ◌∷◌, ◌<◌, ◌≤◌, ◌+ℤ◌, ℕ, List, true};
ghost use Rattle.std.specs.Prelude.{All, IfOk, IsTrue, length, map, nat_abs, pos, slice_set};
ghost use Rattle.std.specs.Arc.{arc_value};
ghost use Rattle.span_money.specs.declared.amounts.TheConstants.{MAX_MONEY};
ghost use Rattle.span_tables.specs.Accepted.{IsInter, IsIntra};
ghost use Rattle.span_tables.specs.Holdings.{fits};
ghost use Rattle.span_tables.specs.Tables.{inters_of};
ghost use Rattle.span_tables.specs.declared.portfolios.Holding.{Holding};
ghost use Rattle.spread_stage.specs.Deltas.{net_delta};
ghost use Rattle.inter_credit.specs.Credits.{unspread_state};
ghost use Rattle.inter_credit.specs.Requirement.{minimum_of};
ghost use Rattle.inter_credit.specs.States.{IsNotLoaded, IsUnspread};
ghost use Rattle.inter_credit.specs.declared.commodity_state.CommodityState.{CommodityState};
ghost use Rattle.plan_ir.specs.Apply.{Takes, TakesFinal, final_figures, inter_at, intra_at, value_on};
ghost use Rattle.plan_ir.specs.Figures.{commodity_at, intras_at};
ghost use Rattle.plan_ir.specs.near.Copying.{IsChangeable, IsInPlace};

use crate::figures::Figures;
use crate::ops::Op;
use crate::values::Value;
use inter_credit::option_value::net_value;
use inter_credit::requirement::minimum;
use inter_credit::state::empty;
use scan_risk::Scan;
use scan_risk::scanning::scan;
use scan_risk::scenarios::sums;
use span_money::amounts::Money;
use span_tables::held::{Held, gather};
use span_tables::portfolios::Portfolio;
use span_tables::records::{Inter, Intra};
use span_tables::tables::Tables;
use spread_stage::charges::delivery;
use spread_stage::deltas::month_deltas;
use spread_stage::months::Months;
use spread_stage::tiers::start;
use std::alloc::{AllocError, Global};
use std::sync::Arc;

// The spread of a commodity at an index.
fn intra_at(tables: &Tables, commodity: u32, place: u32) -> &Intra
    requires commodity { commodity < length tables.now.commodities }
    requires place { place < length (intras_at tables.now commodity) }
    ensures value { result.now ≡ intra_at tables.now commodity place }
    ensures in_range { IsIntra result.now }
{
    &tables.intras(commodity as usize)[place as usize]
}

// The intercommodity spread at an index. It is in range for any list of commodities that includes its legs.
#[tactic(auto, using(crate::proofs::LegLemmas::in_range_of))]
fn inter_at(tables: &Tables, place: u32) -> &Inter
    requires { place < length (inters_of tables.now) }
    ensures value { result.now ≡ inter_at tables.now place }
    ensures in_range { (n : ℕ) → All (λ leg. leg.commodity < n) (result.now).legs → IsInter n result.now }
{
    &tables.inters()[place as usize]
}

// The short option minimum of a commodity for its held contracts.
fn minimum_at(tables: &Tables, commodity: u32, held: &Held<'_>) -> Money
    requires { commodity < length tables.now.commodities }
    ensures { result ≡ pos (minimum_of (commodity_at tables.now commodity).minimum_rate
        (commodity_at tables.now commodity).method held.now) }
{
    let commodity = &tables.commodities()[commodity as usize];
    minimum(held, commodity.minimum_rate, commodity.method)
}

// The figures of a commodity from the values of its stages. The scan is the first one.
fn final_figures(commodity: u32, first: &Value, rest: &[Arc<Value>]) -> Figures
    requires { TakesFinal commodity (first.now ∷ map arc_value rest.now) }
    ensures { result ≡ final_figures commodity (first.now ∷ map arc_value rest.now) }
{
    Figures::of_stages(
        first.scan(),
        rest[0].tiers().charge(),
        rest[1].amount(),
        rest[2].amount(),
        rest[3].inter(),
        commodity as usize,
    )
}

// The sum of two amounts of money.
fn sum(one: Money, other: Money) -> Money
    requires { nat_abs (one +ℤ other) ≤ MAX_MONEY }
    ensures { result ≡ one +ℤ other }
{
    Money::new(one.get() + other.get())
}

// Whether loading these months and this scan into an unloaded state changes nothing: price risk and net delta are both
// 0.
fn loads_nothing(months: &Months, scan: &Scan) -> bool
    ensures { IsTrue result → (states : List CommodityState) (c : ℕ) → IsNotLoaded states c → IsUnspread states
        → slice_set states c (unspread_state (net_delta months.now) (scan.now).price2) ≡ states }
{
    scan.price2 == 0 && months.net().get() == 0
}

/// Returns whether the operation's value is its first input. `false` means only that no cheap check shows this.
///
/// The operation must take these inputs. The first one is a separate argument.
pub fn changes_nothing(tables: &Tables, op: Op, first: &Value, rest: &[Arc<Value>]) -> bool
    requires { Takes tables.now op (first.now ∷ map arc_value rest.now) }
    ensures { IsTrue result → (holdings : List Holding)
        → value_on tables.now holdings op (first.now ∷ map arc_value rest.now) ≡ first.now }
{
    match op {
        Op::Spread(c, j) => !first.tiers().may_spread(intra_at(tables, c, j)),
        Op::InterLoad(_) => loads_nothing(rest[0].months(), rest[1].scan()),
        Op::InterSpread(j) => !first.inter().may_spread(inter_at(tables, j)),
        Op::TotalAdd(_) => rest[0].figures().requirement.get() == 0,
        Op::ValueAdd(_) => rest[0].amount().get() == 0,
        _ => false,
    }
}

// Overwrites the operation's first input with its value, which is of the same kind.
fn apply_in_place(tables: &Tables, op: Op, first: &mut Value, rest: &[Arc<Value>])
    requires in_place { IsInPlace op }
    requires inputs { Takes tables.now op (first.old ∷ map arc_value rest.now) }
    ensures { (holdings : List Holding) → first.new ≡ value_on tables.now holdings op (first.old ∷ map arc_value rest.now) }
{
    match (op, first) {
        (Op::Spread(c, j), Value::Tiers(tiers)) => tiers.spread(intra_at(tables, c, j)),
        (Op::InterLoad(c), Value::Inter(states)) => {
            states.load(c as usize, rest[0].months().net(), rest[1].scan().price2)
        }
        (Op::InterSpread(j), Value::Inter(states)) => states.spread(inter_at(tables, j)),
        (Op::TotalAdd(_), Value::Total(total)) => {
            *total = sum(*total, rest[0].figures().requirement)
        }
        (Op::ValueAdd(_), Value::Premium(premium)) => *premium = sum(*premium, rest[0].amount()),
        _ => unreachable!(),
    }
}

// A copy of a value. Its kind is one that an operation can change.
fn copied(alloc: Global, first: &Value) -> Result<Value, AllocError>
    requires { IsChangeable first.now }
    ensures { IfOk result (λ v. v ≡ first.now) }
{
    match first {
        Value::Tiers(tiers) => Ok(Value::Tiers(tiers.copied(alloc)?)),
        Value::Inter(states) => Ok(Value::Inter(states.copied(alloc)?)),
        Value::Total(total) => Ok(Value::Total(*total)),
        Value::Premium(premium) => Ok(Value::Premium(*premium)),
        _ => unreachable!(),
    }
}

// The operation's value on its inputs, with the first one as a separate argument. No operation that has an input reads
// the account's holdings.
fn apply_beside(
    alloc: Global,
    tables: &Tables,
    op: Op,
    first: &Value,
    rest: &[Arc<Value>],
) -> Result<Value, AllocError>
    requires { Takes tables.now op (first.now ∷ map arc_value rest.now) }
    ensures { IfOk result (λ v. (holdings : List Holding)
        → v ≡ value_on tables.now holdings op (first.now ∷ map arc_value rest.now)) }
{
    match op {
        Op::Gather(_) | Op::InterStart | Op::TotalStart | Op::ValueStart => unreachable!(),
        Op::Sums(_) => Ok(Value::Sums(sums(&first.held()))),
        Op::ScanMax(_) => Ok(Value::Scan(scan(first.sums()))),
        Op::Months(_) => Ok(Value::Months(month_deltas(alloc, &first.held())?)),
        Op::TierStart(_) => Ok(Value::Tiers(start(alloc, first.months())?)),
        Op::Delivery(c) => Ok(Value::Amount(delivery(
            first.months(),
            rest[0].tiers(),
            tables.spots(c as usize),
        ))),
        Op::Minimum(c) => Ok(Value::Amount(minimum_at(tables, c, &first.held()))),
        Op::Final(c) => Ok(Value::Figures(final_figures(c, first, rest))),
        Op::NetValue(_) => Ok(Value::Amount(net_value(&first.held()))),
        Op::Spread(..)
        | Op::InterLoad(_)
        | Op::InterSpread(_)
        | Op::TotalAdd(_)
        | Op::ValueAdd(_) => {
            let mut value = copied(alloc, first)?;
            apply_in_place(tables, op, &mut value, rest);
            Ok(value)
        }
    }
}

// The value of an operation that takes no inputs.
fn apply_alone(
    alloc: Global,
    tables: &Tables,
    portfolio: &Portfolio,
    op: Op,
) -> Result<Value, AllocError>
    requires fits { fits (length tables.now.contracts) portfolio.now.holdings ≡ true }
    requires inputs { Takes tables.now op [] }
    ensures { IfOk result (λ v. v ≡ value_on tables.now portfolio.now.holdings op []) }
{
    match op {
        Op::Gather(c) => Ok(Value::Held(gather(alloc, tables, portfolio, c as usize)?)),
        Op::InterStart => Ok(Value::Inter(empty(alloc, tables.commodities().len())?)),
        Op::TotalStart => Ok(Value::Total(Money::new(0))),
        Op::ValueStart => Ok(Value::Premium(Money::new(0))),
        _ => unreachable!(),
    }
}

/// Returns the value of an operation on the values of its inputs, for an account under the tables. `Err` is out of
/// memory.
///
/// The portfolio must fit the tables, and the operation's numbers must be numbers of commodities or spreads of the
/// tables. The inputs must have the number, kinds and ranges that the operation takes.
pub fn apply(
    alloc: Global,
    tables: &Tables,
    portfolio: &Portfolio,
    op: &Op,
    inputs: &[Arc<Value>],
) -> Result<Value, AllocError>
    requires fits { fits (length tables.now.contracts) portfolio.now.holdings ≡ true }
    requires inputs { Takes tables.now op.now (map arc_value inputs.now) }
    ensures { IfOk result (λ v. v ≡ value_on tables.now portfolio.now.holdings op.now (map arc_value inputs.now)) }
{
    match inputs {
        [] => apply_alone(alloc, tables, portfolio, *op),
        [first, rest @ ..] => apply_beside(alloc, tables, *op, first, rest),
    }
}
