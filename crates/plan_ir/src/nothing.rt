//! The values of a commodity without held contracts (docs/METHOD.md, "The plan of steps").
ghost use Rattle.std.specs.Prelude.{◌≡◌, ◌↔◌, [], ◌∷◌, List, IfOk, IfSome, IsTrue, pos};
ghost use Rattle.std.specs.Arc.{arc_value};
ghost use Rattle.span_tables.specs.Tables.{AcceptedTables};
ghost use Rattle.span_tables.specs.declared.portfolios.Holding.{Holding};
ghost use Rattle.plan_ir.specs.Apply.{Takes, value_on};
ghost use Rattle.plan_ir.specs.near.Nothing.{nothing_held};
ghost use Rattle.plan_ir.specs.declared.values.Value.{Value};
ghost use Rattle.plan_ir.specs.declared.values.Value.TheVariants as value;
ghost use Rattle.scan_risk.specs.Scenarios.{scan_of, scenario_sums};
ghost use Rattle.spread_stage.specs.Deltas.{month_deltas};
ghost use Rattle.spread_stage.specs.Spreads.{unspread};

use crate::ops::Op;
use crate::values::Value;
use scan_risk::scanning::scan;
use scan_risk::scenarios::sums;
use span_money::amounts::Money;
use span_tables::held::OwnedHeld;
use span_tables::limits::SCENARIOS;
use span_tables::tables::Tables;
use spread_stage::deltas::month_deltas;
use spread_stage::tiers::start;
use std::alloc::{AllocError, Global};
use std::marker::Model;
use std::sync::Arc;

/// The values of a commodity's steps before its figures when the account holds none of its contracts. They are made
/// once for a parameter set. Amounts are in minor units. Contracts see the six values.
#[derive(Drop)]
pub struct NothingHeld {
    held: Arc<Value>,
    sums: Arc<Value>,
    scan: Arc<Value>,
    months: Arc<Value>,
    tiers: Arc<Value>,
    amount: Arc<Value>,
}

impl Model for NothingHeld {
    ghost use Rattle.std.specs.Arc.{arc_value};
    ghost use Rattle.plan_ir.specs.near.Nothing.{AreNothing, EarlyValues};

    ghost Value = { EarlyValues };

    ghost view = { λ n. record {
      held = arc_value n.held;
      sums = arc_value n.sums;
      scan = arc_value n.scan;
      months = arc_value n.months;
      tiers = arc_value n.tiers;
      amount = arc_value n.amount;
    } };

    ghost invariant = { λ n. AreNothing (arc_value n.held) (arc_value n.sums) (arc_value n.scan)
        (arc_value n.months) (arc_value n.tiers) (arc_value n.amount) };
}

// Whether all scenario sums are 0, as the sums of no contracts are.
fn are_of_nothing(sums: &[i64; SCENARIOS]) -> bool
    ensures { IsTrue result ↔ (sums.now ≡ scenario_sums []) }
{
    *sums == [0; SCENARIOS]
}

impl NothingHeld {
    /// Returns the values of a commodity of these tables without held contracts. `Err` is out of memory.
    pub fn new(alloc: Global, tables: &Tables) -> Result<NothingHeld, AllocError>
        ensures { IfOk result (λ nothing. nothing ≡ nothing_held) }
    {
        let held = OwnedHeld::none(alloc, tables)?;
        let sums = sums(&held.as_held());
        let months = month_deltas(alloc, &held.as_held())?;
        let tiers = start(alloc, &months)?;
        Ok(NothingHeld {
            held: Arc::new(alloc, Value::Held(held))?,
            sums: Arc::new(alloc, Value::Sums(sums))?,
            scan: Arc::new(alloc, Value::Scan(scan(&sums)))?,
            months: Arc::new(alloc, Value::Months(months))?,
            tiers: Arc::new(alloc, Value::Tiers(tiers))?,
            amount: Arc::new(alloc, Value::Amount(Money::new(0)))?,
        })
    }

    /// Returns an empty list of held contracts.
    pub fn held(&self) -> &Arc<Value>
        ensures { arc_value result.now ≡ value.Held [] }
    {
        &self.held
    }

    /// Returns the scenario sums of no contracts, each 0.
    pub fn sums(&self) -> &Arc<Value>
        ensures { arc_value result.now ≡ value.Sums (scenario_sums []) }
    {
        &self.sums
    }

    /// Returns the scan of these sums: a risk of 0, in scenario 1.
    pub fn scan(&self) -> &Arc<Value>
        ensures { arc_value result.now ≡ value.Scan (scan_of (scenario_sums [])) }
    {
        &self.scan
    }

    /// Returns an empty list of months.
    pub fn months(&self) -> &Arc<Value>
        ensures { arc_value result.now ≡ value.Months (month_deltas []) }
    {
        &self.months
    }

    /// Returns the state of an empty list of months before any spread, with an exact charge of 0.
    pub fn tiers(&self) -> &Arc<Value>
        ensures { arc_value result.now ≡ value.Tiers (unspread (month_deltas [])) }
    {
        &self.tiers
    }

    /// Returns an amount of 0: a delivery charge, a short option minimum, or an option value.
    pub fn amount(&self) -> &Arc<Value>
        ensures { arc_value result.now ≡ value.Amount (pos 0) }
    {
        &self.amount
    }

    // The value of an operation on no held contracts.
    #[tactic(auto, using(crate::proofs::NothingLemmas::minimum_of_nothing, crate::proofs::NothingLemmas::value_of_nothing))]
    fn of_no_contracts(&self, op: Op) -> Option<&Arc<Value>>
        ensures { IfSome result (λ v. (t : AcceptedTables) (holdings : List Holding) (rest : List Value)
            → arc_value v.now ≡ value_on t holdings op (value.Held [] ∷ rest)) }
    {
        match op {
            Op::Sums(_) => Some(&self.sums),
            Op::Months(_) => Some(&self.months),
            Op::Minimum(_) | Op::NetValue(_) => Some(&self.amount),
            _ => None,
        }
    }

    // The value of an operation on no months.
    fn of_no_months(&self, op: Op) -> Option<&Arc<Value>>
        ensures { IfSome result (λ v. (t : AcceptedTables) (holdings : List Holding) (rest : List Value)
            → Takes t op (value.Months [] ∷ rest)
            → arc_value v.now ≡ value_on t holdings op (value.Months [] ∷ rest)) }
    {
        match op {
            Op::TierStart(_) => Some(&self.tiers),
            Op::Delivery(_) => Some(&self.amount),
            _ => None,
        }
    }

    // The value of an operation on the scenario sums of no contracts.
    fn of_no_sums(&self, op: Op) -> Option<&Arc<Value>>
        ensures { IfSome result (λ v. (t : AcceptedTables) (holdings : List Holding) (rest : List Value)
            → arc_value v.now ≡ value_on t holdings op (value.Sums (scenario_sums []) ∷ rest)) }
    {
        match op {
            Op::ScanMax(_) => Some(&self.scan),
            _ => None,
        }
    }

    /// Returns the value of an operation whose first input is empty: no contracts, no months, or sums that are all 0.
    /// Returns `None` if that input is not empty, or if no such value is kept.
    pub fn value_for(&self, op: Op, first: &Value) -> Option<&Arc<Value>>
        ensures { IfSome result (λ v. (t : AcceptedTables) (holdings : List Holding) (rest : List Value)
            → Takes t op (first.now ∷ rest) → arc_value v.now ≡ value_on t holdings op (first.now ∷ rest)) }
    {
        match first {
            Value::Held(held) if held.is_empty() => self.of_no_contracts(op),
            Value::Months(months) if months.as_slice().is_empty() => self.of_no_months(op),
            Value::Sums(sums) if are_of_nothing(sums) => self.of_no_sums(op),
            _ => None,
        }
    }
}
