//! Tests of hints: that the value of a step is kept, or is the step's first input. No clause requires that a hint is
//! given.
ghost use Rattle.std.specs.Arc.{arc_value};
ghost use Rattle.std.specs.Prelude.{◌≡◌, ◌≤◌, ◌++◌, ◌∷◌, [], length, map};
ghost use Rattle.span_tables.specs.declared.limits.TheConstants.{MAX_PRICE2};

use inter_credit::state::empty;
use plan_ir::evaluation::changes_nothing;
use plan_ir::figures::Figures;
use plan_ir::nothing::NothingHeld;
use plan_ir::ops::Op;
use plan_ir::values::Value;
use sample_files::one_future::PARAMS;
use sample_sets::files::{set_of, tables_of};
use scan_risk::Scan;
use span_money::amounts::Money;
use span_tables::held::OwnedHeld;
use span_tables::tables::Tables;
use spread_stage::deltas::month_deltas;
use std::alloc::Global;
use std::process::Abort;
use std::sync::Arc;

// Expects that the value of an operation is kept for an empty first input.
fn expect_kept(rt: &impl Abort, nothing: &NothingHeld, op: Op, first: &Value) {
    assert!(rt; nothing.value_for(op, first).is_some());
}

// The value of each operation on no contracts, on no months and on sums of 0 is kept. The value of a spread on no
// months is not.
#[test]
fn values_of_nothing_held(rt: HostRuntime) {
    let set = set_of(rt.alloc(), PARAMS).expect(&rt, "a set");
    let nothing = set.nothing_held();
    expect_kept(&rt, nothing, Op::Sums(0), nothing.held());
    expect_kept(&rt, nothing, Op::Months(0), nothing.held());
    expect_kept(&rt, nothing, Op::Minimum(0), nothing.held());
    expect_kept(&rt, nothing, Op::TierStart(0), nothing.months());
    expect_kept(&rt, nothing, Op::Delivery(0), nothing.months());
    expect_kept(&rt, nothing, Op::ScanMax(0), nothing.sums());
    assert!(rt;
        nothing
            .value_for(Op::Spread(0, 0), nothing.tiers())
            .is_none()
    );
}

// Appends a value to the inputs of a step.
fn add_input(rt: &impl Abort, alloc: Global, inputs: &mut Vec<Arc<Value>>, value: Value)
    ensures { map arc_value inputs.new.items ≡ map arc_value inputs.old.items ++ value ∷ [] }
{
    let value = Arc::new(alloc, value).ok().expect(rt, "a value");
    inputs.push(value).ok().expect(rt, "an input");
}

// Whether the hint says that a load of no months, with this doubled price risk, changes nothing.
fn is_load_of_nothing(rt: &impl Abort, alloc: Global, tables: &Tables, price2: u64) -> bool
    requires one { length tables.now.commodities ≡ 1 }
    requires price2 { price2 ≤ MAX_PRICE2 }
{
    let scan = Scan {
        risk: Money::new(0),
        active: 1,
        paired: 2,
        price2,
    };
    let held = OwnedHeld::none(alloc, tables).expect(rt, "nothing held");
    let months = month_deltas(alloc, &held.as_held()).expect(rt, "no months");
    let mut rest = Vec::new(alloc);
    add_input(rt, alloc, &mut rest, Value::Months(months));
    add_input(rt, alloc, &mut rest, Value::Scan(scan));
    let lines = Value::Inter(empty(alloc, 1).expect(rt, "a commodity"));
    changes_nothing(tables, Op::InterLoad(0), &lines, &rest)
}

// A load of a commodity without held contracts changes nothing. A load with a price risk may change something.
#[test]
fn load_of_nothing(rt: HostRuntime) {
    let tables = tables_of(rt.alloc(), PARAMS).expect(&rt, "tables");
    assert!(rt; tables.commodities().len() == 1);
    assert!(rt; is_load_of_nothing(&rt, rt.alloc(), &tables, 0));
    assert!(rt; !is_load_of_nothing(&rt, rt.alloc(), &tables, 2400));
}

// Adding a requirement of 0 does not change a total.
#[test]
fn total_of_nothing(rt: HostRuntime) {
    let tables = tables_of(rt.alloc(), PARAMS).expect(&rt, "tables");
    assert!(rt; tables.commodities().len() == 1);
    let mut rest = Vec::new(rt.alloc());
    add_input(
        &rt,
        rt.alloc(),
        &mut rest,
        Value::Figures(Figures::of_nothing()),
    );
    let total = Value::Total(Money::new(500));
    assert!(rt; changes_nothing(&tables, Op::TotalAdd(0), &total, &rest));
}
