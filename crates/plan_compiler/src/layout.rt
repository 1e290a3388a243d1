//! The step numbers of a plan, and the inputs of each step (docs/METHOD.md, "The plan of steps").
ghost use Rattle.std.specs.Prelude.{◌≡◌, ◌+◌, ◌*◌, ◌<◌, ◌≤◌, ◌++◌, [], ◌∷◌, All, IfOk, OnOk, length, map};
ghost use Rattle.span_tables.specs.Tables.{inters_of};
ghost use Rattle.span_tables.specs.declared.limits.TheConstants.{MAX_COMMODITIES, MAX_INTER_SPREADS, MAX_INTRA_SPREADS};
ghost use Rattle.plan_ir.specs.Apply.{IsOp};
ghost use Rattle.plan_ir.specs.Figures.{intras_at};
ghost use Rattle.plan_ir.specs.declared.ops.Op.TheVariants.{Final, InterLoad};
ghost use Rattle.plan_compiler.specs.declared.layout.TheConstants.{MAX_FIRST, TIERS, TOTAL, VALUE_STEPS};
ghost use Rattle.plan_compiler.specs.Places.{first_step, inputs_of, inter_step, load_step, place_of, premium_step};
ghost use Rattle.plan_compiler.specs.Places.{tiers_step, total_step, value_steps};
ghost use Rattle.plan_compiler.specs.near.Layout.{AreFirsts};

use plan_ir::lists::NumberLists;
use plan_ir::ops::Op;
use span_tables::limits::{MAX_COMMODITIES, MAX_INTRA_SPREADS};
use span_tables::tables::Tables;
use std::alloc::{AllocError, Global};

/// The number of steps of a commodity without its spreads and its option value.
pub const COMMODITY_STEPS: usize = 8;
/// The number of steps that a commodity has for its option value, if options have one.
pub const VALUE_STEPS: usize = 1;
/// The offset of the step of the scenario sums from the first step of its commodity.
pub const SUMS: u32 = 1;
/// The offset of the step of the scan from the first step of its commodity.
pub const SCAN: u32 = 2;
/// The offset of the step of the held months from the first step of its commodity.
pub const MONTHS: u32 = 3;
/// The offset of the step of the months before any spread from the first step of its commodity. The steps of spreads
/// follow.
pub const TIERS: u32 = 4;
/// The offset of the step of the delivery charge from the step of the months after all spreads.
pub const DELIVERY: u32 = 1;
/// The offset of the step of the short option minimum from the step of the months after all spreads.
pub const MINIMUM: u32 = 2;
/// The offset of the step of the option value, if there is one, from the step of the months after all spreads.
pub const NET_VALUE: u32 = 3;
/// The offset of the step of the figures from the step of the months after all spreads, if there is no step of the
/// option value. Such a step precedes the figures.
pub const FINAL: u32 = 3;
/// The offset of the step of the total of no commodity from the step of the commodities after all spreads.
pub const TOTAL: u32 = 1;
/// The offset of the step of the option value of no commodity, if there is one, from the step of the total of all.
pub const PREMIUM: u32 = 1;
/// The largest number of the first step between commodities.
pub const MAX_FIRST: usize = MAX_COMMODITIES * (COMMODITY_STEPS + VALUE_STEPS + MAX_INTRA_SPREADS);

// The number of steps that each commodity has for its option value.
fn value_steps(tables: &Tables) -> u32
    ensures value { result ≡ value_steps tables.now }
    ensures bound { result ≤ VALUE_STEPS }
{
    if tables.facts().options_have_value {
        VALUE_STEPS as u32
    } else {
        0
    }
}

// The number of each commodity's first step, followed by the number of the first step between commodities.
pub(crate) fn first_steps(alloc: Global, tables: &Tables) -> Result<Vec<u32>, AllocError>
    ensures { IfOk result (λ firsts. AreFirsts tables.now firsts.items) }
{
    let steps = COMMODITY_STEPS + value_steps(tables) as usize;
    let mut firsts = Vec::new(alloc);
    let mut first = 0;
    for c in 0..tables.commodities().len() {
        firsts.push(first as u32)?;
        first += steps + tables.intras(c).len();
    }
    firsts.push(first as u32)?;
    Ok(firsts)
}

// The number of the first step of commodity c. If c is the number of commodities, it is the first step between
// commodities.
pub(crate) fn first_step(tables: &Tables, firsts: &[u32], c: u32) -> u32
    requires firsts { AreFirsts tables.now firsts.now }
    requires among { c ≤ length tables.now.commodities }
    ensures value { result ≡ first_step tables.now c }
    ensures bound { result ≤ MAX_FIRST }
{
    tables.known();
    firsts[c as usize]
}

// The step number of a commodity's state after its first spreads.
fn tiers_step(tables: &Tables, firsts: &[u32], c: u32, spreads: u32) -> u32
    requires firsts { AreFirsts tables.now firsts.now }
    requires among { c < length tables.now.commodities }
    requires few { spreads ≤ length (intras_at tables.now c) }
    ensures value { result ≡ tiers_step tables.now c spreads }
    ensures bound { result ≤ MAX_FIRST + TIERS + MAX_INTRA_SPREADS }
{
    tables.known();
    first_step(tables, firsts, c) + TIERS + spreads
}

// The step number of a commodity's state after all of its spreads.
fn last_tiers_step(tables: &Tables, firsts: &[u32], c: u32) -> u32
    requires firsts { AreFirsts tables.now firsts.now }
    requires among { c < length tables.now.commodities }
    ensures value { result ≡ tiers_step tables.now c (length (intras_at tables.now c)) }
    ensures bound { result ≤ MAX_FIRST + TIERS + MAX_INTRA_SPREADS }
{
    let spreads = tables.intras(c as usize).len();
    tiers_step(tables, firsts, c, spreads as u32)
}

// The step number of a commodity's figures.
pub(crate) fn final_step(tables: &Tables, firsts: &[u32], c: u32) -> u32
    requires firsts { AreFirsts tables.now firsts.now }
    requires among { c < length tables.now.commodities }
    ensures { result ≡ place_of tables.now (Final c) }
{
    last_tiers_step(tables, firsts, c) + FINAL + value_steps(tables)
}

// The step number of the state between commodities with the first commodities loaded.
fn load_step(tables: &Tables, firsts: &[u32], commodities: u32) -> u32
    requires firsts { AreFirsts tables.now firsts.now }
    requires among { commodities ≤ length tables.now.commodities }
    ensures value { result ≡ load_step tables.now commodities }
    ensures bound { result ≤ MAX_FIRST + MAX_COMMODITIES }
{
    let all = tables.commodities().len();
    first_step(tables, firsts, all as u32) + commodities
}

// The step number of the state between commodities after the first spreads.
fn inter_step(tables: &Tables, firsts: &[u32], spreads: u32) -> u32
    requires firsts { AreFirsts tables.now firsts.now }
    requires among { spreads ≤ length (inters_of tables.now) }
    ensures value { result ≡ inter_step tables.now spreads }
    ensures bound { result ≤ MAX_FIRST + MAX_COMMODITIES + MAX_INTER_SPREADS }
{
    let all = tables.commodities().len();
    load_step(tables, firsts, all as u32) + spreads
}

// The step number of the state between commodities after all spreads.
fn last_inter_step(tables: &Tables, firsts: &[u32]) -> u32
    requires { AreFirsts tables.now firsts.now }
    ensures value { result ≡ inter_step tables.now (length (inters_of tables.now)) }
    ensures bound { result ≤ MAX_FIRST + MAX_COMMODITIES + MAX_INTER_SPREADS }
{
    inter_step(tables, firsts, tables.inters().len() as u32)
}

// The step number of the total of the first commodities.
pub(crate) fn total_step(tables: &Tables, firsts: &[u32], commodities: u32) -> u32
    requires firsts { AreFirsts tables.now firsts.now }
    requires among { commodities ≤ length tables.now.commodities }
    ensures value { result ≡ total_step tables.now commodities }
    ensures bound { result ≤ MAX_FIRST + MAX_COMMODITIES + MAX_INTER_SPREADS + TOTAL + MAX_COMMODITIES }
{
    tables.known();
    last_inter_step(tables, firsts) + TOTAL + commodities
}

// The step number of the option value of the first commodities, if options have one.
pub(crate) fn premium_step(tables: &Tables, firsts: &[u32], commodities: u32) -> u32
    requires firsts { AreFirsts tables.now firsts.now }
    requires among { commodities ≤ length tables.now.commodities }
    ensures { result ≡ premium_step tables.now commodities }
{
    let all = tables.commodities().len();
    total_step(tables, firsts, all as u32) + PREMIUM + commodities
}

// Appends the inputs of an operation's step.
fn push_inputs(
    lists: &mut NumberLists,
    tables: &Tables,
    firsts: &[u32],
    op: &Op,
) -> Result<(), AllocError>
    requires firsts { AreFirsts tables.now firsts.now }
    requires known { IsOp tables.now op.now }
    ensures { OnOk result (lists.new ≡ lists.old ++ inputs_of tables.now op.now ∷ []) }
{
    match *op {
        Op::Gather(_) | Op::InterStart | Op::TotalStart | Op::ValueStart => lists.push(&[]),
        Op::Sums(c) | Op::Months(c) | Op::Minimum(c) | Op::NetValue(c) => {
            lists.push(&[first_step(tables, firsts, c)])
        }
        Op::ScanMax(c) => lists.push(&[first_step(tables, firsts, c) + SUMS]),
        Op::TierStart(c) => lists.push(&[first_step(tables, firsts, c) + MONTHS]),
        Op::Spread(c, j) => lists.push(&[tiers_step(tables, firsts, c, j)]),
        Op::Delivery(c) => lists.push(&[
            first_step(tables, firsts, c) + MONTHS,
            last_tiers_step(tables, firsts, c),
        ]),
        Op::Final(c) => lists.push(&final_inputs(tables, firsts, c)),
        Op::InterLoad(c) => lists.push(&load_inputs(tables, firsts, c)),
        Op::InterSpread(j) => lists.push(&[inter_step(tables, firsts, j)]),
        Op::TotalAdd(c) => lists.push(&[
            total_step(tables, firsts, c),
            final_step(tables, firsts, c),
        ]),
        Op::ValueAdd(c) => lists.push(&[
            premium_step(tables, firsts, c),
            last_tiers_step(tables, firsts, c) + NET_VALUE,
        ]),
    }
}

// The inputs of a commodity's Final step. The last input is a later step.
fn final_inputs(tables: &Tables, firsts: &[u32], c: u32) -> [u32; 5]
    requires firsts { AreFirsts tables.now firsts.now }
    requires among { c < length tables.now.commodities }
    ensures { result ≡ inputs_of tables.now (Final c) }
{
    let tiers = last_tiers_step(tables, firsts, c);
    [
        first_step(tables, firsts, c) + SCAN,
        tiers,
        tiers + DELIVERY,
        tiers + MINIMUM,
        last_inter_step(tables, firsts),
    ]
}

// The inputs of the step that loads a commodity: its months before any of its spreads, and its scan.
fn load_inputs(tables: &Tables, firsts: &[u32], c: u32) -> [u32; 3]
    requires firsts { AreFirsts tables.now firsts.now }
    requires among { c < length tables.now.commodities }
    ensures { result ≡ inputs_of tables.now (InterLoad c) }
{
    let first = first_step(tables, firsts, c);
    [load_step(tables, firsts, c), first + MONTHS, first + SCAN]
}

// The inputs of the step of each operation.
pub(crate) fn inputs_of_all(
    alloc: Global,
    tables: &Tables,
    firsts: &[u32],
    ops: &[Op],
) -> Result<NumberLists, AllocError>
    requires firsts { AreFirsts tables.now firsts.now }
    requires known { All (IsOp tables.now) ops.now }
    ensures { IfOk result (λ lists. lists ≡ map (inputs_of tables.now) ops.now) }
{
    let mut lists = NumberLists::new(alloc);
    for op in ops {
        push_inputs(&mut lists, tables, firsts, op)?;
    }
    Ok(lists)
}
