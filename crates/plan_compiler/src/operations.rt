//! The operations of a plan, in their order (docs/METHOD.md, "The plan of steps").
#![tactic(auto, using(crate::proofs::LayoutLemmas::each_appended))]

ghost use Rattle.std.specs.Prelude.{◌≡◌, ◌++◌, ◌<◌, [], ◌∷◌, IfOk, OnOk, length};
ghost use Rattle.plan_compiler.specs.Plan.{commodity_ops, each, final_ops, ops_of, premium_ops, spread_ops};
ghost use Rattle.plan_ir.specs.declared.ops.Op.TheVariants.{InterLoad, InterSpread, TotalAdd, ValueAdd};

use plan_ir::ops::Op;
use span_tables::tables::Tables;
use std::alloc::{AllocError, Global};

// Appends the steps of a commodity's spreads.
fn push_spreads(ops: &mut Vec<Op>, c: u32, spreads: u32) -> Result<(), AllocError>
    ensures { OnOk result (ops.new.items ≡ ops.old.items ++ spread_ops c spreads) }
{
    for j in 0..spreads {
        ops.push(Op::Spread(c, j))?;
    }
    Ok(())
}

// Appends the steps of a commodity after its spreads. The option value, if options have one, precedes the figures.
fn push_final(ops: &mut Vec<Op>, tables: &Tables, c: u32) -> Result<(), AllocError>
    ensures { OnOk result (ops.new.items ≡ ops.old.items ++ final_ops tables.now c) }
{
    ops.extend_from_slice(&[Op::Delivery(c), Op::Minimum(c)])?;
    if tables.facts().options_have_value {
        ops.push(Op::NetValue(c))?;
    }
    ops.push(Op::Final(c))?;
    Ok(())
}

// Appends the steps of a commodity.
fn push_commodity(ops: &mut Vec<Op>, tables: &Tables, c: u32) -> Result<(), AllocError>
    requires { c < length tables.now.commodities }
    ensures { OnOk result (ops.new.items ≡ ops.old.items ++ commodity_ops tables.now c) }
{
    let spreads = tables.intras(c as usize).len();
    ops.extend_from_slice(&[
        Op::Gather(c),
        Op::Sums(c),
        Op::ScanMax(c),
        Op::Months(c),
        Op::TierStart(c),
    ])?;
    push_spreads(ops, c, spreads as u32)?;
    push_final(ops, tables, c)
}

// Appends the steps of all commodities.
fn push_commodities(ops: &mut Vec<Op>, tables: &Tables) -> Result<(), AllocError>
    ensures { OnOk result (ops.new.items ≡ ops.old.items ++ each (commodity_ops tables.now) (length tables.now.commodities)) }
{
    let commodities = tables.commodities().len();
    for c in 0..commodities as u32 {
        push_commodity(ops, tables, c)?;
    }
    Ok(())
}

// Appends the steps that load commodities.
fn push_loads(ops: &mut Vec<Op>, commodities: u32) -> Result<(), AllocError>
    ensures { OnOk result (ops.new.items ≡ ops.old.items ++ each (λ c. InterLoad c ∷ []) commodities) }
{
    for c in 0..commodities {
        ops.push(Op::InterLoad(c))?;
    }
    Ok(())
}

// Appends the steps of intercommodity spreads.
fn push_inter_spreads(ops: &mut Vec<Op>, spreads: u32) -> Result<(), AllocError>
    ensures { OnOk result (ops.new.items ≡ ops.old.items ++ each (λ j. InterSpread j ∷ []) spreads) }
{
    for j in 0..spreads {
        ops.push(Op::InterSpread(j))?;
    }
    Ok(())
}

// Appends the steps that add commodities to the total.
fn push_adds(ops: &mut Vec<Op>, commodities: u32) -> Result<(), AllocError>
    ensures { OnOk result (ops.new.items ≡ ops.old.items ++ each (λ c. TotalAdd c ∷ []) commodities) }
{
    for c in 0..commodities {
        ops.push(Op::TotalAdd(c))?;
    }
    Ok(())
}

// Appends the steps that add the option values of commodities.
fn push_value_adds(ops: &mut Vec<Op>, commodities: u32) -> Result<(), AllocError>
    ensures { OnOk result (ops.new.items ≡ ops.old.items ++ each (λ c. ValueAdd c ∷ []) commodities) }
{
    for c in 0..commodities {
        ops.push(Op::ValueAdd(c))?;
    }
    Ok(())
}

// Appends the steps of the account's option value, if options have one.
fn push_premium(ops: &mut Vec<Op>, tables: &Tables) -> Result<(), AllocError>
    ensures { OnOk result (ops.new.items ≡ ops.old.items ++ premium_ops tables.now) }
{
    if !tables.facts().options_have_value {
        return Ok(());
    }
    let commodities = tables.commodities().len();
    ops.push(Op::ValueStart)?;
    push_value_adds(ops, commodities as u32)
}

// The operations of the plan of accepted tables.
pub(crate) fn ops_of(alloc: Global, tables: &Tables) -> Result<Vec<Op>, AllocError>
    ensures { IfOk result (λ ops. ops.items ≡ ops_of tables.now) }
{
    let commodities = tables.commodities().len() as u32;
    let mut ops = Vec::new(alloc);
    push_commodities(&mut ops, tables)?;
    ops.push(Op::InterStart)?;
    push_loads(&mut ops, commodities)?;
    push_inter_spreads(&mut ops, tables.inters().len() as u32)?;
    ops.push(Op::TotalStart)?;
    push_adds(&mut ops, commodities)?;
    push_premium(&mut ops, tables)?;
    Ok(ops)
}
