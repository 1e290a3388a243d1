//! The lines of one account (docs/FORMATS.md, Explanation).
ghost use Rattle.std.specs.Prelude.{◌≡◌, ◌++◌, ◌<◌, OnOk, flat_map, length};
ghost use Rattle.span_money.specs.LineFields.{line};
ghost use Rattle.worker_pool.specs.Batches.{FitsSet};
ghost use Rattle.reasons.specs.near.Stages.{stages_of};
ghost use Rattle.explanation.specs.Explanation.{account_text, commodity_lines};

use reasons::stages::{Stages, push_reasons, stages_of};
use statement_text::lines::{ids_of, push_commodity_of, push_total_of};
use std::alloc::{AllocError, Global};
use step_scheduler::rows::Row;

// Appends the lines of an account for the commodity of a number, if it holds a contract in it.
fn push_commodity(
    alloc: Global,
    out: &mut Vec<u8>,
    row: &Row,
    stages: &Stages,
    number: usize,
) -> Result<(), AllocError>
    requires fits { FitsSet row.now.set row.now.portfolio }
    requires number { number < length row.now.set.tables.commodities }
    requires stages { stages.now ≡ stages_of row.now.set.tables row.now.portfolio.holdings }
    ensures { OnOk result (out.new.items
        ≡ out.old.items ++ flat_map line (commodity_lines row.now.set.tables row.now.portfolio number)) }
{
    if !row.held(number) {
        return Ok(());
    }
    row.portfolio().known();
    let tables = row.set().tables();
    let commodity = &tables.commodities()[number].id;
    let ids = ids_of(row.account(), row.set_id(), commodity);
    push_reasons(alloc, out, &ids, tables, stages, number)?;
    push_commodity_of(out, row, number)?;
    Ok(())
}

/// Appends the lines of an account: the reasons and the figures of each commodity that it holds, and its total.
#[tactic(auto, unfolding(crate::specs::Explanation::account_text))]
pub fn push_account(alloc: Global, out: &mut Vec<u8>, row: &Row) -> Result<(), AllocError>
    requires { FitsSet row.now.set row.now.portfolio }
    ensures { OnOk result (out.new.items ≡ out.old.items ++ account_text row.now.set.tables row.now.portfolio) }
{
    let tables = row.set().tables();
    let stages = stages_of(alloc, tables, row.portfolio())?;
    for number in 0..tables.commodities().len() {
        push_commodity(alloc, out, row, &stages, number)?;
    }
    push_total_of(out, row)?;
    Ok(())
}
