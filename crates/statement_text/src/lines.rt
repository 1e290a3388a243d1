//! The text of a statement.
ghost use Rattle.span_money.specs.LineFields.{line};
ghost use Rattle.span_money.specs.near.Fields.{field_text};
ghost use Rattle.statement_text.specs.Statement.{commodity_text, figures_line, row_text, total_line, total_numbers, total_of};
ghost use Rattle.statement_text.specs.near.Fronts.{front_text};
ghost use Rattle.inter_credit.specs.OptionValue.{due_of, excess_of};
ghost use Rattle.plan_ir.specs.Figures.{option_value_of};
ghost use Rattle.std.specs.Arc.{arc_value};
ghost use Rattle.span_money.specs.declared.amounts.TheConstants.{MAX_MONEY};
ghost use Rattle.std.specs.Prelude.{[], ◌++◌, ◌∷◌, ◌≡◌, ◌*◌, ◌<◌, ◌≤◌, ℕ, IfOk, List, OnOk, flat_map, length, map, pos};

use plan_ir::figures::Figures;
use span_money::amounts::Money;
use span_money::line_fields::{Field, push_line_of_numbers, push_rest_of_numbers, push_start};
use span_tables::name::Name;
use std::alloc::{AllocError, Global};
use std::sync::Arc;
use step_scheduler::rows::Row;

/// Returns the fields that follow the word of each line of a commodity: the ids of the account, the parameter set and
/// the commodity.
pub fn ids_of<'a>(account: &'a Name, set_id: &'a Name, commodity: &'a Name) -> [Field<'a>; 3]
    ensures { map field_text result ≡ account.entry.now ∷ set_id.entry.now ∷ commodity.entry.now ∷ [] }
{
    [
        Field::Bytes(account.as_bytes()),
        Field::Bytes(set_id.as_bytes()),
        Field::Bytes(commodity.as_bytes()),
    ]
}

// Returns the start of the lines of an account's commodities: the word, and the ids of the account and the parameter
// set.
fn front_of(alloc: Global, row: &Row) -> Result<Vec<u8>, AllocError>
    ensures { IfOk result (λ front. front.items ≡ front_text row.now.portfolio.account row.now.set.tables.set_id) }
{
    let ids = [
        Field::Bytes(row.account().as_bytes()),
        Field::Bytes(row.set_id().as_bytes()),
    ];
    let mut front = Vec::new(alloc);
    push_start(&mut front, "R", &ids)?;
    Ok(front)
}

// Appends the line of a commodity's figures, whose start is `front`.
fn push_behind(
    out: &mut Vec<u8>,
    front: &[u8],
    commodity: &Name,
    figures: &Figures,
) -> Result<(), AllocError>
    ensures { (account set_id : List ℕ) → front.now ≡ front_text account set_id
        → OnOk result (out.new.items ≡ out.old.items ++ line (figures_line account set_id commodity.now figures.now)) }
{
    out.extend_from_slice(front)?;
    push_rest_of_numbers(out, commodity.as_bytes(), &figures.numbers())?;
    Ok(())
}

// Appends the line of an account for the commodity with index `number`, whose start is `front`, or nothing.
fn push_if_held(out: &mut Vec<u8>, front: &[u8], row: &Row, number: usize) -> Result<(), AllocError>
    requires number { number < length row.now.set.tables.commodities }
    requires front { front.now ≡ front_text row.now.portfolio.account row.now.set.tables.set_id }
    ensures { OnOk result (out.new.items
        ≡ out.old.items ++ commodity_text row.now.set.tables row.now.portfolio number) }
{
    if !row.held(number) {
        return Ok(());
    }
    let commodity = &row.set().tables().commodities()[number].id;
    push_behind(out, front, commodity, row.figures(number))
}

/// Appends the line of an account for the commodity with index `number` (docs/FORMATS.md, Statement: the R line).
/// Appends nothing if the account holds no contract of it.
pub fn push_commodity_of(out: &mut Vec<u8>, row: &Row, number: usize) -> Result<(), AllocError>
    requires { number < length row.now.set.tables.commodities }
    ensures { OnOk result (out.new.items
        ≡ out.old.items ++ commodity_text row.now.set.tables row.now.portfolio number) }
{
    let front = front_of(*out.allocator(), row)?;
    push_if_held(out, &front, row, number)
}

// The last line of an account: its total, and the numbers after it.
#[tactic(auto, unfolding(crate::specs::Statement::total_line))]
fn push_total(
    out: &mut Vec<u8>,
    account: &Name,
    set_id: &Name,
    numbers: &[i128],
) -> Result<(), AllocError>
    ensures { OnOk result (out.new.items
        ≡ out.old.items ++ line (total_line account.now set_id.now numbers.now)) }
{
    let ids = [
        Field::Bytes(account.as_bytes()),
        Field::Bytes(set_id.as_bytes()),
    ];
    push_line_of_numbers(out, "T", &ids, numbers)
}

/// Returns what an account has to post in addition to its option value, in minor units.
pub fn due(total: Money, value: Money) -> i128
    ensures value { result ≡ pos (due_of total value) }
    ensures bound { due_of total value ≤ 2 * MAX_MONEY }
{
    (total.get() - value.get()).max(0)
}

// The excess of an account's option value over its total, in minor units.
fn excess(total: Money, value: Money) -> i128
    ensures { result ≡ pos (excess_of total value) }
{
    due(value, total)
}

/// Appends the last line of an account (docs/FORMATS.md, Statement: the T line). If options have a value, the line also
/// has the account's option value, due and excess.
pub fn push_total_of(out: &mut Vec<u8>, row: &Row) -> Result<(), AllocError>
    ensures { OnOk result (out.new.items ≡ out.old.items ++ line (total_line row.now.portfolio.account row.now.set.tables.set_id
        (total_numbers row.now.set.tables (total_of row.now.set.tables row.now.portfolio)
        (option_value_of row.now.set.tables row.now.portfolio.holdings)))) }
{
    let total = row.total();
    if !row.set().tables().facts().options_have_value {
        return push_total(out, row.account(), row.set_id(), &[total.get()]);
    }
    let value = row.value();
    let numbers = [
        total.get(),
        value.get(),
        due(total, value),
        excess(total, value),
    ];
    push_total(out, row.account(), row.set_id(), &numbers)
}

/// Appends the lines of an account: its figures in each commodity that it holds, in file order, and its total
/// (docs/FORMATS.md, Statement).
#[tactic(auto, unfolding(crate::specs::Statement::row_text))]
pub fn push_row(out: &mut Vec<u8>, row: &Row) -> Result<(), AllocError>
    ensures { OnOk result (out.new.items ≡ out.old.items ++ row_text row.now.set.tables row.now.portfolio) }
{
    let front = front_of(*out.allocator(), row)?;
    for number in 0..row.set().tables().commodities().len() {
        push_if_held(out, &front, row, number)?;
    }
    push_total_of(out, row)
}

/// Appends the lines of rows, in their order.
pub fn push_rows(out: &mut Vec<u8>, rows: &[Arc<Row>]) -> Result<(), AllocError>
    ensures { OnOk result (out.new.items
        ≡ out.old.items ++ flat_map (λ r. row_text r.set.tables r.portfolio) (map arc_value rows.now)) }
{
    for row in rows {
        push_row(out, row)?;
    }
    Ok(())
}

/// Returns the statement of rows, in their order.
pub fn write(alloc: Global, rows: &[Arc<Row>]) -> Result<Vec<u8>, AllocError>
    ensures { IfOk result (λ text. text.items ≡ flat_map (λ r. row_text r.set.tables r.portfolio) (map arc_value rows.now)) }
{
    let mut out = Vec::new(alloc);
    push_rows(&mut out, rows)?;
    Ok(out)
}
