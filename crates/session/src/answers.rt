//! The lines of the answer to a request.
ghost use Rattle.explanation.specs.Explanation.{account_text};
ghost use Rattle.session.specs.Accounts.{account_named, position_records, with_account};
ghost use Rattle.session.specs.Answers.{fill_answer, has_no_place, if_fit, lines_of, tried, tried_answer, unchanged, unfit};
ghost use Rattle.session.specs.Positions.{position_lines};
ghost use Rattle.plan_compiler.specs.Compiled.{SetView};
ghost use Rattle.session.specs.Refusals.{refused_by};
ghost use Rattle.session.specs.Refusals as refused;
ghost use Rattle.session.specs.Requests.{AreTradable};
ghost use Rattle.session.specs.near.Answering.{Answers, is_memory};
ghost use Rattle.session.specs.near.InUse.{state_of};
ghost use Rattle.statement_text.specs.Statement.{row_text};
ghost use Rattle.std.specs.Arc.{arc_value};
ghost use Rattle.std.specs.Prelude.{◌≡◌, ◌+◌, ◌*◌, [], ⊤, IfErr, IfOk, MatchBool, None, Some};
ghost use Rattle.worker_pool.specs.Batches.{AllFit, FitsSet};

use crate::accounts::Accounts;
use crate::refusals::Refusal;
use crate::set_in_use::SetInUse;
use binding::faults::BindFault;
use binding::trades::Trade;
use explanation::accounts::push_account;
use span_tables::limits::MAX_ACCOUNTS;
use span_tables::name::Name;
use span_tables::portfolios::{Portfolio, copied};
use statement_text::lines::push_row;
use std::alloc::Global;
use std::sync::Arc;
use step_scheduler::rows::Row;

// The number of names before the trades of a TRY, and of a FILL.
const NAMES_OF_TRY: u8 = 2;

const NAMES_OF_FILL: u8 = 1;

// The row of an account.
fn row_of(
    alloc: Global,
    set: &mut SetInUse,
    accounts: &Accounts,
    account: &Name,
) -> Result<Arc<Row>, Refusal<'static>>
    requires { AllFit set.old accounts.now }
    ensures same { set.new ≡ set.old }
    ensures set { IfOk result (λ row. (arc_value row).set ≡ set.old) }
    ensures account { IfOk result (λ row. account_named accounts.now account.now ≡ Some (arc_value row).portfolio) }
    ensures fits { IfOk result (λ row. FitsSet set.old (arc_value row).portfolio) }
    ensures refused { IfErr result (λ r. MatchBool (is_memory r) ⊤
        ((refused_by r ≡ refused.UnknownAccount) × (account_named accounts.now account.now ≡ None))) }
{
    match accounts.get(account) {
        Some(portfolio) => Ok(set.row(copied(alloc, portfolio)?)?),
        None => Err(Refusal::UnknownAccount),
    }
}

/// Appends the statement of an account.
pub(crate) fn push_margin_of(
    alloc: Global,
    out: &mut Vec<u8>,
    set: &mut SetInUse,
    accounts: &Accounts,
    account: &Name,
) -> Result<(), Refusal<'static>>
    requires empty { out.old.items ≡ [] }
    requires fits { AllFit set.old accounts.now }
    ensures same { set.new ≡ set.old }
    ensures answer { Answers (λ done. state_of set.old accounts.now) result out.new.items
        (lines_of (state_of set.old accounts.now) row_text (account_named accounts.now account.now)) }
{
    let row = row_of(alloc, set, accounts, account)?;
    push_row(out, &row)?;
    Ok(())
}

/// Appends the explanation of an account.
pub(crate) fn push_explanation(
    alloc: Global,
    out: &mut Vec<u8>,
    set: &mut SetInUse,
    accounts: &Accounts,
    account: &Name,
) -> Result<(), Refusal<'static>>
    requires empty { out.old.items ≡ [] }
    requires fits { AllFit set.old accounts.now }
    ensures same { set.new ≡ set.old }
    ensures answer { Answers (λ done. state_of set.old accounts.now) result out.new.items
        (lines_of (state_of set.old accounts.now) account_text (account_named accounts.now account.now)) }
{
    let row = row_of(alloc, set, accounts, account)?;
    push_account(alloc, out, &row)?;
    Ok(())
}

/// Appends the position records of all accounts.
pub(crate) fn push_positions(
    out: &mut Vec<u8>,
    set: &SetInUse,
    accounts: &Accounts,
) -> Result<(), Refusal<'static>>
    requires empty { out.old.items ≡ [] }
    requires fits { AllFit set.now accounts.now }
    ensures { Answers (λ done. state_of set.now accounts.now) result out.new.items
        (unchanged (state_of set.now accounts.now) (position_lines (position_records set.now.tables.contracts accounts.now))) }
{
    accounts.push_records(out, set.tables().contracts())?;
    Ok(())
}

// The number of the field with the contract of a trade, for a request with this many names before its trades.
fn field_of(names: u8, trade: usize) -> u128
    ensures { result ≡ names + 2 * trade }
{
    u128::from(names) + 2 * (trade as u128)
}

// Why trades are rejected, for a request with this many names before its trades.
fn unfit(names: u8, fault: BindFault) -> Refusal<'static>
    ensures { refused_by result ≡ unfit names fault }
{
    match fault {
        BindFault::UnknownContract { at, .. } => Refusal::UnknownContract {
            field: field_of(names, at),
        },
        BindFault::NetOutOfRange { at, .. } => Refusal::NetOutOfRange {
            field: field_of(names, at),
        },
        BindFault::TooManyHeld { .. } => Refusal::TooManyHeld {
            field: u128::from(names) + 1,
        },
        BindFault::OutOfMemory => Refusal::Memory,
    }
}

/// Appends the lines of the change that trades would make to the margin of an account.
pub(crate) fn push_try(
    out: &mut Vec<u8>,
    set: &mut SetInUse,
    accounts: &Accounts,
    order: &Name,
    account: &Name,
    trades: &[Trade],
) -> Result<(), Refusal<'static>>
    requires empty { out.old.items ≡ [] }
    requires fits { AllFit set.old accounts.now }
    requires trades { AreTradable trades.now }
    ensures same { set.new ≡ set.old }
    ensures answer { Answers (λ done. state_of set.old accounts.now) result out.new.items
        (if_fit 2 (tried_answer (state_of set.old accounts.now) order.now account.now)
        (tried (state_of set.old accounts.now) account.now trades.now)) }
{
    let held = accounts.holdings_of(account);
    match set.after(account, held, trades) {
        Ok(after) => {
            set.push_change(out, order, account, held, after)?;
            Ok(())
        }
        Err(fault) => Err(unfit(NAMES_OF_TRY, fault)),
    }
}

// Whether an account cannot be added, because it is new and there are as many accounts as the limit allows.
fn has_no_place(accounts: &Accounts, account: &Name) -> bool
    ensures { (set : SetView) → result ≡ has_no_place (state_of set accounts.now) account.now }
{
    accounts.get(account).is_none() && MAX_ACCOUNTS <= accounts.len()
}

/// Appends the total of an account after trades, and returns its new holdings.
pub(crate) fn push_fill(
    out: &mut Vec<u8>,
    set: &mut SetInUse,
    accounts: &Accounts,
    account: &Name,
    trades: &[Trade],
) -> Result<Portfolio, Refusal<'static>>
    requires empty { out.old.items ≡ [] }
    requires trades { AreTradable trades.now }
    ensures same { set.new ≡ set.old }
    ensures answer { Answers (λ after. state_of set.old (with_account accounts.now after)) result out.new.items
        (fill_answer (state_of set.old accounts.now) account.now trades.now) }
    ensures fits { IfOk result (FitsSet set.old) }
{
    if has_no_place(accounts, account) {
        return Err(Refusal::TooManyAccounts);
    }
    let held = accounts.holdings_of(account);
    match set.after(account, held, trades) {
        Ok(after) => {
            set.push_total(out, &after)?;
            Ok(after)
        }
        Err(fault) => Err(unfit(NAMES_OF_FILL, fault)),
    }
}
