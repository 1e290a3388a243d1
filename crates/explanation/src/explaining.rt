//! From the bytes of both files to the bytes of an explanation (docs/FORMATS.md, Explanation).
ghost use Rattle.std.specs.Arc.{arc_value};
ghost use Rattle.std.specs.Prelude.{◌≡◌, ◌++◌, IfOk, OnOk, bytes_eq, find, flat_map};
ghost use Rattle.std.specs.Option.{option_copied};
ghost use Rattle.worker_pool.specs.Batches.{AllFit, FitsSet};
ghost use Rattle.statement_text.specs.Gives.{Gives};
ghost use Rattle.statement_text.specs.declared.faults.SpanFault.TheVariants as fault;
ghost use Rattle.explanation.specs.Explanation.{account_text, explained, explanation_of};

use crate::accounts::push_account;
use acceptance::accepting::{Accepted, accept};
use plan_compiler::set::CompiledSet;
use span_tables::name::Name;
use span_tables::portfolios::{Portfolio, Portfolios};
use statement_text::faults::SpanFault;
use std::alloc::{AllocError, Global};
use std::sync::Arc;
use worker_pool::plain::Runs;

// Appends the lines of the account of a portfolio. Its figures come from a run of the plan.
fn push_portfolio(
    alloc: Global,
    out: &mut Vec<u8>,
    runs: &mut Runs,
    portfolio: Portfolio,
) -> Result<(), AllocError>
    requires { FitsSet runs.old portfolio }
    ensures same { runs.new ≡ runs.old }
    ensures lines { OnOk result (out.new.items ≡ out.old.items ++ account_text runs.old.tables portfolio) }
{
    let row = runs.row(portfolio)?;
    push_account(alloc, out, &row)?;
    Ok(())
}

// Returns the lines of all accounts, in their order. Only one account at a time is in memory, in addition to the text.
fn all_lines(
    alloc: Global,
    set: &Arc<CompiledSet>,
    portfolios: Vec<Portfolio>,
) -> Result<Vec<u8>, AllocError>
    requires { AllFit (arc_value set.now) portfolios.items }
    ensures { IfOk result (λ text. text.items ≡ flat_map (account_text (arc_value set.now).tables) portfolios.items) }
{
    let mut out = Vec::new(alloc);
    let mut runs = Runs::new(alloc, set)?;
    for portfolio in portfolios {
        push_portfolio(alloc, &mut out, &mut runs, portfolio)?;
    }
    Ok(out)
}

// Returns the portfolio of the account with a name, if there is one.
fn portfolio_of(portfolios: Vec<Portfolio>, name: &Name) -> Option<Portfolio>
    ensures { result ≡ find (λ p. bytes_eq p.account name.now) portfolios.items }
{
    portfolios
        .into_iter()
        .find(|portfolio| portfolio.account() == name)
}

// Returns the lines of the account of a portfolio.
fn lines_of(
    alloc: Global,
    set: &Arc<CompiledSet>,
    portfolio: Portfolio,
) -> Result<Vec<u8>, AllocError>
    requires { FitsSet (arc_value set.now) portfolio }
    ensures { IfOk result (λ text. text.items ≡ account_text (arc_value set.now).tables portfolio) }
{
    let mut out = Vec::new(alloc);
    let mut runs = Runs::new(alloc, set)?;
    push_portfolio(alloc, &mut out, &mut runs, portfolio)?;
    Ok(out)
}

// Returns the fault of a name that no account has.
fn unknown(name: &Name) -> SpanFault
    ensures { result ≡ fault.UnknownAccount name.now }
{
    SpanFault::UnknownAccount {
        account: name.copied(),
    }
}

// Returns the lines of all accounts, or only of the named one.
fn explained(
    alloc: Global,
    set: &Arc<CompiledSet>,
    portfolios: Portfolios,
    account: Option<&Name>,
) -> Result<Vec<u8>, SpanFault>
    requires { AllFit (arc_value set.now) portfolios }
    ensures { Gives (λ text. text.items) result
        (explained (arc_value set.now).tables portfolios (option_copied account.entry)) }
{
    let portfolios = portfolios.into_vec();
    let Some(name) = account else {
        return Ok(all_lines(alloc, set, portfolios)?);
    };
    match portfolio_of(portfolios, name) {
        Some(portfolio) => Ok(lines_of(alloc, set, portfolio)?),
        None => Err(unknown(name)),
    }
}

/// Returns the explanation of two files, for all accounts or only for the named one.
///
/// Fails with the first fault in reading the parameters, checking them, reading the positions and binding them. After
/// these comes the fault that the positions do not have the named account. Also fails if memory runs out.
#[tactic(auto, unfolding(crate::specs::Explanation::explanation_of))]
pub fn explain(
    alloc: Global,
    params: &[u8],
    positions: &[u8],
    account: Option<&Name>,
) -> Result<Vec<u8>, SpanFault>
    ensures { Gives (λ text. text.items) result
        (explanation_of params.now positions.now (option_copied account.entry)) }
{
    let Accepted {
        set,
        portfolios,
        ..
    } = accept(alloc, params, positions)?;
    explained(alloc, &set, portfolios, account)
}
