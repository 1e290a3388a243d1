//! The content of sample files.
ghost use Rattle.span_tables.specs.Holdings.{fits};
ghost use Rattle.std.specs.Arc.{arc_value};
ghost use Rattle.std.specs.Prelude.{◌≡◌, All, IfSome, length, true};

use binding::positions::bind;
use param_check::check::check;
use plan_compiler::set::{CompiledSet, compile};
use span_csv::params::read_params;
use span_csv::positions::read_positions;
use span_tables::portfolios::Portfolio;
use span_tables::tables::Tables;
use std::alloc::Global;
use std::sync::Arc;
use step_scheduler::jobs::Job;

/// Returns the tables of a parameter file.
pub fn tables_of(alloc: Global, params: &[u8]) -> Option<Tables> {
    let raw = read_params(alloc, params).ok()?;
    check(alloc, raw).ok()
}

/// Returns the compiled parameter set of a file.
pub fn set_of(alloc: Global, params: &[u8]) -> Option<Arc<CompiledSet>> {
    let set = compile(alloc, tables_of(alloc, params)?).ok()?;
    Arc::new(alloc, set).ok()
}

/// Returns the portfolios of a position file under a parameter set.
pub fn accounts_of(
    alloc: Global,
    set: &Arc<CompiledSet>,
    positions: &[u8],
) -> Option<Vec<Portfolio>>
    ensures { IfSome result (λ accounts.
        All (λ p. fits (length (arc_value set.now).tables.contracts) p.holdings ≡ true) accounts.items) }
{
    let positions = read_positions(alloc, positions).ok()?;
    let accounts = bind(alloc, set.tables(), &positions).ok()?.into_vec();
    if accounts.iter().all(|account| account.fits(set.tables())) {
        Some(accounts)
    } else {
        None
    }
}

/// Returns the last portfolio of a position file under a parameter set.
pub fn account_of(alloc: Global, set: &Arc<CompiledSet>, positions: &[u8]) -> Option<Portfolio>
    ensures { IfSome result (λ account.
        fits (length (arc_value set.now).tables.contracts) account.holdings ≡ true) }
{
    accounts_of(alloc, set, positions)?.pop()
}

/// Returns the job of the last account of a position file, with index 0 in its batch.
pub fn job_of(alloc: Global, params: &[u8], positions: &[u8]) -> Option<Arc<Job>>
    ensures { IfSome result (λ job. (arc_value job).place ≡ 0) }
{
    let set = set_of(alloc, params)?;
    let account = account_of(alloc, &set, positions)?;
    Arc::new(alloc, Job::new(set, account, 0)).ok()
}
