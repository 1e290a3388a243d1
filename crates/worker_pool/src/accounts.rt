//! The accounts of a batch: those that have no board yet, and the outcome of each.
ghost use Rattle.std.specs.Arc.{arc_value};
ghost use Rattle.std.specs.Prelude.{◌≡◌, ◌↔◌, IfOk, IfSome, IsTrue, Some, length, map, slice_get, slice_set};
ghost use Rattle.worker_pool.specs.Batches.{AllFit, job_at, jobs_of};
ghost use Rattle.worker_pool.specs.declared.outcomes.Outcome.TheVariants.{Margined, NoMemory};
ghost use Rattle.worker_pool.specs.near.Places.{AreOutcomesOf, one_ended};

use crate::laws::Batch;
use crate::outcomes::Outcome;
use plan_compiler::set::CompiledSet;
use span_tables::portfolios::Portfolio;
use std::alloc::{AllocError, Global};
use std::collections::VecDeque;
use std::marker::{Model, PhantomData};
use std::sync::Arc;
use step_scheduler::jobs::Job;
use step_scheduler::rows::Row;

/// The portfolios that have no board yet, in the order of their accounts.
#[derive(Drop)]
pub(crate) struct Waiting<B: Batch> {
    set: Arc<CompiledSet>,
    portfolios: VecDeque<Portfolio>,
    // The index of the next account.
    next_place: usize,
    batch: PhantomData<B>,
}

impl<B: Batch> Model for Waiting<B> {
    ghost use Rattle.std.specs.Arc.{arc_value};
    ghost use Rattle.std.specs.Prelude.{◌≡◌, ◌+◌, ◌<◌, ◌^◌, drop, length};
    ghost use Rattle.worker_pool.specs.Batches.{AllFit, jobs_from};

    ghost Value = { Unit {0} };

    ghost view = { λ _. tt };

    ghost invariant = { λ w. (jobs_from (arc_value w.set) w.next_place w.portfolios.items ≡ drop w.next_place B.jobs)
        × AllFit (arc_value w.set) w.portfolios.items
        × (w.next_place + length w.portfolios.items < 2 ^ 64) };
}

impl<B: Batch> Waiting<B> {
    pub(crate) fn new(set: Arc<CompiledSet>, portfolios: Vec<Portfolio>) -> Waiting<B>
        requires jobs { B.jobs ≡ jobs_of (arc_value set) portfolios.items }
        requires fits { AllFit (arc_value set) portfolios.items }
    {
        Waiting {
            set,
            portfolios: VecDeque::from(portfolios),
            next_place: 0,
            batch: PhantomData,
        }
    }

    /// Returns the number of accounts that have no board yet.
    pub(crate) fn len(&self) -> usize {
        self.portfolios.len()
    }

    /// Returns the next account's job, or `None` if no account is waiting.
    pub(crate) fn next_job(&mut self, alloc: Global) -> Result<Option<Arc<Job>>, AllocError>
        ensures { IfOk result (λ found. IfSome found (λ job. slice_get B.jobs (arc_value job).place ≡ Some (arc_value job))) }
    {
        let Some(portfolio) = self.portfolios.pop_front() else {
            return Ok(None);
        };
        let place = self.next_place;
        self.next_place += 1;
        let set = Arc::try_clone(&self.set)?;
        let job = Arc::new(alloc, Job::new(set, portfolio, place))?;
        Ok(Some(job))
    }
}

// Returns the outcome `NoMemory` for each account.
fn all_without_memory(alloc: Global, portfolios: &[Portfolio]) -> Result<Vec<Outcome>, AllocError>
    ensures { IfOk result (λ outcomes. outcomes.items ≡ map (λ p. NoMemory p.account) portfolios.now) }
{
    portfolios
        .iter()
        .map(|portfolio| Outcome::NoMemory(portfolio.account().copied()))
        .collect(alloc)
}

/// The row of an account of the batch, with the account's index.
///
/// The type is not `Drop`, and its fields are private: only [`Outcomes::set`] takes one apart, so none is lost.
pub(crate) struct RowOf<B: Batch> {
    row: Arc<Row>,
    place: usize,
    batch: PhantomData<B>,
    ghost of_batch: { slice_get B.jobs place ≡ Some (job_at (arc_value row).set (arc_value row).portfolio place) },
}

impl<B: Batch> RowOf<B> {
    pub(crate) fn new(row: Arc<Row>, place: usize) -> RowOf<B>
        requires { slice_get B.jobs place ≡ Some (job_at (arc_value row).set (arc_value row).portfolio place) }
        ensures row { result.row ≡ row }
        ensures place { result.place ≡ place }
    {
        RowOf {
            row,
            place,
            batch: PhantomData,
        }
    }
}

/// The outcome of each account, in account order: `NoMemory` at first.
#[derive(Drop)]
pub(crate) struct Outcomes<B: Batch> {
    list: Vec<Outcome>,
    // The number of accounts that have not ended.
    left: usize,
    batch: PhantomData<B>,
}

impl<B: Batch> Model for Outcomes<B> {
    ghost use Rattle.worker_pool.specs.near.Places.{AreOutcomesOf, OutcomesView};

    ghost Value = { OutcomesView };

    ghost view = { λ o. record { list = o.list.items; left = o.left } };

    ghost invariant = { λ o. AreOutcomesOf B.jobs o.list.items };
}

impl<B: Batch> Outcomes<B> {
    pub(crate) fn new(
        alloc: Global,
        set: &Arc<CompiledSet>,
        portfolios: &[Portfolio],
    ) -> Result<Outcomes<B>, AllocError>
        requires { B.jobs ≡ jobs_of (arc_value set.now) portfolios.now }
        ensures { IfOk result (λ outcomes. outcomes ≡ record {
          list = map (λ p. NoMemory p.account) portfolios.now;
          left = length portfolios.now;
        }) }
    {
        Ok(Outcomes {
            list: all_without_memory(alloc, portfolios)?,
            left: portfolios.len(),
            batch: PhantomData,
        })
    }

    /// Returns whether every account has ended.
    pub(crate) fn is_done(&self) -> bool
        ensures { IsTrue result ↔ (self.now.left ≡ 0) }
    {
        self.left == 0
    }

    /// Counts one more account as ended.
    pub(crate) fn count_ended(&mut self)
        ensures { self.new ≡ one_ended self.old }
    {
        self.left = self.left.saturating_sub(1);
    }

    /// Stores the row of an account at the account's index.
    pub(crate) fn set(&mut self, row: RowOf<B>)
        ensures { self.new ≡ record self.old { list = slice_set self.old.list row.place (Margined row.row) } }
    {
        let RowOf {
            row,
            place,
            batch: _,
        } = row;
        self.list[place] = Outcome::Margined(row);
    }

    /// Returns the outcomes, in account order.
    pub(crate) fn into_vec(self) -> Vec<Outcome>
        ensures list { result.items ≡ self.list }
        ensures of_jobs { AreOutcomesOf B.jobs result.items }
    {
        let Outcomes { list, .. } = self;
        list
    }
}
