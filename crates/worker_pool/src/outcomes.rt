//! The outcome of a batch for each of its accounts.
ghost use Rattle.std.specs.Prelude.{◌≡◌, MatchResult};
ghost use Rattle.worker_pool.specs.declared.outcomes.Outcome.TheVariants.{Margined, NoMemory};

use span_tables::name::Name;
use std::alloc::AllocError;
use std::sync::Arc;
use step_scheduler::rows::Row;

/// The outcome of a batch for an account.
#[derive(Drop)]
pub enum Outcome {
    /// The account's row.
    Margined(Arc<Row>),
    /// The name of an account whose run ran out of memory.
    NoMemory(Name),
}

impl Outcome {
    /// Returns the outcome of an account: its row, or its name if there was no memory for the row.
    pub(crate) fn of(account: Name, row: Result<Arc<Row>, AllocError>) -> Outcome
        ensures { MatchResult row (λ row. result ≡ Margined row) (λ _. result ≡ NoMemory account) }
    {
        match row {
            Ok(row) => Outcome::Margined(row),
            Err(AllocError) => Outcome::NoMemory(account),
        }
    }
}
