//! The rows of one batch.
ghost use Rattle.std.specs.Prelude.{◌≡◌, ◌++◌, ◌∷◌, [], map, None, IfOk, IfErr, OnOk, option_copied};
ghost use Rattle.std.specs.Arc.{arc_value};
ghost use Rattle.result_book.specs.Books.{HasNoAccountTwice, account_of_row, row_for};

use indexmap::IndexMap;
use span_tables::name::Name;
use std::alloc::{AllocError, Global};
use std::marker::Model;
use std::sync::Arc;
use step_scheduler::rows::Row;

/// The rows of a batch, in the order in which they were added. A row can be found by its account.
#[derive(Drop)]
pub(crate) struct BatchRows {
    by_account: IndexMap<Name, Arc<Row>>,
}

impl Model for BatchRows {
    ghost use Rattle.std.specs.Prelude.{List};
    ghost use Rattle.std.specs.Arc.{arc_value};
    ghost use Rattle.step_scheduler.specs.Rows.{RowView};
    ghost use Rattle.result_book.specs.near.Batches.{AreUnderAccounts, kept_rows};

    ghost Value = { List RowView };

    ghost view = { λ b. kept_rows arc_value b.by_account.entries };

    ghost invariant = { λ b. AreUnderAccounts arc_value b.by_account.entries };
}

impl BatchRows {
    /// Returns a batch without rows.
    pub(crate) fn new(alloc: Global) -> BatchRows
        ensures { result ≡ [] }
    {
        BatchRows {
            by_account: IndexMap::new(alloc),
        }
    }

    /// Appends a row. The batch must have no row of its account. If memory runs out, the row is returned and nothing
    /// was added.
    pub(crate) fn put(&mut self, row: Arc<Row>) -> Result<(), Arc<Row>>
        requires { row_for self.old (account_of_row (arc_value row)) ≡ None }
        ensures put { OnOk result (self.new ≡ self.old ++ arc_value row ∷ []) }
        ensures once { HasNoAccountTwice self.new }
        ensures refused { IfErr result (λ back. (back ≡ row) × (self.new ≡ self.old)) }
    {
        let account = row.account().copied();
        match self.by_account.insert(account, row) {
            Ok(_) => Ok(()),
            Err(refused) => Err(refused.value.1),
        }
    }

    /// Returns the row of an account, if there is one.
    pub(crate) fn get(&self, account: &Name) -> Option<&Row>
        ensures { option_copied result ≡ row_for self.now account.now }
    {
        match self.by_account.get(account) {
            Some(row) => Some(&**row),
            None => None,
        }
    }

    /// Returns a shared reference to each row, in the order in which they were added.
    pub(crate) fn rows(&self, alloc: Global) -> Result<Vec<Arc<Row>>, AllocError>
        ensures { IfOk result (λ rows. map arc_value rows.items ≡ self.now) }
    {
        let mut rows = Vec::with_capacity(alloc, self.by_account.len())?;
        for row in self.by_account.values() {
            rows.push(Arc::try_clone(row)?)?;
        }
        Ok(rows)
    }
}
