//! Rows that are in a book. A roll writes its statements from such rows only.
ghost use Rattle.plan_compiler.specs.Compiled.{SetView};
ghost use Rattle.result_book.specs.Books.{HasNoAccountTwice, rows_of};
ghost use Rattle.result_book.specs.declared.books.BookFault.TheVariants as fault;
ghost use Rattle.span_tables.specs.Net.{AccountHoldings};
ghost use Rattle.worker_teams.specs.near.OutcomeRows.{rows_of_accounts};
ghost use Rattle.statement_text.specs.Statement.{statement_text};
ghost use Rattle.statement.specs.near.InBook.{ArePartlyInBook};
ghost use Rattle.std.specs.Arc.{arc_value};
ghost use Rattle.std.specs.Prelude.{◌≡◌, ◌≢◌, ◌+◌, ◌-◌, ◌^◌, ◌++◌, ◌⊎◌, ◌↔◌};
ghost use Rattle.std.specs.Prelude.{Err, IfErr, IfOk, List, OnOk, map, ℕ};

use result_book::books::{BookFault, ResultBook};
use std::alloc::{AllocError, Global};
use std::marker::Model;
use std::sync::Arc;
use step_scheduler::rows::Row;
use worker_teams::texts::{append_text, text_of};

/// The rows of a batch that are in a book. Only [`put_in_book`] creates them.
#[derive(Drop)]
pub(crate) struct RowsInBook {
    rows: Vec<Arc<Row>>,
}

impl Model for RowsInBook {
    ghost use Rattle.step_scheduler.specs.Rows.{RowView};
    ghost use Rattle.std.specs.Arc.{arc_value};
    ghost use Rattle.std.specs.Prelude.{List, map};

    ghost Value = { List RowView };

    ghost view = { λ put. map arc_value put.rows.items };
}

impl RowsInBook {
    /// Returns the statement of the rows.
    pub(crate) fn text(&self, alloc: Global) -> Result<Vec<u8>, AllocError>
        ensures { (set : SetView) (portfolios : List AccountHoldings) → self.now ≡ rows_of_accounts set portfolios
            → IfOk result (λ text. text.items ≡ statement_text set.tables portfolios) }
    {
        text_of(alloc, &self.rows)
    }

    /// Appends the statement of the rows.
    pub(crate) fn append_to(&self, out: &mut Vec<u8>) -> Result<(), AllocError>
        ensures { (set : SetView) (portfolios : List AccountHoldings) → self.now ≡ rows_of_accounts set portfolios
            → OnOk result (out.new.items ≡ out.old.items ++ statement_text set.tables portfolios) }
    {
        append_text(out, &self.rows)
    }
}

/// Opens a batch of a book and puts the rows there, in their order.
///
/// Fails with `NoMoreBatches` if the book has given out all its numbers, and leaves the book unchanged. The only other
/// error is out of memory: then one more batch is open, with the rows that were put before.
pub(crate) fn put_in_book(
    book: &mut ResultBook,
    rows: Vec<Arc<Row>>,
) -> Result<RowsInBook, BookFault>
    requires { HasNoAccountTwice (map arc_value rows.items) }
    ensures in_book { IfOk result (λ put. put ≡ map arc_value rows.items) }
    ensures opened { OnOk result (book.new.opened ≡ book.old.opened + 1) }
    ensures rows { OnOk result (rows_of book.new (book.old.opened + 1) ≡ map arc_value rows.items) }
    ensures others { (n : ℕ) → n ≢ book.old.opened + 1 → rows_of book.new n ≡ rows_of book.old n }
    ensures full { (result ≡ Err fault.NoMoreBatches) ↔ (book.old.opened ≡ 2 ^ 64 - 1) }
    ensures refused { IfErr result (λ e.
        ((e ≡ fault.NoMoreBatches) × (book.new ≡ book.old))
        ⊎ ((e ≡ fault.OutOfMemory) × ArePartlyInBook book.old book.new (map arc_value rows.items))) }
{
    let batch = book.open_batch()?;
    for row in &rows {
        let row = Arc::try_clone(row).map_err(|_| BookFault::OutOfMemory)?;
        if let Err(refused) = book.put(batch, row) {
            return Err(refused.fault);
        }
    }
    Ok(RowsInBook { rows })
}
