//! The result store, called book.
ghost use Rattle.std.specs.Prelude.{◌≡◌, ◌≢◌, ◌↔◌, ◌+◌, ◌-◌, ◌^◌, ◌++◌, ◌∷◌, [], ℕ, map, None};
ghost use Rattle.std.specs.Prelude.{Err, IfErr, IfOk, OnOk, option_copied};
ghost use Rattle.std.specs.Option.{unwrap_or};
ghost use Rattle.std.specs.Arc.{arc_value};
ghost use Rattle.result_book.specs.Books.{HasNoAccountTwice, IsBook, account_of_row, put_fault, row_for, rows_of, rows_under};

use crate::batches::BatchRows;
use indexmap::IndexMap;
use span_tables::name::Name;
use std::alloc::{AllocError, Global};
use std::fmt;
use std::fmt::Display;
use std::marker::Model;
use std::sync::Arc;
use step_scheduler::rows::Row;
use thiserror::Error;

/// The reason why a call of a book fails.
#[derive(Clone, Copy, Debug, Drop, PartialEq, Eq, Error)]
pub enum BookFault {
    /// No batch of this number was opened.
    NoSuchBatch,
    /// The batch already has a row of this account.
    AlreadyThere,
    /// Out of memory.
    OutOfMemory,
    /// All batch numbers are used.
    NoMoreBatches,
}

impl Display for BookFault {
    ghost use Rattle.result_book.specs.BookFaults.{book_text};
    ghost use Rattle.std.specs.Prelude.{Some};

    ghost output = { λ fault. Some (book_text fault) };

    fn fmt<W: fmt::Write>(&self, f: &mut fmt::Formatter<W>) -> fmt::Result {
        match self {
            BookFault::NoSuchBatch => write!(f, "K1 NoSuchBatch"),
            BookFault::AlreadyThere => write!(f, "K2 AlreadyThere"),
            BookFault::OutOfMemory => write!(f, "memory"),
            BookFault::NoMoreBatches => write!(f, "K4 NoMoreBatches"),
        }
    }
}

/// A row that was not added, and the reason.
#[derive(Drop)]
pub struct PutRefused {
    /// The reason.
    pub fault: BookFault,
    /// The row.
    pub row: Arc<Row>,
}

/// The rows of all batches. Batches are numbered from 1, and each has its rows in the order in which they were added.
///
/// Contracts see the number of opened batches, and the rows of each. No account has two rows in a batch, and there are
/// no rows of a batch that was not opened. The memory used grows only with the rows: a batch without rows takes no
/// memory.
#[derive(Drop)]
pub struct ResultBook {
    alloc: Global,
    opened: u64,
    batches: IndexMap<u64, BatchRows>,
}

impl Model for ResultBook {
    ghost use Rattle.result_book.specs.Books.{BookView, IsBook};

    ghost Value = { BookView };

    ghost view = { λ b. record { opened = b.opened; batches = b.batches.entries } };

    ghost invariant = { λ b. IsBook (record { opened = b.opened; batches = b.batches.entries }) };
}

impl ResultBook {
    /// Returns a book without opened batches. It takes no memory.
    pub fn new(alloc: Global) -> ResultBook
        ensures { result ≡ record { opened = 0; batches = [] } }
    {
        ResultBook {
            alloc,
            opened: 0,
            batches: IndexMap::new(alloc),
        }
    }

    /// Opens a batch without rows, and returns its number. It takes no memory.
    ///
    /// Fails with `NoMoreBatches` if 2^64 - 1 batches were opened. The book is then unchanged.
    pub fn open_batch(&mut self) -> Result<u64, BookFault>
        ensures number { IfOk result (λ number. number ≡ self.old.opened + 1) }
        ensures opened { OnOk result (self.new ≡ record self.old { opened = self.old.opened + 1 }) }
        ensures empty { IfOk result (λ number. rows_of self.new number ≡ []) }
        ensures full { (result ≡ Err BookFault.NoMoreBatches) ↔ (self.old.opened ≡ 2 ^ 64 - 1) }
        ensures refused { IfErr result (λ fault. (fault ≡ BookFault.NoMoreBatches) × (self.new ≡ self.old)) }
    {
        if self.opened == u64::MAX {
            return Err(BookFault::NoMoreBatches);
        }
        self.opened += 1;
        Ok(self.opened)
    }

    /// Appends a row to a batch.
    ///
    /// Fails with `NoSuchBatch` if no batch of this number was opened, otherwise with `AlreadyThere` if the batch has a
    /// row of the account. Otherwise it fails only with `OutOfMemory`. After a failure the book is unchanged, and the
    /// error contains the row.
    pub fn put(&mut self, batch: u64, row: Arc<Row>) -> Result<(), PutRefused>
        ensures accepted { OnOk result (put_fault self.old batch (account_of_row (arc_value row)) ≡ None) }
        ensures put { OnOk result (rows_of self.new batch ≡ rows_of self.old batch ++ arc_value row ∷ []) }
        ensures others { (number : ℕ) → number ≢ batch → rows_of self.new number ≡ rows_of self.old number }
        ensures opened { self.new.opened ≡ self.old.opened }
        ensures fault { IfErr result (λ refused.
            refused.fault ≡ unwrap_or (put_fault self.old batch (account_of_row (arc_value row))) BookFault.OutOfMemory) }
        ensures unchanged { IfErr result (λ refused. (refused.row ≡ row) × (self.new ≡ self.old)) }
    {
        if let Some(fault) = self.put_fault(batch, row.account()) {
            return Err(PutRefused { fault, row });
        }
        match put_row(self.alloc, &mut self.batches, batch, row) {
            Ok(()) => Ok(()),
            Err(row) => Err(PutRefused {
                fault: BookFault::OutOfMemory,
                row,
            }),
        }
    }

    /// Returns the row of an account in a batch, or `None` if the batch has no such row or was not opened.
    pub fn get(&self, batch: u64, account: &Name) -> Option<&Row>
        ensures row { option_copied result ≡ row_for (rows_of self.now batch) account.now }
        ensures lawful { IsBook self.now }
    {
        match self.batches.get(&batch) {
            Some(rows) => rows.get(account),
            None => None,
        }
    }

    /// Returns the rows of a batch, in the order in which they were added. There are none if the batch was not opened.
    /// `Err` is out of memory.
    pub fn rows(&self, batch: u64) -> Result<Vec<Arc<Row>>, AllocError>
        ensures rows { IfOk result (λ rows. map arc_value rows.items ≡ rows_of self.now batch) }
        ensures lawful { IsBook self.now }
    {
        match self.batches.get(&batch) {
            Some(rows) => rows.rows(self.alloc),
            None => Ok(Vec::new(self.alloc)),
        }
    }

    // The reason why the row of an account is not added to a batch, apart from out of memory.
    fn put_fault(&self, batch: u64, account: &Name) -> Option<BookFault>
        ensures { result ≡ put_fault self.now batch account.now }
    {
        if batch == 0 || batch > self.opened {
            return Some(BookFault::NoSuchBatch);
        }
        match self.get(batch, account) {
            Some(_) => Some(BookFault::AlreadyThere),
            None => None,
        }
    }
}

// Appends a row to a batch without a row of its account. If memory runs out, the row is returned and nothing was added.
fn put_row(
    alloc: Global,
    batches: &mut IndexMap<u64, BatchRows>,
    batch: u64,
    row: Arc<Row>,
) -> Result<(), Arc<Row>>
    requires { row_for (rows_under batches.old.entries batch) (account_of_row (arc_value row)) ≡ None }
    ensures put { OnOk result (rows_under batches.new.entries batch
        ≡ rows_under batches.old.entries batch ++ arc_value row ∷ []) }
    ensures others { (number : ℕ) → number ≢ batch
        → rows_under batches.new.entries number ≡ rows_under batches.old.entries number }
    ensures once { OnOk result (HasNoAccountTwice (rows_under batches.new.entries batch)) }
    ensures refused { IfErr result (λ back. (back ≡ row) × (batches.new.entries ≡ batches.old.entries)) }
{
    if let Some(rows) = batches.get_mut(&batch) {
        return rows.put(row);
    }
    if batches.reserve(1).is_err() {
        return Err(row);
    }
    let mut rows = BatchRows::new(alloc);
    rows.put(row)?;
    match batches.insert(batch, rows) {
        Ok(_) => Ok(()),
        Err(_) => unreachable!(),
    }
}
