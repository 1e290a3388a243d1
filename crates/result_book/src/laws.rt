//! Lemmas about books. Each is the contract of a function with an empty body.
ghost use Rattle.std.specs.Prelude.{◌≡◌, ◌<◌, ◌≤◌, ◌↔◌, ◌⊎◌, ℕ, List, Some, Contains, map};
ghost use Rattle.result_book.specs.Books.{BookView, account_of_row, put_fault, rows_of};
ghost use Rattle.result_book.specs.declared.books.BookFault.TheVariants as fault;

/// A row is rejected with `NoSuchBatch` exactly if the batch number is 0 or greater than the number of opened batches.
pub fn numbers_from_one_on_are_opened()
    ensures { (book : BookView) (number : ℕ) (account : List ℕ) → (put_fault book number account ≡ Some fault.NoSuchBatch)
        ↔ ((number ≡ 0) ⊎ (book.opened < number)) }
{}

/// A row is rejected with `AlreadyThere` exactly if its batch was opened and has a row of its account.
#[tactic(auto, using(crate::proofs::BookLemmas::account_there))]
pub fn an_account_is_there_once()
    ensures { (book : BookView) (number : ℕ) (account : List ℕ) → (put_fault book number account ≡ Some fault.AlreadyThere)
        ↔ ((0 < number) × (number ≤ book.opened) × Contains (map account_of_row (rows_of book number)) account) }
{}
