//! Test vectors for books with one row, computed by the definitions. Each is the contract of a function with an empty
//! body.
ghost use Rattle.std.specs.Prelude.{◌≡◌, None, Some, codes};
ghost use Rattle.plan_compiler.specs.Compiled.{SetView};
ghost use Rattle.result_book.specs.Books.{put_fault, row_for, rows_of};
ghost use Rattle.result_book.specs.near.Samples.{one_row, row_of_x};
ghost use Rattle.result_book.specs.declared.books.BookFault.TheVariants as fault;

// Two batches were opened, and the second has a row of the account X.
fn puts_and_rows_beside_one_row()
    ensures number_three { (set : SetView) → put_fault (one_row set) 3 (codes "X") ≡ Some fault.NoSuchBatch }
    ensures there { (set : SetView) → put_fault (one_row set) 2 (codes "X") ≡ Some fault.AlreadyThere }
    ensures another_batch { (set : SetView) → put_fault (one_row set) 1 (codes "X") ≡ None }
    ensures found { (set : SetView) → row_for (rows_of (one_row set) 2) (codes "X") ≡ Some (row_of_x set) }
{}
