//! Test vectors: the line and the exit status of faults, and statements, computed by the definitions.
#![tactic(auto, unfolding(crate::specs::near::OnLiterals::on_literals))]

ghost use Rattle.std.specs.Prelude.{◌≡◌, ◌++◌, codes, false};
ghost use Rattle.binding.specs.Binding as bind_fault;
ghost use Rattle.param_check.specs.CheckFaults as check_fault;
ghost use Rattle.binding.specs.declared.faults.BindFault.{BindFault};
ghost use Rattle.binding.specs.declared.faults.BindFault.TheVariants as bind;
ghost use Rattle.param_check.specs.declared.faults.CheckFault.{CheckFault};
ghost use Rattle.param_check.specs.declared.faults.CheckFault.TheVariants as check;
ghost use Rattle.result_book.specs.BookFaults as book_fault;
ghost use Rattle.result_book.specs.declared.books.BookFault.{BookFault};
ghost use Rattle.result_book.specs.declared.books.BookFault.TheVariants as book;
ghost use Rattle.binding.specs.OrderBinding as bind_order_fault;
ghost use Rattle.binding.specs.declared.faults.OrderBindFault.{OrderBindFault};
ghost use Rattle.binding.specs.declared.faults.OrderBindFault.TheVariants as bind_orders;
ghost use Rattle.span_csv.specs.OrderFaults as order_fault;
ghost use Rattle.span_csv.specs.declared.faults.OrderFault.{OrderFault};
ghost use Rattle.span_csv.specs.declared.faults.OrderFault.TheVariants as orders;
ghost use Rattle.span_csv.specs.ParamFaults as param_fault;
ghost use Rattle.span_csv.specs.PositionFaults as position_fault;
ghost use Rattle.span_csv.specs.declared.faults.ParamFault.{ParamFault};
ghost use Rattle.span_csv.specs.declared.faults.ParamFault.TheVariants as params;
ghost use Rattle.span_csv.specs.declared.faults.PositionFault.{PositionFault};
ghost use Rattle.span_csv.specs.declared.faults.PositionFault.TheVariants as positions;
ghost use Rattle.statement_text.specs.FaultLines.{fault_line, fault_status};
ghost use Rattle.statement_text.specs.declared.faults.SpanFault.TheVariants as span_fault;
ghost use Rattle.statement_text.specs.Statement.{statement_of};
ghost use Rattle.statement_text.specs.near.Samples.{ca, fa, pa, spread_and_spot, two_commodities};

// A fault of each kind.
fn lines_of_faults()
    ensures p8 { fault_line (span_fault.Params (params.TooMany 1234567)) ≡ codes "parameters: P8 TooMany at record 1234567\n" }
    ensures c10 { fault_line (span_fault.Check (check.DuplicatePriority 12)) ≡ codes "parameters: C10 DuplicatePriority at record 12\n" }
    ensures q5 { fault_line (span_fault.Positions (positions.TooManyAccounts 12))
        ≡ codes "positions: Q5 TooManyAccounts at record 12\n" }
    ensures b2 { fault_line (span_fault.Bind (bind.NetOutOfRange 2 (codes "ACC-1")))
        ≡ codes "positions: B2 NetOutOfRange at record 2 account ACC-1\n" }
    ensures o6 { fault_line (span_fault.Orders (orders.SecondAccount 2)) ≡ codes "orders: O6 SecondAccount at record 2\n" }
    ensures b3 { fault_line (span_fault.BindOrders (bind_orders.TooManyHeld 3 (codes "A_B")))
        ≡ codes "orders: B3 TooManyHeld at record 3 order A_B\n" }
    ensures e1 { fault_line (span_fault.UnknownAccount (codes "X")) ≡ codes "positions: E1 UnknownAccount account X\n" }
    ensures k1 { fault_line (span_fault.Book book.NoSuchBatch) ≡ codes "book: K1 NoSuchBatch\n" }
    ensures k2 { fault_line (span_fault.Book book.AlreadyThere) ≡ codes "book: K2 AlreadyThere\n" }
    ensures k4 { fault_line (span_fault.Book book.NoMoreBatches) ≡ codes "book: K4 NoMoreBatches\n" }
    ensures workers { fault_line span_fault.Workers ≡ codes "workers: L1 Workers\n" }
    ensures shelf { fault_line span_fault.Shelf ≡ codes "shelf\n" }
    ensures memory { fault_line (span_fault.Bind bind.OutOfMemory) ≡ codes "memory\n" }
{}

// A fault under the next parameter set has the line and the status of the same fault under today's, with `next` before
// the file's name.
fn faults_of_the_next_set()
    ensures parameters { (e : ParamFault) → param_fault.is_memory e ≡ false
        → fault_line (span_fault.NextParams e) ≡ codes "next " ++ fault_line (span_fault.Params e) }
    ensures rules { (e : CheckFault) → check_fault.is_memory e ≡ false
        → fault_line (span_fault.NextCheck e) ≡ codes "next " ++ fault_line (span_fault.Check e) }
    ensures binding { (e : BindFault) → bind_fault.is_memory e ≡ false
        → fault_line (span_fault.NextBind e) ≡ codes "next " ++ fault_line (span_fault.Bind e) }
    ensures c2 { fault_line (span_fault.NextCheck (check.UnknownCommodity 12))
        ≡ codes "next parameters: C2 UnknownCommodity at record 12\n" }
    ensures status_of_parameters { (e : ParamFault) → fault_status (span_fault.NextParams e) ≡ fault_status (span_fault.Params e) }
    ensures status_of_rules { (e : CheckFault) → fault_status (span_fault.NextCheck e) ≡ fault_status (span_fault.Check e) }
    ensures status_of_binding { (e : BindFault) → fault_status (span_fault.NextBind e) ≡ fault_status (span_fault.Bind e) }
{}

// The status of each kind of fault.
fn statuses_of_faults()
    ensures parameters { (e : ParamFault) → param_fault.is_memory e ≡ false → fault_status (span_fault.Params e) ≡ 3 }
    ensures rules { (e : CheckFault) → check_fault.is_memory e ≡ false → fault_status (span_fault.Check e) ≡ 3 }
    ensures positions { (e : PositionFault) → position_fault.is_memory e ≡ false → fault_status (span_fault.Positions e) ≡ 4 }
    ensures binding { (e : BindFault) → bind_fault.is_memory e ≡ false → fault_status (span_fault.Bind e) ≡ 4 }
    ensures orders { (e : OrderFault) → order_fault.is_memory e ≡ false → fault_status (span_fault.Orders e) ≡ 4 }
    ensures binding_of_orders { (e : OrderBindFault) → bind_order_fault.is_memory e ≡ false
        → fault_status (span_fault.BindOrders e) ≡ 4 }
    ensures book { (e : BookFault) → book_fault.is_memory e ≡ false → fault_status (span_fault.Book e) ≡ 7 }
    ensures e1 { fault_status (span_fault.UnknownAccount (codes "X")) ≡ 4 }
    ensures workers { fault_status span_fault.Workers ≡ 2 }
    ensures shelf { fault_status span_fault.Shelf ≡ 7 }
    ensures memory { fault_status (span_fault.Bind bind.OutOfMemory) ≡ 5 }
{}

// A third of a spread between months, for which both charges are rounded up; credits that are rounded down; and short
// options with a value.
fn statements()
    ensures part { statement_of (spread_and_spot (codes "250,1,A,3,2,B,3")) (codes "X,FA,1\nX,FA2,-1\n")
        ≡ Ok (codes "R,X,D1,AA,0,1,84,11,0,0,95\nT,X,D1,95\n") }
    ensures credits { statement_of (two_commodities fa (codes "3333,AA,A,1,BB,B,1")) (codes "X,FA,1\nX,FB,-2\n")
        ≡ Ok (codes "R,X,D1,AA,1200,13,0,0,399,0,801\nR,X,D1,BB,1800,11,0,0,299,0,1501\nT,X,D1,2302\n") }
    ensures values { statement_of (
        codes "SET,D2,2,USD\n" ++ codes "COMMODITY,AA,500,SUM\n" ++ ca (codes ",120") ++ pa (codes ",80"))
        (codes "X,CA,-2\nX,PA,-3\n")
        ≡ Ok (codes "R,X,D2,AA,40,11,0,0,0,2500,2500\nT,X,D2,2500,-480,2980,0\n") }
{}
