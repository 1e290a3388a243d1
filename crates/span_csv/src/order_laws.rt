//! Lemmas on the definitions of an order file, in the terms of the format. Each is the contract of a function with an
//! empty body.
ghost use Rattle.std.specs.Prelude.{◌≡◌, ℕ, All, Bool, List, [], ◌∷◌, ◌++◌, Some, None, Ok, codes, false, length, map, true};
ghost use Rattle.span_csv.specs.OrderFaults.{changes_account, exceeds_orders, order_fault, order_faults, orders_of};
ghost use Rattle.span_csv.specs.Records.{Fields, text_at};
ghost use Rattle.span_csv.specs.declared.faults.OrderFault.{OrderFault};
ghost use Rattle.span_csv.specs.declared.faults.OrderFault.TheVariants as fault;
ghost use Rattle.span_tables.specs.Faults.{first_that_holds};
ghost use Rattle.span_tables.specs.Laws.{IsFaultFree, IsFirstFault};
ghost use Rattle.span_tables.specs.Names.{distinct, is_among, is_name};
ghost use Rattle.span_tables.specs.Orders.{account_of_order};
ghost use Rattle.span_tables.specs.declared.limits.TheConstants.{MAX_ORDERS};
ghost use Rattle.span_tables.specs.declared.records.OrderRecord.{OrderRecord};

/// The fault of an order file is the fault of the first record that has one. There is no fault only if no record has
/// one.
pub fn first_faulty_order_counts()
    ensures first { (rs : List Fields) (y : OrderFault) → order_fault rs ≡ Some y
        → IsFirstFault (λ earlier x. first_that_holds (order_faults earlier x)) [] rs y }
    ensures none { (rs : List Fields) → order_fault rs ≡ None
        → IsFaultFree (λ earlier x. first_that_holds (order_faults earlier x)) [] rs }
    ensures free { (rs : List Fields)
        → IsFaultFree (λ earlier x. first_that_holds (order_faults earlier x)) [] rs
        → order_fault rs ≡ None }
{}

/// The fault of a record is the first of its possible faults whose test is true. There is none only if no test is true.
pub fn lowest_fault_counts()
    ensures first { (front rest : List (Bool × (ℕ → OrderFault))) (y : ℕ → OrderFault)
        → All (λ x. x.0 ≡ false) front → first_that_holds (front ++ (true, y) ∷ rest) ≡ Some y }
    ensures none { (faults : List (Bool × (ℕ → OrderFault))) → All (λ x. x.0 ≡ false) faults
        → first_that_holds faults ≡ None }
{}

/// A record of a new order is rejected exactly if there are already as many orders as the maximum.
pub fn orders_are_limited()
    ensures refused { (earlier : List Fields) (order account contract : List ℕ)
        → is_name order ≡ true → is_name account ≡ true → is_name contract ≡ true
        → is_among (map (λ x. text_at x 0) earlier) order ≡ false
        → length (distinct (map (λ x. text_at x 0) earlier)) ≡ MAX_ORDERS
        → first_that_holds (order_faults earlier (order ∷ account ∷ contract ∷ codes "1" ∷ []))
        ≡ Some fault.TooManyOrders }
    ensures taken { (earlier : List Fields) (order account contract : List ℕ)
        → is_name order ≡ true → is_name account ≡ true → is_name contract ≡ true
        → exceeds_orders earlier (order ∷ account ∷ contract ∷ codes "1" ∷ []) ≡ false
        → changes_account earlier (order ∷ account ∷ contract ∷ codes "1" ∷ []) ≡ false
        → first_that_holds (order_faults earlier (order ∷ account ∷ contract ∷ codes "1" ∷ [])) ≡ None }
{}

/// All records of an accepted file with the same order name have the same account, the account of the order.
pub fn each_order_has_one_account()
    ensures { (bytes : List ℕ) (records : List OrderRecord) → orders_of bytes ≡ Ok records
        → All (λ r. r.account ≡ account_of_order records r.order) records }
{}
