//! Lemmas on the definitions of a position file, in the terms of the format. Each is the contract of a function with an
//! empty body.
ghost use Rattle.std.specs.Prelude.{◌≡◌, ℕ, All, Bool, Contains, Err, List, [], ◌∷◌, ◌++◌, Ok, Some, None, codes, false, length, map};
ghost use Rattle.std.specs.Prelude.{true};
ghost use Rattle.span_csv.specs.Cuts.{BeginsWithNoMark, EndsInLineFeed, has_quote};
ghost use Rattle.span_csv.specs.Laws.{position_number};
ghost use Rattle.span_csv.specs.PositionFaults.{counted, exceeds_accounts, is_memory, position_faults, positions_of, record_fault};
ghost use Rattle.span_csv.specs.Records.{Fields, position_record, records_of, text_at};
ghost use Rattle.span_csv.specs.declared.faults.PositionFault.{PositionFault};
ghost use Rattle.span_csv.specs.declared.faults.PositionFault.TheVariants as fault;
ghost use Rattle.span_tables.specs.Faults.{all_faults, first_fault, first_of, first_that_holds};
ghost use Rattle.span_tables.specs.Laws.{IsFaultFree, IsFaultOfSome, IsFirstFault, IsStrictlyRisingBy};
ghost use Rattle.span_tables.specs.Names.{distinct, is_among, is_name};
ghost use Rattle.span_tables.specs.declared.limits.TheConstants.{MAX_ACCOUNTS};
ghost use Rattle.span_tables.specs.declared.records.PositionRecord.{PositionRecord};

/// The fault of a position file is the fault of the first record that has one. There is no fault only if no record has
/// one.
pub fn first_faulty_position_counts()
    ensures first { (rs : List Fields) (y : PositionFault) → first_fault record_fault rs ≡ Some y
        → IsFirstFault record_fault [] rs y }
    ensures none { (rs : List Fields) → first_fault record_fault rs ≡ None → IsFaultFree record_fault [] rs }
    ensures free { (rs : List Fields) → IsFaultFree record_fault [] rs → first_fault record_fault rs ≡ None }
{}

/// The list of all faults of a position file is empty exactly if the file is accepted. Otherwise the file is rejected
/// with the first of them.
pub fn first_of_all_refuses()
    ensures read { (bytes : List ℕ) (records : List PositionRecord) → positions_of bytes ≡ Ok records → position_faults bytes ≡ [] }
    ensures none { (bytes : List ℕ) → position_faults bytes ≡ []
        → positions_of bytes ≡ Ok (map position_record (records_of bytes)) }
    ensures refused { (bytes : List ℕ) (y : PositionFault) → positions_of bytes ≡ Err y → first_of (position_faults bytes) ≡ Some y }
{}

/// Each reported fault of a position file is the fault of one of its records, and each record with a fault is reported.
pub fn each_faulty_record_is_told()
    ensures of_record { (rs : List Fields) → All (IsFaultOfSome record_fault [] rs) (all_faults record_fault rs) }
    ensures told { (rs : List Fields) (y : PositionFault) → IsFaultOfSome record_fault [] rs y → Contains (all_faults record_fault rs) y }
    ensures memory { (rs : List Fields) → All (λ y. is_memory y ≡ false) (all_faults record_fault rs) }
{}

/// No record of a position file is reported twice: the reported record numbers are strictly rising.
pub fn no_record_is_told_twice()
    ensures { (rs : List Fields) → IsStrictlyRisingBy position_number (all_faults record_fault rs) }
{}

/// The fault of a record is the first of its possible faults whose test is true. There is none only if no test is true.
pub fn lowest_fault_counts()
    ensures first { (front rest : List (Bool × (ℕ → PositionFault))) (y : ℕ → PositionFault)
        → All (λ x. x.0 ≡ false) front → first_that_holds (front ++ (true, y) ∷ rest) ≡ Some y }
    ensures none { (faults : List (Bool × (ℕ → PositionFault))) → All (λ x. x.0 ≡ false) faults
        → first_that_holds faults ≡ None }
{}

/// A record of a new account is rejected exactly if the earlier counted records already have as many accounts as the
/// maximum.
pub fn accounts_are_limited()
    ensures refused { (earlier : List Fields) (account contract : List ℕ)
        → is_name account ≡ true → is_name contract ≡ true
        → is_among (map (λ x. text_at x 0) (counted earlier)) account ≡ false
        → length (distinct (map (λ x. text_at x 0) (counted earlier))) ≡ MAX_ACCOUNTS
        → record_fault earlier (account ∷ contract ∷ codes "1" ∷ []) ≡ Some fault.TooManyAccounts }
    ensures taken { (earlier : List Fields) (account contract : List ℕ)
        → is_name account ≡ true → is_name contract ≡ true
        → exceeds_accounts (counted earlier) (account ∷ contract ∷ codes "1" ∷ []) ≡ false
        → record_fault earlier (account ∷ contract ∷ codes "1" ∷ []) ≡ None }
{}

/// After bytes that end in a line feed and have no double quote, the records of further bytes are the same as by
/// themselves.
pub fn files_are_cut_at_lines()
    ensures { (first second : List ℕ) → EndsInLineFeed first → has_quote first ≡ false → BeginsWithNoMark second
        → records_of (first ++ second) ≡ records_of first ++ records_of second }
{}
