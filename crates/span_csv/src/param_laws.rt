//! Lemmas on the definitions of a parameter file, in the terms of the format. Each is the contract of a function with
//! an empty body.
ghost use Rattle.std.specs.Prelude.{◌≡◌, ◌∷◌, ℕ, All, Contains, Err, List, [], Ok, Some, None, false, map};
ghost use Rattle.span_csv.specs.Laws.{param_number};
ghost use Rattle.span_csv.specs.ParamFaults.{faults_in, is_memory, param_faults, params_of, record_fault};
ghost use Rattle.span_csv.specs.Records.{Fields, param_record, records_of};
ghost use Rattle.span_csv.specs.declared.faults.ParamFault.{ParamFault};
ghost use Rattle.span_tables.specs.Faults.{first_of};
ghost use Rattle.span_tables.specs.Laws.{IsFaultFree, IsFaultOfSome, IsFirstFault, IsStrictlyRisingBy};
ghost use Rattle.span_tables.specs.Profiles.{facts_of};
ghost use Rattle.span_tables.specs.Rules.{contracts_in};
ghost use Rattle.span_tables.specs.Tables.{profile_in};
ghost use Rattle.span_tables.specs.declared.records.Record.{Record};

/// The fault of a parameter file is the fault of the first record that has one. There is no fault only if no record has
/// one.
pub fn first_faulty_record_counts()
    ensures first { (r : Fields) (rs : List Fields) (y : ParamFault) → first_of (faults_in (r ∷ rs)) ≡ Some y
        → IsFirstFault record_fault [] (r ∷ rs) y }
    ensures none { (r : Fields) (rs : List Fields) → first_of (faults_in (r ∷ rs)) ≡ None
        → IsFaultFree record_fault [] (r ∷ rs) }
    ensures free { (r : Fields) (rs : List Fields) → IsFaultFree record_fault [] (r ∷ rs)
        → first_of (faults_in (r ∷ rs)) ≡ None }
{}

/// The list of all faults of a parameter file is empty exactly if the file is accepted. Otherwise the file is rejected
/// with the first of them.
pub fn first_of_all_refuses()
    ensures read { (bytes : List ℕ) (records : List Record) → params_of bytes ≡ Ok records → param_faults bytes ≡ [] }
    ensures none { (bytes : List ℕ) → param_faults bytes ≡ []
        → params_of bytes ≡ Ok (map param_record (records_of bytes)) }
    ensures refused { (bytes : List ℕ) (y : ParamFault) → params_of bytes ≡ Err y → first_of (param_faults bytes) ≡ Some y }
{}

/// Each reported fault of a parameter file is the fault of one of its records, and each record with a fault is
/// reported.
pub fn each_faulty_record_is_told()
    ensures of_record { (r : Fields) (rs : List Fields) → All (IsFaultOfSome record_fault [] (r ∷ rs)) (faults_in (r ∷ rs)) }
    ensures told { (r : Fields) (rs : List Fields) (y : ParamFault) → IsFaultOfSome record_fault [] (r ∷ rs) y
        → Contains (faults_in (r ∷ rs)) y }
    ensures memory { (rs : List Fields) → All (λ y. is_memory y ≡ false) (faults_in rs) }
{}

/// No record of a parameter file is reported twice: the reported record numbers are strictly rising.
pub fn no_record_is_told_twice()
    ensures { (rs : List Fields) → IsStrictlyRisingBy param_number (faults_in rs) }
{}

/// Contracts have an option value only under the profiles with option values: in a file of another profile it is 0.
#[tactic(auto, using(crate::proofs::ProfileLaws::params_values))]
pub fn option_values_need_their_profile()
    ensures { (bytes : List ℕ) (records : List Record) → params_of bytes ≡ Ok records
        → (facts_of (profile_in records)).options_have_value ≡ false → All (λ x. x.extras.option_value ≡ 0) (contracts_in records) }
{}
