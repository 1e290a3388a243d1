//! The conditions on raw tables that an accepted parameter file meets, in the terms of these tables.
ghost use Rattle.std.specs.Prelude.{◌≡◌, ℕ, List, Ok, true};
ghost use Rattle.span_csv.specs.ParamFaults.{params_of};
ghost use Rattle.span_tables.specs.near.Limits.{is_readable};
ghost use Rattle.span_tables.specs.declared.records.Record.{Record};

/// The records of a parameter file without a fault begin with its only SET and are in their ranges. Each kind has no
/// more records than its limit, and contracts have option values only under a profile that has them.
#[tactic(auto, using(crate::proofs::ReadableLaws::params_readable))]
pub fn accepted_files_are_readable()
    ensures { (bytes : List ℕ) (records : List Record) → params_of bytes ≡ Ok records
        → is_readable records ≡ true }
{}
