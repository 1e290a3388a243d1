//! Lemmas about the definitions, in the terms of the formats. Each is the contract of a function with an empty body.
#![tactic(auto, unfolding(crate::specs::near::OnLiterals::on_literals))]

ghost use Rattle.span_csv.specs.PositionFaults.{position_faults};
ghost use Rattle.span_tables.specs.Faults.{first_of};
ghost use Rattle.statement.specs.AllFaults.{faults_of, is_of_positions, is_of_reading_positions};
ghost use Rattle.statement.specs.Rolls.{roll_of, of_next_set};
ghost use Rattle.statement_text.specs.Statement.{accepted_of, statement_of};
ghost use Rattle.statement.specs.Margin.{margin_of};
ghost use Rattle.statement_text.specs.declared.faults.SpanFault.{SpanFault};
ghost use Rattle.statement_text.specs.declared.faults.SpanFault.TheVariants as fault;
ghost use Rattle.std.specs.Prelude.{◌++◌, ◌≡◌, ◌<◌, ◌≤◌, ◌↔◌, Err, List, None, Ok, Some, [], filter, is_ok};
ghost use Rattle.std.specs.Prelude.{map, true, ℕ};
ghost use Rattle.std.specs.List.{before_first};
ghost use Rattle.std.specs.Result.{result_err};

pub use statement_text::laws::{
    a_total_line_settles_the_value, accounts_stand_by_themselves, faults_come_in_order,
    lines_end_with_the_total, profile_1_has_no_option_values, want_of_memory_is_told_apart,
};

/// A number of workers that is 0 or over 16 is rejected, whatever the files contain. With any other number the result
/// is the statement or the fault of the two files.
#[tactic(auto, unfolding(crate::specs::Margin::margin_of))]
pub fn workers_change_nothing()
    ensures none { (params positions : List ℕ) → margin_of 0 params positions ≡ Err fault.Workers }
    ensures many { (workers : ℕ) (params positions : List ℕ) → 16 < workers
        → margin_of workers params positions ≡ Err fault.Workers }
    ensures some { (workers : ℕ) (params positions : List ℕ) → 0 < workers → workers ≤ 16
        → margin_of workers params positions ≡ statement_of params positions }
{}

/// A roll fails with the fault of the first statement, or else with the fault of the second, under its name for the
/// next parameter set. If there are both statements, the second follows the first.
#[tactic(auto, unfolding(crate::specs::Rolls::roll_of))]
pub fn a_roll_is_two_statements()
    ensures first { (workers : ℕ) (params next positions : List ℕ) (e : SpanFault)
        → margin_of workers params positions ≡ Err e → roll_of workers params next positions ≡ Err e }
    ensures second { (workers : ℕ) (params next positions first : List ℕ) (e : SpanFault)
        → margin_of workers params positions ≡ Ok first → statement_of next positions ≡ Err e
        → roll_of workers params next positions ≡ Err (of_next_set e) }
    ensures both { (workers : ℕ) (params next positions first second : List ℕ)
        → margin_of workers params positions ≡ Ok first → statement_of next positions ≡ Ok second
        → roll_of workers params next positions ≡ Ok (first ++ second) }
{}

/// The list of all faults is empty if and only if the files are accepted. Otherwise its first element is the fault for
/// which they are rejected. The same is true of a parameter file alone.
pub fn faults_are_none_or_begin_with_the_first()
    ensures both { (params positions : List ℕ)
        → first_of (faults_of params (Some positions)) ≡ result_err (statement_of params positions) }
    ensures none_of_both { (params positions : List ℕ)
        → (faults_of params (Some positions) ≡ []) ↔ (is_ok (statement_of params positions) ≡ true) }
    ensures params { (params : List ℕ) → first_of (faults_of params None) ≡ result_err (accepted_of params) }
    ensures none_of_params { (params : List ℕ) → (faults_of params None ≡ []) ↔ (is_ok (accepted_of params) ≡ true) }
{}

/// The faults of a parameter file alone are the faults of both files before the first fault of the positions.
pub fn faults_of_parameters_stand_in_front()
    ensures { (params positions : List ℕ)
        → before_first is_of_positions (faults_of params (Some positions)) ≡ faults_of params None }
{}

/// The faults of reading positions are the same with every parameter file: all faults of reading that the position file
/// has.
pub fn positions_are_read_beside_every_parameter_file()
    ensures file { (params positions : List ℕ) → filter is_of_reading_positions (faults_of params (Some positions))
        ≡ map fault.Positions (position_faults positions) }
    ensures every { (params others positions : List ℕ) → filter is_of_reading_positions (faults_of params (Some positions))
        ≡ filter is_of_reading_positions (faults_of others (Some positions)) }
{}
