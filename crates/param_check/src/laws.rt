//! Lemmas on the rules, in the terms of the methodology. Each is the contract of a function with an empty body.
ghost use Rattle.std.specs.Prelude.{◌≡◌, ℕ, true, map};
ghost use Rattle.std.specs.Prelude.{Bool, List, [], Some, None, if◌then◌else◌, zip};
ghost use Rattle.param_check.specs.CheckFaults.{check_fault, rule_names};
ghost use Rattle.param_check.specs.declared.faults.CheckFault.{CheckFault};
ghost use Rattle.span_tables.specs.Laws.{IsFirstFault, IsFirstOutcome};
ghost use Rattle.span_tables.specs.Rules.{first_breaking, keeps_rules, rules};
ghost use Rattle.span_tables.specs.declared.records.Record.{Record};

/// The fault of a check belongs to the first rule that some record breaks, and names the first record that breaks it.
pub fn first_broken_rule_counts()
    ensures first { (fault : ℕ → CheckFault) (breaks : List Record → Record
        → Bool) (all : List Record) (y : CheckFault) → first_breaking fault breaks all ≡ Some y
        → IsFirstFault (λ earlier r. if breaks earlier r then Some fault else None) [] all y }
    ensures rule { (all : List Record) (y : CheckFault) → check_fault all ≡ Some y
        → IsFirstOutcome (map (λ named. first_breaking named.0 named.1 all) (zip rule_names (rules all))) y }
{}

/// Records without a fault of the check keep every rule.
pub fn accepted_records_keep_the_rules()
    ensures { (all : List Record) → check_fault all ≡ None → keeps_rules all ≡ true }
{}
