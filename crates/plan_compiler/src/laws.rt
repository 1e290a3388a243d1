//! Lemmas about plans (docs/METHOD.md, "The plan of steps"). Each is the contract of a function with an empty body.
ghost use Rattle.span_tables.specs.Accepted.{IsWithinLimits};
ghost use Rattle.span_tables.specs.Tables.{AcceptedTables, facts_in};
ghost use Rattle.std.specs.Prelude.{◌≡◌, ◌+◌, ◌*◌, ◌≤◌, false, length};
ghost use Rattle.span_tables.specs.declared.limits.TheConstants.{MAX_COMMODITIES, MAX_INTER_SPREADS, MAX_INTRA_SPREADS};
ghost use Rattle.plan_ir.specs.declared.plans.TheConstants.{MAX_STEPS};
ghost use Rattle.plan_compiler.specs.Compiled.{IsCompiled};
ghost use Rattle.plan_compiler.specs.Places.{plan_of};
ghost use Rattle.plan_compiler.specs.Plan.{IsPlanOf};

/// Each input of a step is the number of the step with the operation that the step requires there.
#[tactic(auto, using(crate::proofs::PlanLaw::plan_is_wired))]
pub fn inputs_are_what_is_wanted()
    ensures { (t : AcceptedTables) → IsPlanOf t (plan_of t) }
{}

/// The plan of tables within their limits keeps the plan law.
pub fn plans_keep_the_plan_law()
    ensures { (t : AcceptedTables) → IsWithinLimits t → IsCompiled (record { tables = t; plan = plan_of t }) }
{}

/// No plan has more steps than the plan of the largest allowed numbers of commodities and spreads. If options have a
/// value, each commodity has two more steps, and one more step follows the total. Both bounds are within the limit of
/// plans.
#[tactic(auto, using(crate::proofs::PlanLaw::plan_is_short, crate::proofs::PlanLaw::value_plan_is_short))]
pub fn the_largest_plan_fits()
    ensures largest { (t : AcceptedTables) → IsWithinLimits t → (facts_in t).options_have_value ≡ false
        → length (plan_of t) ≤ MAX_COMMODITIES * (10 + MAX_INTRA_SPREADS) + 1 + MAX_INTER_SPREADS + 1 }
    ensures largest_of_values { (t : AcceptedTables) → IsWithinLimits t
        → length (plan_of t) ≤ MAX_COMMODITIES * (12 + MAX_INTRA_SPREADS) + 1 + MAX_INTER_SPREADS + 1 + 1 }
    ensures fits { MAX_COMMODITIES * (12 + MAX_INTRA_SPREADS) + 1 + MAX_INTER_SPREADS + 1 + 1 ≤ MAX_STEPS }
{}
