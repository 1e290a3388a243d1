//! Test vectors for plans, computed by the definitions alone.
#![tactic(auto, unfolding(crate::specs::near::OnLiterals::plans_on_literals))]

ghost use Rattle.std.specs.Prelude.{◌≡◌, [], ◌∷◌, codes};
ghost use Rattle.span_tables.specs.near.Samples.{small_file, value_set};
ghost use Rattle.span_tables.specs.Tables.{tables_of};
ghost use Rattle.plan_ir.specs.Plans.{inputs_in, users_of};
ghost use Rattle.plan_ir.specs.declared.ops.Op.TheVariants as operation;
ghost use Rattle.plan_compiler.specs.Places.{plan_of};
ghost use Rattle.plan_compiler.specs.Plan.{ops_of};
ghost use Rattle.plan_compiler.specs.near.Samples.{two_commodities};

// Without commodities the only steps are the first ones between commodities, of the total, and of the option value.
fn plan_of_a_set_alone()
    ensures { ops_of (tables_of (value_set (codes "D2") ∷ []))
        ≡ operation.InterStart ∷ operation.TotalStart ∷ operation.ValueStart ∷ [] }
{}

// Two spreads of the first commodity and one between both commodities. Each spread reads the state before it, and later
// steps read the state after all spreads. Two steps read the last state between commodities.
fn plan_with_spreads()
    ensures inputs { inputs_in (plan_of (tables_of small_file))
        ≡ [] ∷ (0 ∷ []) ∷ (1 ∷ []) ∷ (0 ∷ []) ∷ (3 ∷ [])
        ∷ (4 ∷ []) ∷ (5 ∷ []) ∷ (3 ∷ 6 ∷ []) ∷ (0 ∷ []) ∷ (2 ∷ 6 ∷ 7 ∷ 8 ∷ 21 ∷ [])
        ∷ [] ∷ (10 ∷ []) ∷ (11 ∷ []) ∷ (10 ∷ []) ∷ (13 ∷ [])
        ∷ (13 ∷ 14 ∷ []) ∷ (10 ∷ []) ∷ (12 ∷ 14 ∷ 15 ∷ 16 ∷ 21 ∷ [])
        ∷ [] ∷ (18 ∷ 3 ∷ 2 ∷ []) ∷ (19 ∷ 13 ∷ 12 ∷ []) ∷ (20 ∷ [])
        ∷ [] ∷ (22 ∷ 9 ∷ []) ∷ (23 ∷ 17 ∷ []) ∷ [] }
    ensures users { users_of (plan_of (tables_of small_file)) 21 ≡ 9 ∷ 17 ∷ [] }
{}

// Of the plan of two commodities with a spread between them: the steps that read the held contracts of the first
// commodity, and the steps that read the last state between commodities.
fn users_of_two_commodities()
    ensures first { users_of (plan_of (tables_of two_commodities)) 0 ≡ 1 ∷ 3 ∷ 6 ∷ [] }
    ensures last { users_of (plan_of (tables_of two_commodities)) 19 ≡ 7 ∷ 15 ∷ [] }
{}
