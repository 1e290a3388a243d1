//! Test vectors for texts, users and figures, computed by the definitions. Each is the contract of a function with an
//! empty body.
#![tactic(auto, unfolding(crate::specs::near::OnLiterals::on_literals))]

ghost use Rattle.std.specs.Prelude.{◌≡◌, [], ◌∷◌, codes, pos};
ghost use Rattle.plan_ir.specs.Figures.{figures_from, figures_with};
ghost use Rattle.plan_ir.specs.Listing.{plan_text};
ghost use Rattle.plan_ir.specs.Plans.{inputs_at, op_at, users_of};
ghost use Rattle.plan_ir.specs.near.Samples.{scan, small_plan, states, step, tiers};
ghost use Rattle.plan_ir.specs.declared.ops.Op.TheVariants as op;

// A plan whose first step is an input of two other steps.
fn text_of_a_plan()
    ensures { plan_text (step (op.Gather 0) [] ∷ step (op.Sums 0) (0 ∷ []) ∷ step (op.Spread 3 10) (1 ∷ 0 ∷ []) ∷ [])
        ≡ codes "0 Gather(0)\n1 Sums(0) 0\n2 Spread(3,10) 1 0\n" }
{}

// A step with two users, and a step used by an earlier one.
fn steps_of_a_small_plan()
    ensures two { users_of small_plan 0 ≡ 1 ∷ 2 ∷ [] }
    ensures one_before { users_of small_plan 3 ≡ 2 ∷ [] }
    ensures operation { op_at small_plan 2 ≡ op.Final 0 }
    ensures inputs { inputs_at small_plan 2 ≡ 1 ∷ 0 ∷ 3 ∷ [] }
{}

// A charge of 83.325 is rounded up.
fn figures_of_a_commodity()
    ensures { figures_from scan tiers.charge (pos 40) (pos 500) states 0
        ≡ figures_with (pos 1200) 13 (pos 84) (pos 40) (pos 600) (pos 500) (pos 724) }
{}
