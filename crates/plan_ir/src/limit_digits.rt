//! The limits of plans as literal numbers. A change of a limit in `plans` needs the same change here.
ghost use Rattle.std.specs.Prelude.{◌≡◌};
ghost use Rattle.plan_ir.specs.declared.plans.TheConstants.{MAX_INPUTS, MAX_STEPS};

/// The largest number of steps of a plan, and of inputs of a step of a compiled plan.
pub fn plans_have_these_digits()
    ensures steps { MAX_STEPS ≡ 12000 }
    ensures inputs { MAX_INPUTS ≡ 5 }
{}
