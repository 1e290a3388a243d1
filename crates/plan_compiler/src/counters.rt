//! The counters at the start of a run of a plan. They are counted once for all runs.
ghost use Rattle.std.specs.Prelude.{◌<◌, ◌≤◌, ℕ, IfOk, length};
ghost use Rattle.plan_ir.specs.Plans.{inputs_at};
ghost use Rattle.plan_ir.specs.declared.plans.TheConstants.{MAX_INPUTS, MAX_STEPS};
ghost use Rattle.plan_compiler.specs.near.Beginnings.{AreInputCounts, AreWithoutInputs};

use plan_ir::plans::Plan;
use std::alloc::{AllocError, Global};

// The number of inputs of each step.
fn input_counts(alloc: Global, plan: &Plan) -> Result<Vec<u8>, AllocError>
    requires { (k : ℕ) → k < length plan.now → length (inputs_at plan.now k) ≤ MAX_INPUTS }
    ensures { IfOk result (λ counts. AreInputCounts plan.now counts.items (length plan.now)) }
{
    let mut counts = Vec::with_capacity(alloc, plan.len())?;
    for k in 0..plan.len() {
        counts.push_reserved(plan.inputs(k).len() as u8);
    }
    Ok(counts)
}

// The steps without inputs, from the highest number to the lowest.
fn without_inputs(alloc: Global, plan: &Plan) -> Result<Vec<u32>, AllocError>
    requires { length plan.now ≤ MAX_STEPS }
    ensures { IfOk result (λ steps. AreWithoutInputs plan.now steps.items (length plan.now)) }
{
    let mut steps = Vec::new(alloc);
    for k in (0..plan.len()).rev() {
        let inputs = plan.inputs(k).len();
        if inputs == 0 {
            steps.push(k as u32)?;
        }
    }
    Ok(steps)
}

/// Returns the number of inputs of each step, and the steps without inputs, from the highest number to the lowest.
pub(crate) fn beginnings(alloc: Global, plan: &Plan) -> Result<(Vec<u8>, Vec<u32>), AllocError>
    requires few_steps { length plan.now ≤ MAX_STEPS }
    requires few_inputs { (k : ℕ) → k < length plan.now → length (inputs_at plan.now k) ≤ MAX_INPUTS }
    ensures counts { IfOk result (λ counted. AreInputCounts plan.now counted.0.items (length plan.now)) }
    ensures without { IfOk result (λ counted. AreWithoutInputs plan.now counted.1.items (length plan.now)) }
{
    let counts = input_counts(alloc, plan)?;
    let without = without_inputs(alloc, plan)?;
    Ok((counts, without))
}
