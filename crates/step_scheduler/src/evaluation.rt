//! Evaluation of tasks.
ghost use Rattle.std.specs.Prelude.{◌≡◌, List, IfOk, IfSome, IsSome, map};
ghost use Rattle.std.specs.Arc.{arc_value};
ghost use Rattle.span_tables.specs.declared.portfolios.Holding.{Holding};
ghost use Rattle.plan_ir.specs.Apply.{Takes, value_on};
ghost use Rattle.step_scheduler.specs.Jobs.{meaning_at};
ghost use Rattle.step_scheduler.specs.near.Tasks.{IsTaskWith};

use crate::finished::Finished;
use crate::jobs::Job;
use crate::tasks::{Given, Task};
use plan_compiler::set::CompiledSet;
use plan_ir::evaluation::{apply, changes_nothing};
use plan_ir::ops::Op;
use plan_ir::values::Value;
use std::alloc::{AllocError, Global};
use std::sync::Arc;

/// Evaluates the step of a task. The result has the step's value, or no value if memory ran out.
pub fn evaluate(alloc: Global, task: Task) -> Finished
    ensures job { result.job ≡ task.job }
    ensures step { result.step ≡ task.step }
    ensures value { IfSome result.value (λ v. v ≡ meaning_at task.job task.step) }
{
    let Task { job, given, step } = task;
    let value = value_of(alloc, &job, step, given).ok();
    Finished { job, value, step }
}

// Evaluates the step of a task. Fails if memory runs out.
pub(crate) fn evaluated(alloc: Global, task: Task) -> Result<Finished, AllocError>
    ensures job { IfOk result (λ finished. finished.job ≡ task.job) }
    ensures step { IfOk result (λ finished. finished.step ≡ task.step) }
    ensures value { IfOk result (λ finished. IsSome finished.value) }
{
    let Task { job, given, step } = task;
    let value = value_of(alloc, &job, step, given)?;
    Ok(Finished {
        job,
        value: Some(value),
        step,
    })
}

// Returns the value of a step, from what its task is given: one more shared reference to a value that exists, or a new
// value.
fn value_of(
    alloc: Global,
    job: &Arc<Job>,
    step: u32,
    given: Given,
) -> Result<Arc<Value>, AllocError>
    requires { IsTaskWith (arc_value job.now) step given }
    ensures { IfOk result (λ v. arc_value v ≡ meaning_at (arc_value job.now) step) }
{
    let Given { found, inputs } = given;
    if let Some(value) = found {
        return Ok(value);
    }
    let set = job.set();
    let op = set.plan().op(step as usize);
    if let Some(value) = existing_value(set, op, inputs.as_slice()) {
        return Arc::try_clone(value);
    }
    let value = apply(alloc, set.tables(), job.portfolio(), &op, inputs.as_slice())?;
    Ok(Arc::new(alloc, value)?)
}

// Returns the value of an operation if it already exists. It is the first input if the operation changes nothing, and
// the parameter set's value for nothing held if nothing is held.
fn existing_value<'a>(
    set: &'a CompiledSet,
    op: Op,
    inputs: &'a [Arc<Value>],
) -> Option<&'a Arc<Value>>
    requires { Takes set.now.tables op (map arc_value inputs.now) }
    ensures { IfSome result (λ v. (holdings : List Holding)
        → arc_value v.now ≡ value_on set.now.tables holdings op (map arc_value inputs.now)) }
{
    match inputs {
        [] => None,
        [first, rest @ ..] if changes_nothing(set.tables(), op, first, rest) => Some(first),
        [first, ..] => set.nothing_held().value_for(op, first),
    }
}
