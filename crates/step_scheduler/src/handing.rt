//! Tasks, made from the values that a board stores.
ghost use Rattle.std.specs.Prelude.{◌≡◌, ◌<◌, IfOk, IfSome, IsSome, None, length, map};
ghost use Rattle.std.specs.Arc.{arc_value};
ghost use Rattle.step_scheduler.specs.Jobs.{inputs_for, meaning_at};
ghost use Rattle.step_scheduler.specs.near.Slots.{AreStored, CanBeGiven, HasAllValues, slot_at, value_at, value_in};

use crate::jobs::Job;
use crate::tasks::{Given, Task};
use plan_ir::values::Value;
use std::alloc::{AllocError, Global};
use std::sync::Arc;

// Returns the task of a step that can be handed out. The task has shared references to the job and to the values, which
// stay in their slots.
pub(crate) fn task_of(
    alloc: Global,
    job: &Arc<Job>,
    slots: &[Option<Arc<Value>>],
    step: u32,
) -> Result<Task, AllocError>
    requires { CanBeGiven (arc_value job.now) slots.now step }
    ensures { IfOk result (λ task. task
        ≡ record { job = arc_value job.now; step = step; inputs = inputs_for (arc_value job.now) step }) }
{
    let hold = Arc::try_clone(job)?;
    let found = hold_if_stored(&slots[step as usize])?;
    let inputs = holds_on(alloc, slots, job.plan().inputs(step as usize))?;
    Ok(Task::new(hold, step, Given { found, inputs }))
}

// Returns one more shared reference to the value in a slot, if there is one.
fn hold_if_stored(slot: &Option<Arc<Value>>) -> Result<Option<Arc<Value>>, AllocError>
    ensures { IfOk result (λ hold. IfSome hold (λ v. IsSome slot.now × (arc_value v ≡ value_in slot.now))) }
{
    match slot {
        Some(value) => Ok(Some(Arc::try_clone(value)?)),
        None => Ok(None),
    }
}

// Returns one more shared reference to the value of each listed step, in order.
fn holds_on(
    alloc: Global,
    slots: &[Option<Arc<Value>>],
    steps: &[u32],
) -> Result<Vec<Arc<Value>>, AllocError>
    requires { AreStored slots.now steps.now }
    ensures { IfOk result (λ values. map arc_value values.items ≡ map (value_at slots.now) steps.now) }
{
    let mut values = Vec::with_capacity(alloc, steps.len())?;
    for step in steps {
        values.push(Arc::try_clone(stored(slots, *step as usize))?)?;
    }
    Ok(values)
}

// Returns the stored value of a step.
fn stored(slots: &[Option<Arc<Value>>], step: usize) -> &Arc<Value>
    requires { IsSome (slot_at slots.now step) }
    ensures { arc_value result.now ≡ value_at slots.now step }
{
    match &slots[step] {
        Some(value) => value,
        None => unreachable!(),
    }
}

// Returns the value of a step, if the values of all steps are stored.
pub(crate) fn stored_value<'a>(job: &Job, slots: &'a [Option<Arc<Value>>], step: u32) -> &'a Value
    requires values { HasAllValues job.now slots.now }
    requires in_range { step < length job.now.set.plan }
    ensures { result.now ≡ meaning_at job.now step }
{
    stored(slots, step as usize)
}
