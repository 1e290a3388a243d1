//! The values that are known when a board is opened.
ghost use Rattle.std.specs.Prelude.{◌≡◌, IfOk, None, length, replicate};
ghost use Rattle.std.specs.Arc.{arc_value};
ghost use Rattle.plan_ir.specs.declared.values.Value.TheVariants as value;
ghost use Rattle.step_scheduler.specs.near.Slots.{StoresMeanings};

use crate::jobs::Job;
use plan_compiler::set::CompiledSet;
use plan_ir::values::Value;
use span_tables::held::{OwnedHeld, gather_all};
use std::alloc::{AllocError, Global};
use std::sync::Arc;

// Returns a list of `count` empty slots.
fn empty(alloc: Global, count: usize) -> Result<Vec<Option<Arc<Value>>>, AllocError>
    ensures { IfOk result (λ v. v.items ≡ replicate count None) }
{
    let mut slots = Vec::with_capacity(alloc, count)?;
    for _ in 0..count {
        slots.push_reserved(None);
    }
    Ok(slots)
}

// Returns held contracts as a value. If there are none, this is the parameter set's shared value for nothing held.
fn as_value(alloc: Global, set: &CompiledSet, held: OwnedHeld) -> Result<Arc<Value>, AllocError>
    ensures { IfOk result (λ v. arc_value v ≡ value.Held held) }
{
    if held.is_empty() {
        Arc::try_clone(set.nothing_held().held())
    } else {
        Ok(Arc::new(alloc, Value::Held(held))?)
    }
}

// Returns the slots for the values of a job's steps. The held contracts of each commodity are stored already, since one
// pass over the holdings finds them.
pub(crate) fn found_values(alloc: Global, job: &Job) -> Result<Vec<Option<Arc<Value>>>, AllocError>
    ensures long { IfOk result (λ v. length v.items ≡ length job.now.set.plan) }
    ensures means { IfOk result (λ v. StoresMeanings job.now v.items) }
{
    let set = job.set();
    set.tables().known();
    let held = gather_all(alloc, set.tables(), job.portfolio())?;
    let mut slots = empty(alloc, set.plan().len())?;
    let mut commodity = 0;
    for of_commodity in held {
        let step = set.gather_step(commodity);
        slots[step as usize] = Some(as_value(alloc, set, of_commodity)?);
        commodity += 1;
    }
    Ok(slots)
}
