//! Counters of missing inputs, and the list of ready steps.
ghost use Rattle.std.specs.Prelude.{◌≡◌, ◌++◌, ◌∷◌, [], ◌-◌, IfOk, MatchOption, length, replicate, take, vec_capacity};
ghost use Rattle.step_scheduler.specs.declared.progress.Progress.TheVariants.{Waiting};
ghost use Rattle.step_scheduler.specs.near.Counts.{CanBeReleased, CountsSteps, Released};

use plan_compiler::set::CompiledSet;
use std::alloc::{AllocError, Global};

// Returns the last number of the list.
pub(crate) fn last_of(ready: &[u32]) -> Option<u32>
    ensures { MatchOption result (ready.now ≡ []) (λ k. ready.now ≡ take (length ready.now - 1) ready.now ++ k ∷ []) }
{
    if ready.is_empty() {
        return None;
    }
    Some(ready[ready.len() - 1])
}

// Returns the counters of a plan in which no step has its value, and the list of the steps that miss no input.
pub(crate) fn counters(alloc: Global, set: &CompiledSet) -> Result<(Vec<u8>, Vec<u32>), AllocError>
    ensures { IfOk result (λ r. CountsSteps set.now.plan (replicate (length set.now.plan) Waiting)
        r.0.items r.1.items (vec_capacity r.1)) }
{
    let count = set.plan().len();
    let mut missing = Vec::with_capacity(alloc, count)?;
    missing.extend_from_slice(set.missing())?;
    let mut ready = Vec::with_capacity(alloc, count)?;
    ready.extend_from_slice(set.ready())?;
    Ok((missing, ready))
}

// Counts down the users of a finished step, and adds the users that miss no input any more to the list.
//
// Users are added from the last to the first. The list is a stack, so the user with the lowest number is handed out
// first.
pub(crate) fn release(users: &[u32], missing: &mut Vec<u8>, ready: &mut Vec<u32>)
    requires { CanBeReleased users.now missing.old.items ready.old.items (vec_capacity ready.old) }
    ensures { Released users.now missing.old.items missing.new.items ready.old.items ready.new.items
        (vec_capacity ready.old) (vec_capacity ready.new) }
{
    for user in users.iter().rev() {
        let left = missing[*user as usize] - 1;
        missing[*user as usize] = left;
        if left == 0 {
            ready.push_reserved(*user);
        }
    }
}
