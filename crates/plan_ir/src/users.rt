//! The users of a plan's steps: the steps that have a step among their inputs.
ghost use Rattle.std.specs.Prelude.{◌≡◌, ◌==◌, ◌<◌, ◌≤◌, All, IfOk, OnOk, false, length, map};
ghost use Rattle.span_tables.specs.Names.{has_repeat};
ghost use Rattle.plan_ir.specs.declared.plans.TheConstants.{MAX_STEPS};
ghost use Rattle.plan_ir.specs.near.Noting.{noted, places_of_all};

use crate::lists::NumberLists;
use span_tables::groups::{empty_lists, push_at};
use std::alloc::{AllocError, Global};

// Appends a step to the list of each of its inputs.
fn note(users: &mut Vec<Vec<u32>>, inputs: &[u32], step: u32) -> Result<(), AllocError>
    requires { All (λ i. i < length users.old.items) inputs.now }
    ensures noted { OnOk result (map (λ v. v.items) users.new.items ≡ noted step inputs.now (map (λ v. v.items) users.old.items)) }
    ensures len { OnOk result (length users.new.items ≡ length users.old.items) }
{
    for input in inputs {
        push_at(users, *input as usize, step)?;
    }
    Ok(())
}

// The users of each step, in a separate list for each.
fn users_by_step(alloc: Global, inputs: &NumberLists) -> Result<Vec<Vec<u32>>, AllocError>
    requires few { length inputs.now ≤ MAX_STEPS }
    requires in_range { All (λ list. All (λ i. i < length inputs.now) list) inputs.now }
    requires distinct { All (λ list. has_repeat (λ a b. a == b) list ≡ false) inputs.now }
    ensures { IfOk result (λ users. map (λ v. v.items) users.items ≡ places_of_all (length inputs.now) inputs.now) }
{
    let mut users = empty_lists(alloc, inputs.len())?;
    for step in 0..inputs.len() {
        note(&mut users, inputs.at(step), step as u32)?;
    }
    Ok(users)
}

// Packs lists one after another.
fn pack(alloc: Global, lists: &[Vec<u32>]) -> Result<NumberLists, AllocError>
    ensures { IfOk result (λ packed. packed ≡ map (λ v. v.items) lists.now) }
{
    let mut packed = NumberLists::new(alloc);
    for list in lists {
        packed.push(list)?;
    }
    Ok(packed)
}

// The users of each step: the steps that have it among their inputs, in increasing order.
pub(crate) fn collect_users(alloc: Global, inputs: &NumberLists) -> Result<NumberLists, AllocError>
    requires few { length inputs.now ≤ MAX_STEPS }
    requires in_range { All (λ list. All (λ i. i < length inputs.now) list) inputs.now }
    requires distinct { All (λ list. has_repeat (λ a b. a == b) list ≡ false) inputs.now }
    ensures { IfOk result (λ users. users ≡ places_of_all (length inputs.now) inputs.now) }
{
    let users = users_by_step(alloc, inputs)?;
    pack(alloc, &users)
}
