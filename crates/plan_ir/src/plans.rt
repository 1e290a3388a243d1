//! Plans of steps.
ghost use Rattle.std.specs.Prelude.{◌≡◌, ◌==◌, ◌<◌, IfOk, length, slice_index_or};
ghost use Rattle.plan_ir.specs.Plans.{AreInputs, inputs_at, op_at, steps_with, users_of};

use crate::lists::NumberLists;
use crate::ops::Op;
use crate::users::collect_users;
use std::alloc::{AllocError, Global};
use std::marker::Model;

/// The largest number of steps of a plan. The plan of the largest parameter set has fewer.
pub const MAX_STEPS: usize = 12000;
/// The largest number of inputs of a step of a compiled plan. The step of a commodity's figures has this many.
pub const MAX_INPUTS: usize = 5;

/// A plan: steps numbered from 0, each an operation with the numbers of the steps that are its inputs.
///
/// The operations are in one vector. The inputs of all steps share one `NumberLists`, and the users another. Contracts
/// see the list of the steps.
#[derive(Drop)]
pub struct Plan {
    ops: Vec<Op>,
    inputs: NumberLists,
    users: NumberLists,
}

impl Model for Plan {
    ghost use Rattle.std.specs.Prelude.{List};
    ghost use Rattle.plan_ir.specs.Plans.{StepView, steps_with};
    ghost use Rattle.plan_ir.specs.near.Noting.{IsPlan};

    ghost Value = { List StepView };

    ghost view = { λ plan. steps_with plan.ops.items plan.inputs };

    ghost invariant = { λ plan. IsPlan plan.ops.items plan.inputs plan.users };
}

// The operation at an index.
fn op_in(ops: &[Op], place: usize) -> Op
    requires { place < length ops.now }
    ensures { (d : Op) → result ≡ slice_index_or ops.now place d }
{
    ops[place]
}

impl Plan {
    /// Returns the plan of these operations, each with its inputs. `Err` is out of memory.
    ///
    /// There must be one list of inputs for each operation. A list has numbers of steps of this plan, each at most
    /// once.
    pub fn new(alloc: Global, ops: Vec<Op>, inputs: NumberLists) -> Result<Plan, AllocError>
        requires { AreInputs ops.items inputs }
        ensures { IfOk result (λ plan. plan ≡ steps_with ops.items inputs) }
    {
        let users = collect_users(alloc, &inputs)?;
        Ok(Plan { ops, inputs, users })
    }

    /// Returns the number of steps.
    pub fn len(&self) -> usize
        ensures { result ≡ length self.now }
    {
        self.ops.as_slice().len()
    }

    /// Returns whether the plan has no steps.
    pub fn is_empty(&self) -> bool
        ensures { result ≡ (length self.now == 0) }
    {
        self.len() == 0
    }

    /// Returns the operation of step k.
    pub fn op(&self, k: usize) -> Op
        requires { k < length self.now }
        ensures { result ≡ op_at self.now k }
    {
        op_in(&self.ops, k)
    }

    /// Returns the inputs of step k, in their order.
    pub fn inputs(&self, k: usize) -> &[u32]
        requires { k < length self.now }
        ensures { result.now ≡ inputs_at self.now k }
    {
        self.inputs.at(k)
    }

    /// Returns the users of step k: the steps that have it among their inputs, in increasing order.
    pub fn users(&self, k: usize) -> &[u32]
        requires { k < length self.now }
        ensures { result.now ≡ users_of self.now k }
    {
        self.users.at(k)
    }
}
