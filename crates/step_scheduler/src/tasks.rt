//! Tasks: steps that were handed out.
ghost use Rattle.std.specs.Prelude.{◌≡◌, ◌<◌, length};
ghost use Rattle.std.specs.Arc.{arc_value};
ghost use Rattle.step_scheduler.specs.near.Tasks.{IsTaskWith, task_with};

use crate::jobs::Job;
use plan_ir::values::Value;
use std::marker::Model;
use std::sync::Arc;

// What a step is evaluated from: its own value, if it was found when the board was opened, and the values of its inputs
// in order.
#[derive(Drop)]
pub(crate) struct Given {
    pub(crate) found: Option<Arc<Value>>,
    pub(crate) inputs: Vec<Arc<Value>>,
}

/// A step that is to be evaluated, with the values of its inputs. Only a board hands out tasks.
#[derive(Drop)]
pub struct Task {
    pub(crate) job: Arc<Job>,
    pub(crate) given: Given,
    pub(crate) step: u32,
}

impl Model for Task {
    ghost use Rattle.std.specs.Arc.{arc_value};
    ghost use Rattle.step_scheduler.specs.Jobs.{TaskView};
    ghost use Rattle.step_scheduler.specs.near.Tasks.{IsTaskWith, task_with};

    ghost Value = { TaskView };

    ghost view = { λ t. task_with (arc_value t.job) t.step t.given };

    ghost invariant = { λ t. IsTaskWith (arc_value t.job) t.step t.given };
}

impl Task {
    // Creates the task of a step from what the step is given.
    pub(crate) fn new(job: Arc<Job>, step: u32, given: Given) -> Task
        requires { IsTaskWith (arc_value job) step given }
        ensures { result ≡ task_with (arc_value job) step given }
    {
        Task { job, given, step }
    }

    /// Returns the job.
    pub fn job(&self) -> &Arc<Job>
        ensures { arc_value result.now ≡ self.now.job }
    {
        &self.job
    }

    /// Returns the step's number in the plan.
    pub fn step(&self) -> usize
        ensures value { result ≡ self.now.step }
        ensures in_range { result < length self.now.job.set.plan }
    {
        self.step as usize
    }
}
