//! Steps with their values.
ghost use Rattle.std.specs.Prelude.{◌≡◌, ◌<◌, IfSome, MatchOption, None, Some, length};
ghost use Rattle.std.specs.Arc.{arc_value};
ghost use Rattle.std.specs.Option.{option_map};
ghost use Rattle.step_scheduler.specs.Jobs.{meaning_at};

use crate::jobs::Job;
use plan_ir::values::Value;
use std::marker::Model;
use std::sync::Arc;

/// A step with its value, or with the flag that memory ran out for the value.
///
/// [`evaluate`](crate::evaluation::evaluate) creates it. The run that makes a course also creates it, always with a
/// value.
#[derive(Drop)]
pub struct Finished {
    pub(crate) job: Arc<Job>,
    pub(crate) value: Option<Arc<Value>>,
    pub(crate) step: u32,
}

impl Model for Finished {
    ghost use Rattle.std.specs.Option.{option_map};
    ghost use Rattle.std.specs.Arc.{arc_value};
    ghost use Rattle.step_scheduler.specs.Jobs.{FinishedView, IsFinishedStep};

    ghost Value = { FinishedView };

    ghost view = { λ f. record { job = arc_value f.job; step = f.step; value = option_map arc_value f.value } };

    ghost invariant = { λ f. IsFinishedStep (record {
      job = arc_value f.job;
      step = f.step;
      value = option_map arc_value f.value;
    }) };
}

impl Finished {
    /// Returns the job.
    pub fn job(&self) -> &Arc<Job>
        ensures { arc_value result.now ≡ self.now.job }
    {
        &self.job
    }

    /// Returns the step's number in the plan.
    pub fn step(&self) -> usize
        ensures value { result ≡ self.now.step }
        ensures in_range { result < length self.now.job.set.plan }
    {
        self.step as usize
    }

    /// Returns the step's value, or `None` if memory ran out for it.
    pub fn value(&self) -> Option<&Value>
        ensures { MatchOption result (self.now.value ≡ None) (λ v. self.now.value ≡ Some v.now) }
    {
        self.value.as_deref()
    }

    // Returns the step and its value.
    pub(crate) fn into_parts(self) -> (u32, Option<Arc<Value>>)
        ensures step { result.0 ≡ self.step }
        ensures value { option_map arc_value result.1 ≡ self.value }
        ensures in_range { self.step < length self.job.set.plan }
        ensures right { IfSome result.1 (λ v. arc_value v ≡ meaning_at self.job self.step) }
    {
        (self.step, self.value)
    }
}
