//! Courses: recorded runs of the plan of a parameter set, each made once for the set.
ghost use Rattle.std.specs.Prelude.{◌≡◌, IfOk};
ghost use Rattle.std.specs.Arc.{arc_value};
ghost use Rattle.span_tables.specs.Tables.{inters_of};
ghost use Rattle.spread_stage.specs.near.SetPlans.{ArePlans};
ghost use Rattle.inter_credit.specs.near.Index.{IsIndex};
ghost use Rattle.step_scheduler.specs.Runs.{AllFinished, IsRun};
ghost use Rattle.step_scheduler.specs.near.Whole.{IsCourse};

use crate::events::Event;
use inter_credit::index::SpreadIndex;
use plan_compiler::set::CompiledSet;
use spread_stage::set_plans::plans_of;
use spread_stage::tier_plans::TierPlan;
use std::alloc::{AllocError, Global};
use std::marker::Model;
use std::sync::Arc;

/// A run of the plan of a parameter set in which every step is taken and finished, made for an account that holds
/// nothing. It is a run for every account, since which step may come next does not depend on what is held.
#[derive(Drop)]
pub struct Course {
    set: Arc<CompiledSet>,
    events: Arc<Vec<Event>>,
    // The tiers and the spreads of each commodity, by commodity number.
    plans: Vec<TierPlan>,
    // The index of the spreads between commodities.
    index: SpreadIndex,
}

impl Model for Course {
    ghost use Rattle.std.specs.Arc.{arc_value};
    ghost use Rattle.span_tables.specs.Tables.{inters_of};
    ghost use Rattle.inter_credit.specs.near.Index.{IsIndex};
    ghost use Rattle.step_scheduler.specs.Boards.{CourseView};
    ghost use Rattle.spread_stage.specs.near.SetPlans.{ArePlans};
    ghost use Rattle.step_scheduler.specs.near.Whole.{IsCourse};

    ghost Value = { CourseView };

    ghost view = { λ c. record { set = arc_value c.set; events = (arc_value c.events).items } };

    ghost invariant = { λ c. IsCourse (arc_value c.set) (arc_value c.events).items
        × ArePlans (arc_value c.set).tables c.plans.items
        × IsIndex c.index (inters_of (arc_value c.set).tables) };
}

impl Course {
    /// Creates the course of a parameter set from its events. Fails if memory runs out.
    pub(crate) fn with_events(
        alloc: Global,
        set: Arc<CompiledSet>,
        events: Vec<Event>,
    ) -> Result<Course, AllocError>
        requires { IsCourse (arc_value set) events.items }
        ensures { IfOk result (λ c. c.set ≡ arc_value set) }
    {
        let tables = set.tables();
        let plans = plans_of(alloc, tables)?;
        let index = SpreadIndex::new(alloc, tables.inters())?;
        let events = Arc::new(alloc, events)?;
        Ok(Course {
            set,
            events,
            plans,
            index,
        })
    }

    /// Returns the same course of another compiled set, which has its own values for nothing held. Threads that run
    /// accounts by one course would wait for each other when they count references to its parts. Fails if memory runs
    /// out.
    pub fn with_own_parts(&self, alloc: Global) -> Result<Course, AllocError>
        ensures { IfOk result (λ c. c.set ≡ self.now.set) }
    {
        let set = Arc::new(alloc, self.set.with_own_constants(alloc)?)?;
        let events = Vec::from_slice(alloc, self.events.as_slice())?;
        Course::with_events(alloc, set, events)
    }

    /// Returns the parameter set.
    pub fn set(&self) -> &Arc<CompiledSet>
        ensures { arc_value result.now ≡ self.now.set }
    {
        &self.set
    }

    // Returns the index of the spreads between commodities.
    pub(crate) fn index(&self) -> &SpreadIndex
        ensures { IsIndex result.now (inters_of self.now.set.tables) }
    {
        &self.index
    }

    // Returns the plan of each commodity, by commodity number.
    pub(crate) fn plans(&self) -> &[TierPlan]
        ensures { ArePlans self.now.set.tables result.now }
    {
        &self.plans
    }

    // Returns one more shared reference to the events.
    pub(crate) fn share_events(&self) -> Result<Arc<Vec<Event>>, AllocError>
        ensures { IfOk result (λ events. (arc_value events).items ≡ self.now.events) }
    {
        Arc::try_clone(&self.events)
    }

    /// Returns the events of the run, in order.
    pub fn events(&self) -> &[Event]
        ensures events { result.now ≡ self.now.events }
        ensures run { IsRun self.now.set.plan self.now.events }
        ensures all { AllFinished self.now.set.plan self.now.events }
    {
        self.events.as_slice()
    }
}
