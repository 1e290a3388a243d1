//! Whole runs, which execute every step of a job's plan in one call.
ghost use Rattle.std.specs.Prelude.{◌≡◌, IfOk};
ghost use Rattle.std.specs.Arc.{arc_value};
ghost use Rattle.step_scheduler.specs.near.Whole.{HasResults};

use crate::courses::Course;
use crate::events::Event;
use crate::held_figures::HeldFigures;
use crate::jobs::Job;
use crate::parts::{figures_of_all, find_parts, load_all, total_of, value_of_all};
use crate::run_memory::RunMemory;
use crate::watches::{Upcoming, Watch};
use span_money::amounts::Money;
use std::alloc::{AllocError, Global};
use std::sync::Arc;

// The results of a whole run: the events of its course, which it shares, the figures of all commodities, the total and
// the option value, in minor units. No other value is stored.
#[derive(Drop)]
pub(crate) struct Whole {
    pub(crate) events: Arc<Vec<Event>>,
    pub(crate) figures: HeldFigures,
    pub(crate) total: Money,
    pub(crate) value: Money,
}

impl Whole {
    // Runs a job in the order of the course of its parameter set. Calls the watch for the upcoming steps: for
    // the steps of a commodity in front of its part, for the steps between commodities in front of the spreads, for the
    // others in front of the figures. Fails if memory runs out.
    pub(crate) fn new<W: Watch>(
        alloc: Global,
        job: &Job,
        course: &Course,
        upcoming: &mut Upcoming<'_, W>,
        memory: &mut RunMemory,
    ) -> Result<Whole, AllocError>
        requires { course.now.set ≡ job.now.set }
        ensures events { IfOk result (λ whole. (arc_value whole.events).items ≡ course.now.events) }
        ensures results { IfOk result (λ whole. HasResults job.now whole) }
    {
        let tables = job.set().tables();
        let portfolio = job.portfolio();
        find_parts(tables, course.plans(), portfolio, upcoming, memory)?;
        let RunMemory { parts, states, .. } = memory;
        upcoming.pass_groups(tables.commodities().len() + 1);
        load_all(alloc, tables, portfolio, parts, states)?;
        states.spread_all(course.index(), tables.inters());
        upcoming.pass_all();
        let figures = figures_of_all(alloc, tables, portfolio, parts, states)?;
        let total = total_of(tables, portfolio, parts, &figures);
        let value = value_of_all(tables, portfolio, parts);
        Ok(Whole {
            events: course.share_events()?,
            figures,
            total,
            value,
        })
    }
}
