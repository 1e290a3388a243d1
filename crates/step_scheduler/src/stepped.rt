//! The state of a board that hands out its steps one by one.
ghost use Rattle.std.specs.Prelude.{◌≡◌, ◌<◌, IfOk, length};
ghost use Rattle.plan_ir.specs.Figures.{figures_of, option_value_of, total_to};
ghost use Rattle.step_scheduler.specs.near.Figures.{AreHeldFigures};
ghost use Rattle.step_scheduler.specs.near.Slots.{HasAllValues};

use crate::events::Event;
use crate::handing::stored_value;
use crate::held_figures::HeldFigures;
use crate::jobs::Job;
use crate::progress::Progress;
use plan_ir::figures::Figures;
use plan_ir::values::Value;
use span_money::amounts::Money;
use span_tables::held::held_commodities;
use std::alloc::{AllocError, Global};
use std::sync::Arc;

// The progress of the steps of a job, how many inputs each step misses, the ready steps, the stored values, and the
// history.
#[derive(Drop)]
pub(crate) struct Stepped {
    pub(crate) steps: Vec<Progress>,
    pub(crate) missing: Vec<u8>,
    pub(crate) ready: Vec<u32>,
    pub(crate) slots: Vec<Option<Arc<Value>>>,
    pub(crate) history: Vec<Event>,
}

impl Stepped {
    // Returns the figures of a commodity by its number. Every step has its value.
    pub(crate) fn figures(&self, job: &Job, commodity: usize) -> Figures
        requires values { HasAllValues job.now self.now.slots.items }
        requires in_range { commodity < length job.now.set.tables.commodities }
        ensures { result ≡ figures_of job.now.set.tables job.now.portfolio.holdings commodity }
    {
        let set = job.set();
        set.tables().known();
        let step = set.final_step(commodity as u32);
        let value = stored_value(job, self.slots.as_slice(), step);
        *value.figures()
    }

    // Returns the total. Every step has its value.
    pub(crate) fn total(&self, job: &Job) -> Money
        requires { HasAllValues job.now self.now.slots.items }
        ensures { result ≡ total_to job.now.set.tables job.now.portfolio.holdings (length job.now.set.tables.commodities) }
    {
        let step = job.set().total_step();
        let value = stored_value(job, self.slots.as_slice(), step);
        value.total()
    }

    // Returns the option value, which is 0 under a profile in which options have none. Every step has its value.
    pub(crate) fn value(&self, job: &Job) -> Money
        requires { HasAllValues job.now self.now.slots.items }
        ensures { result ≡ option_value_of job.now.set.tables job.now.portfolio.holdings }
    {
        let Some(step) = job.set().value_step() else {
            return Money::new(0);
        };
        let value = stored_value(job, self.slots.as_slice(), step);
        value.premium()
    }

    // Returns the figures of all commodities. Every step has its value.
    pub(crate) fn held_figures(&self, alloc: Global, job: &Job) -> Result<HeldFigures, AllocError>
        requires { HasAllValues job.now self.now.slots.items }
        ensures { IfOk result (λ held. AreHeldFigures job.now.set.tables job.now.portfolio.holdings held) }
    {
        let tables = job.set().tables();
        tables.known();
        let commodities = tables.commodities().len();
        let flags = held_commodities(tables, job.portfolio());
        let mut held = HeldFigures::with_capacity(alloc, 0)?;
        for commodity in 0..commodities {
            if flags[commodity] {
                held.push(commodity, self.figures(job, commodity))?;
            }
        }
        Ok(held)
    }
}
