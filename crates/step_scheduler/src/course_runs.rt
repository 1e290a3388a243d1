//! The run of a board that makes a course.
ghost use Rattle.std.specs.Prelude.{◌≡◌, IfOk, OnOk, false};
ghost use Rattle.std.specs.Arc.{arc_value};
ghost use Rattle.step_scheduler.specs.Boards.{IsComplete};
ghost use Rattle.step_scheduler.specs.near.Whole.{IsAtRest};

use crate::boards::Board;
use crate::courses::Course;
use crate::evaluation::evaluated;
use crate::jobs::Job;
use plan_compiler::set::CompiledSet;
use span_tables::name::Name;
use span_tables::portfolios::Portfolio;
use std::alloc::{AllocError, Global};
use std::sync::Arc;

// Runs a board until it is complete, one step at a time. Ends at once if memory runs out.
fn run(alloc: Global, board: &mut Board) -> Result<(), AllocError>
    requires live { board.old.failed ≡ false }
    requires at_rest { IsAtRest board.old.history }
    ensures same_job { board.new.job ≡ board.old.job }
    ensures complete { OnOk result (IsComplete board.new) }
{
    while !board.is_complete() {
        let Some(task) = board.take_ready()? else {
            // A board that is not complete has a step that can go on, and no step is under way.
            unreachable!();
        };
        // The board does not reject the step that it handed out.
        let _kept = board.finish(evaluated(alloc, task)?);
    }
    Ok(())
}

impl Course {
    /// Makes a run of the plan of a parameter set in which the ready step with the lowest number is always next. Each
    /// step is the one that a board hands out next, and is finished before the next step is taken. Fails if memory runs
    /// out.
    pub fn of(alloc: Global, set: &Arc<CompiledSet>) -> Result<Course, AllocError>
        ensures { IfOk result (λ c. c.set ≡ arc_value set.now) }
    {
        let nobody = Portfolio::new(Name::default(), Vec::new(alloc));
        let job = Job::new(Arc::try_clone(set)?, nobody, 0);
        let mut board = Board::new(alloc, Arc::new(alloc, job)?)?;
        run(alloc, &mut board)?;
        let events = Vec::from_slice(alloc, board.history())?;
        Course::with_events(alloc, Arc::try_clone(set)?, events)
    }
}
