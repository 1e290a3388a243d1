//! Boards, and the tasks that they hand out.
ghost use Rattle.std.specs.Arc.{arc_value};
ghost use Rattle.std.specs.Prelude.{◌≡◌, IfSome};

use std::alloc::Global;
use std::sync::Arc;
use step_scheduler::boards::Board;
use step_scheduler::jobs::Job;
use step_scheduler::tasks::Task;

/// Creates a board for a job. Returns `None` if memory runs out.
pub fn board_of(alloc: Global, job: &Arc<Job>) -> Option<Board>
    ensures { IfSome result (λ board. board.job ≡ arc_value job.now) }
{
    Board::new(alloc, Arc::try_clone(job).ok()?).ok()
}

/// Takes the next task of a board. Returns `None` if there is none or memory runs out.
pub fn next_task(board: &mut Board) -> Option<Task>
    ensures job { board.new.job ≡ board.old.job }
    ensures task { IfSome result (λ task. task.job ≡ board.old.job) }
{
    board.take_ready().ok()?
}
