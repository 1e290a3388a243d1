//! The order in which tasks come out of a deque and results out of the queue, on one thread.
ghost use Rattle.crossbeam_deque.specs.Handles.{IsPassOf as IsDequePassOf, SamePass, SameWorker, stealer_deque};
ghost use Rattle.crossbeam_deque.specs.Handles.{view as deque_view, worker_view};
ghost use Rattle.crossbeam_queue.specs.Passes.{IsPassOf, IsSamePass, view};
ghost use Rattle.std.specs.Arc.{arc_value};
ghost use Rattle.std.specs.Prelude.{◌≡◌, ◌<◌, ◌∷◌, []};

use crossbeam_deque::Steal;
use sample_files::calendar::{PARAMS, POSITIONS};
use sample_sets::boards::{board_of, next_task};
use sample_sets::files::job_of;
use std::alloc::Global;
use std::marker::Brand;
use std::process::Abort;
use std::sync::{Arc, Wait};
use step_scheduler::boards::Board;
use step_scheduler::evaluation::evaluate;
use step_scheduler::jobs::Job;
use worker_pool::laws::{
    Batch, Deque, DequePass, ResultPass, Results, Thief, new_deque, new_queue, pop_result,
    pop_task, push_result, push_task, settle_deque, settle_queue, split_deque_pass,
    split_queue_pass, steal_task,
};

// Pushes the next task of a board, whose job is the whole batch, and returns its step.
fn push_next<B: Batch>(
    rt: &impl Abort,
    owner: &mut Deque<B>,
    board: &mut Board,
    job: &Arc<Job>,
) -> usize
    requires part { 0 < (worker_view owner.old).parts }
    requires batch { (worker_view owner.old).batch ≡ arc_value job.now ∷ [] }
    requires job { (arc_value job.now).place ≡ 0 }
    requires board { board.old.job ≡ arc_value job.now }
    ensures same { SameWorker owner.old owner.new }
    ensures parts { (worker_view owner.new).parts ≡ (worker_view owner.old).parts }
    ensures batch { (worker_view owner.new).batch ≡ (worker_view owner.old).batch }
    ensures board { board.new.job ≡ board.old.job }
{
    let task = next_task(board).expect(rt, "a task");
    let step = task.step();
    assert!(rt; push_task(owner, task).is_ok());
    step
}

// Pushes the three tasks that a new board of the job hands out, and returns their steps.
fn push_three<B: Batch>(
    rt: &impl Abort,
    alloc: Global,
    owner: &mut Deque<B>,
    job: &Arc<Job>,
) -> [usize; 3]
    requires part { 0 < (worker_view owner.old).parts }
    requires batch { (worker_view owner.old).batch ≡ arc_value job.now ∷ [] }
    requires job { (arc_value job.now).place ≡ 0 }
    ensures same { SameWorker owner.old owner.new }
    ensures parts { (worker_view owner.new).parts ≡ (worker_view owner.old).parts }
{
    let mut board = board_of(alloc, job).expect(rt, "a board");
    let first = push_next(rt, owner, &mut board, job);
    let second = push_next(rt, owner, &mut board, job);
    let third = push_next(rt, owner, &mut board, job);
    [first, second, third]
}

// The step of the task that the owner takes.
fn owned_step<B: Batch>(rt: &impl Abort, owner: &mut Deque<B>) -> usize
    requires { 0 < (worker_view owner.old).parts }
    ensures same { SameWorker owner.old owner.new }
    ensures parts { (worker_view owner.new).parts ≡ (worker_view owner.old).parts }
{
    pop_task(owner).expect(rt, "a task").step()
}

// The step of the task that a thief takes.
fn stolen_step<B: Batch>(rt: &impl Abort, thief: &Thief<B>, pass: &mut DequePass) -> usize
    requires deque { IsDequePassOf (stealer_deque thief.now) pass.old }
    requires part { 0 < (deque_view pass.old).parts }
    ensures same { SamePass pass.old pass.new }
    ensures parts { (deque_view pass.new).parts ≡ (deque_view pass.old).parts }
{
    match steal_task(thief, pass) {
        Steal::Success(task) => task.step(),
        _ => panic!(rt; "nothing to steal"),
    }
}

// Whether these are the steps without inputs: the step that gathers the holdings, and the first steps of the credits
// and of the total.
fn are_first_steps(steps: &[usize]) -> bool {
    steps.contains(&0) && steps.contains(&9) && steps.contains(&11)
}

// With three tasks, a steal takes the one that was pushed first, a pop of the owner the second, and another steal the
// third.
fn tasks_in_order<B: Batch>(rt: &impl Abort, alloc: Global, job: &Arc<Job>)
    requires batch { B.jobs ≡ arc_value job.now ∷ [] }
    requires job { (arc_value job.now).place ≡ 0 }
{
    let mut owner = new_deque::<B>(alloc, 4).expect(rt, "a deque");
    let thief = owner.stealer().expect(rt, "a thief's end");
    let mut pass = split_deque_pass(&mut owner);
    let pushed = push_three(rt, alloc, &mut owner, job);
    let first = stolen_step(rt, &thief, &mut pass);
    let second = owned_step(rt, &mut owner);
    let third = stolen_step(rt, &thief, &mut pass);
    assert!(rt; pushed == [first, second, third] && are_first_steps(&pushed));
    let mut owner = settle_deque(owner, pass);
    assert!(rt; pop_task(&mut owner).is_none());
}

// Pushes the result of the next task of a board, whose job is the whole batch, and returns its step.
fn push_next_result<B: Batch, R: Wait + Abort>(
    rt: &R,
    alloc: Global,
    queue: &Results<B>,
    pass: &mut ResultPass,
    board: &mut Board,
    job: &Arc<Job>,
) -> usize
    requires queue { IsPassOf queue.now pass.old }
    requires part { 0 < (view pass.old).parts }
    requires batch { (view pass.old).batch ≡ arc_value job.now ∷ [] }
    requires job { (arc_value job.now).place ≡ 0 }
    requires board { board.old.job ≡ arc_value job.now }
    ensures same { IsSamePass pass.old pass.new }
    ensures parts { (view pass.new).parts ≡ (view pass.old).parts }
    ensures batch { (view pass.new).batch ≡ (view pass.old).batch }
    ensures board { board.new.job ≡ board.old.job }
{
    let finished = evaluate(alloc, next_task(board).expect(rt, "a task"));
    let step = finished.step();
    assert!(rt; push_result(rt, queue, pass, finished).is_ok());
    step
}

// The step of the result that is popped.
fn popped_step<B: Batch, R: Wait + Abort>(
    rt: &R,
    queue: &Results<B>,
    pass: &mut ResultPass,
) -> usize
    requires queue { IsPassOf queue.now pass.old }
    requires part { 0 < (view pass.old).parts }
    ensures same { IsSamePass pass.old pass.new }
    ensures parts { (view pass.new).parts ≡ (view pass.old).parts }
{
    let finished = pop_result(rt, queue, pass).expect(rt, "a result");
    finished.step()
}

// Pushes the results of the three tasks that a new board of the job hands out, and returns their steps.
fn push_three_results<B: Batch, R: Wait + Abort>(
    rt: &R,
    alloc: Global,
    queue: &Results<B>,
    pass: &mut ResultPass,
    job: &Arc<Job>,
) -> [usize; 3]
    requires queue { IsPassOf queue.now pass.old }
    requires part { 0 < (view pass.old).parts }
    requires batch { (view pass.old).batch ≡ arc_value job.now ∷ [] }
    requires job { (arc_value job.now).place ≡ 0 }
    ensures same { IsSamePass pass.old pass.new }
    ensures parts { (view pass.new).parts ≡ (view pass.old).parts }
{
    let mut board = board_of(alloc, job).expect(rt, "a board");
    let first = push_next_result(rt, alloc, queue, pass, &mut board, job);
    let second = push_next_result(rt, alloc, queue, pass, &mut board, job);
    let third = push_next_result(rt, alloc, queue, pass, &mut board, job);
    [first, second, third]
}

// Three results come out in the order in which they were pushed.
fn results_in_order<B: Batch, R: Wait + Abort>(rt: &R, alloc: Global, job: &Arc<Job>)
    requires batch { B.jobs ≡ arc_value job.now ∷ [] }
    requires job { (arc_value job.now).place ≡ 0 }
{
    let (queue, mut pass) = new_queue::<B>(alloc).expect(rt, "a queue");
    let mut other = split_queue_pass(&queue, &mut pass);
    let pushed = push_three_results(rt, alloc, &queue, &mut other, job);
    let first = popped_step(rt, &queue, &mut pass);
    let second = popped_step(rt, &queue, &mut pass);
    let third = popped_step(rt, &queue, &mut pass);
    assert!(rt; pushed == [first, second, third] && are_first_steps(&pushed));
    let (queue, mut pass) = settle_queue(queue, pass, other);
    assert!(rt; pop_result(rt, &queue, &mut pass).is_none());
}

#[test]
fn front_and_back(rt: HostRuntime) {
    let alloc = rt.alloc();
    let job = job_of(alloc, PARAMS, POSITIONS).expect(&rt, "a job");
    tasks_in_order::<Brand>(&rt, alloc, &job);
    results_in_order::<Brand, _>(&rt, alloc, &job);
}
