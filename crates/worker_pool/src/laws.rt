//! The atomic steps of deques and of the result queue of a batch, each under the balance rule.
//!
//! Each end has a pass, a ghost token that lists for contracts what was pushed and taken with it. The first pass of a
//! deque or of the queue has all 1024 parts, and a pass that is split off has one. A pass with all parts accounts for
//! every item.
ghost use Rattle.crossbeam_deque.specs.Handles.{IsPassOf, SamePass, SameWorker, stealer_deque, worker_deque};
ghost use Rattle.crossbeam_deque.specs.Handles.{view, worker_capacity, worker_flavor, worker_index, worker_view};
ghost use Rattle.std.specs.Int.{IsNextPowerOfTwo};
ghost use Rattle.crossbeam_deque.specs.Steals.{MatchSteal};
ghost use Rattle.crossbeam_queue.specs.Passes.{IsPassOf as IsQueuePassOf, IsSamePass, ruled_capacity, view as queue_view};
ghost use Rattle.std.specs.Prelude.{◌≡◌, ◌+◌, ◌<◌, ◌≤◌, [], ◌∷◌, ◌++◌, List, length};
ghost use Rattle.std.specs.Prelude.{IfErr, IfOk, MatchOption, OnErr, OnOk};
ghost use Rattle.step_scheduler.specs.Jobs.{FinishedView, TaskView};
ghost use Rattle.worker_pool.specs.Balance.{ALL_PARTS, AreTaken, KnowsAll, KnowsLeft, knows, merged, nothing, one_part};
ghost use Rattle.worker_pool.specs.Balance.{with_pushed, with_taken, without_part};
ghost use Rattle.worker_pool.specs.Batches.{IsResultOf, IsTaskOf};

use crate::passes::PassView;
use crossbeam_deque::protocol::{Join, Lesson, Outcome, Protocol, Split};
use crossbeam_deque::{Pass, Steal, Stealer, Worker};
use crossbeam_queue::{RuledArrayQueue, protocol as queue};
use std::alloc::{AllocError, Global};
use std::marker::{Brand, PhantomData};
use std::sync::Wait;
use step_scheduler::finished::Finished;
use step_scheduler::tasks::Task;

/// The number of slots of the result queue.
pub const RESULT_PLACES: usize = 256;

/// A type that names a batch by its jobs.
pub trait Batch {
    ghost use Rattle.std.specs.Prelude.{List};
    ghost use Rattle.step_scheduler.specs.Jobs.{JobView};

    ghost jobs: { List JobView };
}

impl Batch for Brand {
    ghost use Rattle.std.specs.Prelude.{[]};

    ghost jobs = { [] };
}

/// The balance rule of the deques and of the queue of a batch.
pub struct OfBatch<B> {
    batch: PhantomData<B>,
}

impl<B: Batch> Protocol<Task, PassView<Task>> for OfBatch<B> {
    ghost use Rattle.std.specs.Prelude.{[]};
    ghost use Rattle.worker_pool.specs.Balance.{ALL_PARTS, IsBalanced, knows, nothing};
    ghost use Rattle.worker_pool.specs.Batches.{IsTaskOf};

    ghost holds = { IsBalanced IsTaskOf };

    ghost first = { knows B.jobs ALL_PARTS [] [] };

    ghost guest = { nothing };
}

impl<B: Batch> queue::Protocol<Finished, PassView<Finished>> for OfBatch<B> {
    ghost use Rattle.std.specs.Prelude.{[]};
    ghost use Rattle.worker_pool.specs.Balance.{ALL_PARTS, IsBalanced, knows};
    ghost use Rattle.worker_pool.specs.Batches.{IsResultOf};

    ghost holds = { IsBalanced IsResultOf };

    ghost first = { knows B.jobs ALL_PARTS [] [] };
}

// A push appends the item to the pushed items.
struct Pushed;

impl Outcome<Task, PassView<Task>> for Pushed {
    ghost then = { λ v tasks w. w ≡ with_pushed v tasks };
}

impl queue::Outcome<Finished, PassView<Finished>> for Pushed {
    ghost then = { λ v finished w. w ≡ with_pushed v (finished ∷ []) };
}

// A push on the queue fails only if the queue is full, that is, if the items left fill it.
impl queue::Lesson<Finished, PassView<Finished>> for Pushed {
    ghost fact = { KnowsLeft };
}

// A pop of the queue or a steal appends the item to the taken items, and the item is of the batch.
struct Taken;

impl Outcome<Task, PassView<Task>> for Taken {
    ghost then = { AreTaken IsTaskOf };
}

impl queue::Outcome<Finished, PassView<Finished>> for Taken {
    ghost then = { λ v finished w. (w ≡ with_taken v (finished ∷ [])) × IsResultOf v.batch finished };
}

// A pop of the queue finds nothing if nothing is left.
impl queue::Lesson<Finished, PassView<Finished>> for Taken {
    ghost fact = { KnowsLeft };
}

// A pop of a deque appends the task to the taken items, and finds nothing if nothing is left.
struct Popped;

impl Outcome<Task, PassView<Task>> for Popped {
    ghost then = { AreTaken IsTaskOf };

    ghost empty = { λ v. KnowsLeft v [] };
}

// One part goes to a new pass.
struct OnePart;

impl Split<PassView<Task>> for OnePart {
    ghost left = { without_part };

    ghost right = { one_part };
}

impl queue::Split<PassView<Finished>> for OnePart {
    ghost left = { without_part };

    ghost right = { one_part };
}

// The first pass gets what both passes had, and the second has nothing left.
struct Merged;

impl Join<PassView<Task>> for Merged {
    ghost both = { merged };

    ghost spent = { nothing };
}

impl queue::Join<PassView<Finished>> for Merged {
    ghost both = { merged };

    ghost spent = { nothing };
}

// What the pass with all parts learns.
struct Settled;

impl Lesson<Task, PassView<Task>> for Settled {
    ghost fact = { KnowsAll IsTaskOf };
}

impl queue::Lesson<Finished, PassView<Finished>> for Settled {
    ghost fact = { KnowsAll IsResultOf };
}

/// The owner's end of a deque of a batch: tasks come out in the order in which they were pushed.
pub type Deque<B> = Worker<Task, Global, PassView<Task>, OfBatch<B>>;

/// A thief's end of a deque.
pub type Thief<B> = Stealer<Task, Global, PassView<Task>, OfBatch<B>>;

/// A pass of a deque.
pub type DequePass = Pass<Task, PassView<Task>>;

/// The result queue of a batch.
pub type Results<B> = RuledArrayQueue<Finished, PassView<Finished>, OfBatch<B>>;

/// A pass of the result queue.
pub type ResultPass = crossbeam_queue::Pass<Finished, PassView<Finished>>;

/// Creates an empty deque, whose tasks come out in the order in which they were pushed (its flavor is 0). Its pass has
/// all parts.
pub fn new_deque<B: Batch>(alloc: Global, capacity: usize) -> Result<Deque<B>, AllocError>
    ensures view { IfOk result (λ w. worker_view w ≡ knows B.jobs ALL_PARTS [] []) }
    ensures in_order { IfOk result (λ w. worker_flavor w ≡ 0) }
    ensures places { IfOk result (λ w. IsNextPowerOfTwo capacity (worker_capacity w) × (worker_index w ≡ 0)) }
{
    Deque::<B>::fifo_as(alloc, capacity)
}

/// Splits a new pass with one part off the owner's pass.
pub fn split_deque_pass<B: Batch>(owner: &mut Deque<B>) -> DequePass
    requires { 1 < (worker_view owner.old).parts }
    ensures same { SameWorker owner.old owner.new × IsPassOf (worker_deque owner.old) result }
    ensures old { worker_view owner.new ≡ without_part (worker_view owner.old) }
    ensures new { view result ≡ one_part (worker_view owner.old) }
{
    owner.another::<OnePart>()
}

/// Adds a task of the batch at the back. If the push fails, returns the task and changes nothing.
pub fn push_task<B: Batch>(owner: &mut Deque<B>, task: Task) -> Result<(), Task>
    requires part { 0 < (worker_view owner.old).parts }
    requires batch { IsTaskOf (worker_view owner.old).batch task }
    ensures same { SameWorker owner.old owner.new }
    ensures ok { OnOk result (worker_view owner.new ≡ with_pushed (worker_view owner.old) (task ∷ [])) }
    ensures err { IfErr result (λ back. (back ≡ task) × (worker_view owner.new ≡ worker_view owner.old)) }
    ensures next { OnOk result (worker_index owner.new ≡ worker_index owner.old + 1) }
    ensures refused { OnErr result (worker_capacity owner.old ≤ worker_index owner.old) }
{
    owner.push_as::<Pushed>(task)
}

/// Takes the task at the front, for the owner. The task is of the batch. If nothing is found, nothing changes.
pub fn pop_task<B: Batch>(owner: &mut Deque<B>) -> Option<Task>
    requires { 0 < (worker_view owner.old).parts }
    ensures same { SameWorker owner.old owner.new }
    ensures none { MatchOption result (KnowsLeft (worker_view owner.old) []) (λ _. Unit {0}) }
    ensures task { MatchOption result (worker_view owner.new ≡ worker_view owner.old) (λ task.
        (worker_view owner.new ≡ with_taken (worker_view owner.old) (task ∷ []))
        × IsTaskOf (worker_view owner.old).batch task) }
{
    owner.pop_as::<Popped>()
}

/// Takes the task at the front, for a thief. The task is of the batch. If nothing is found, nothing changes.
pub fn steal_task<B: Batch>(thief: &Thief<B>, pass: &mut DequePass) -> Steal<Task>
    requires deque { IsPassOf (stealer_deque thief.now) pass.old }
    requires part { 0 < (view pass.old).parts }
    ensures same { SamePass pass.old pass.new }
    ensures task { MatchSteal result (view pass.new ≡ view pass.old) (view pass.new ≡ view pass.old) (λ task.
        (view pass.new ≡ with_taken (view pass.old) (task ∷ [])) × IsTaskOf (view pass.old).batch task) }
{
    thief.steal_as::<Taken>(pass)
}

/// Merges a pass into the owner's pass. The two together have all parts.
///
/// Each item pushed with them was taken or is left, as often as it was pushed, and all items are of the batch.
pub fn settle_deque<B: Batch>(owner: Deque<B>, pass: DequePass) -> Deque<B>
    requires deque { IsPassOf (worker_deque owner) pass }
    requires parts { (worker_view owner).parts + (view pass).parts ≡ ALL_PARTS }
    requires part { 0 < (worker_view owner).parts }
    ensures same { worker_deque result ≡ worker_deque owner }
    ensures merged { worker_view result ≡ knows (worker_view owner).batch ALL_PARTS
        ((worker_view owner).pushed ++ (view pass).pushed) ((worker_view owner).taken ++ (view pass).taken) }
    ensures settled { (left : List TaskView) × KnowsAll IsTaskOf (worker_view result) left }
{
    let mut owner = owner;
    owner.absorb::<Merged>(pass);
    owner.len_as::<Settled>();
    owner
}

/// Creates an empty result queue of 256 slots, and the pass that has all parts.
pub fn new_queue<B: Batch>(alloc: Global) -> Result<(Results<B>, ResultPass), AllocError>
    ensures queue { IfOk result (λ r. IsQueuePassOf r.0 r.1 × (ruled_capacity r.0 ≡ 256)) }
    ensures view { IfOk result (λ r. queue_view r.1 ≡ knows B.jobs ALL_PARTS [] []) }
{
    Results::<B>::ruled(alloc, RESULT_PLACES)
}

/// Splits a new pass with one part off a pass of the queue.
pub fn split_queue_pass<B: Batch>(queue: &Results<B>, pass: &mut ResultPass) -> ResultPass
    requires queue { IsQueuePassOf queue.now pass.old }
    requires parts { 1 < (queue_view pass.old).parts }
    ensures same { IsSamePass pass.old pass.new × IsQueuePassOf queue.now result }
    ensures old { queue_view pass.new ≡ without_part (queue_view pass.old) }
    ensures new { queue_view result ≡ one_part (queue_view pass.old) }
{
    queue.another::<OnePart>(pass)
}

/// Adds a result of the batch at the back. Returns the result only if the queue was full, and then nothing changes.
pub fn push_result<B: Batch, R: Wait>(
    rt: &R,
    queue: &Results<B>,
    pass: &mut ResultPass,
    finished: Finished,
) -> Result<(), Finished>
    requires queue { IsQueuePassOf queue.now pass.old }
    requires part { 0 < (queue_view pass.old).parts }
    requires batch { IsResultOf (queue_view pass.old).batch finished }
    ensures same { IsSamePass pass.old pass.new }
    ensures ok { OnOk result (queue_view pass.new ≡ with_pushed (queue_view pass.old) (finished ∷ [])) }
    ensures err { IfErr result (λ back. (back ≡ finished) × (queue_view pass.new ≡ queue_view pass.old)) }
    ensures full { OnErr result ((left : List FinishedView) × (length left ≡ ruled_capacity queue.now)
        × KnowsLeft (queue_view pass.old) left) }
{
    queue.push_as::<Pushed, R>(rt, pass, finished)
}

/// Takes the result at the front. The result is of the batch. If nothing is found, nothing changes.
pub fn pop_result<B: Batch, R: Wait>(
    rt: &R,
    queue: &Results<B>,
    pass: &mut ResultPass,
) -> Option<Finished>
    requires queue { IsQueuePassOf queue.now pass.old }
    requires part { 0 < (queue_view pass.old).parts }
    ensures same { IsSamePass pass.old pass.new }
    ensures none { MatchOption result ((left : List FinishedView) × (length left ≡ 0)
        × KnowsLeft (queue_view pass.old) left) (λ _. Unit {0}) }
    ensures finished { MatchOption result (queue_view pass.new ≡ queue_view pass.old) (λ finished.
        (queue_view pass.new ≡ with_taken (queue_view pass.old) (finished ∷ []))
        × IsResultOf (queue_view pass.old).batch finished) }
{
    queue.pop_as::<Taken, R>(rt, pass)
}

/// Merges the second pass of the queue into the first. The two together have all parts.
///
/// Each item pushed with them was taken or is left, as often as it was pushed, and all items are of the batch.
pub fn settle_queue<B: Batch>(
    queue: Results<B>,
    mut pass: ResultPass,
    other: ResultPass,
) -> (Results<B>, ResultPass)
    requires queue { IsQueuePassOf queue pass × IsQueuePassOf queue other }
    requires parts { (queue_view pass).parts + (queue_view other).parts ≡ ALL_PARTS }
    requires part { 0 < (queue_view pass).parts }
    ensures same { (result.0 ≡ queue) × IsQueuePassOf result.0 result.1 }
    ensures merged { queue_view result.1 ≡ knows (queue_view pass).batch ALL_PARTS
        ((queue_view pass).pushed ++ (queue_view other).pushed) ((queue_view pass).taken ++ (queue_view other).taken) }
    ensures settled { (left : List FinishedView) × KnowsAll IsResultOf (queue_view result.1) left }
{
    queue.absorb::<Merged>(&mut pass, other);
    queue.learn_as::<Settled>(&mut pass);
    (queue, pass)
}
