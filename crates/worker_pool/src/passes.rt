//! What the passes of a deque or of the result queue know.
use std::collections::LinkedList;
use step_scheduler::jobs::Job;

/// What a pass knows: its batch, its parts, and the items pushed and taken with it, in order. The parts are shares of
/// the right to account for every item. The type exists only in proofs, and no value of it is made.
pub struct PassView<T> {
    pub batch: LinkedList<Job>,
    pub parts: u64,
    pub pushed: LinkedList<T>,
    pub taken: LinkedList<T>,
}
