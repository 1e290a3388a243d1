//! The reasons why a shelf is not made, or a parameter set is not published.
use plan_compiler::set::CompiledSet;
use std::sync::Arc;
use thiserror::Error;

/// The reason why a shelf is not made, or a set is not published.
#[derive(Clone, Copy, Debug, Drop, PartialEq, Eq, Error)]
pub enum ShelfFault {
    /// The number of readers is 0, or more than 16.
    #[error("Readers")]
    Readers,
    /// Out of memory.
    #[error("memory")]
    OutOfMemory,
    /// The last publication number, 2^64 - 1, is used.
    #[error("Last")]
    Last,
}

/// A set that was not published, and the reason.
#[derive(Drop)]
pub struct NotPublished {
    pub cause: ShelfFault,
    pub set: Arc<CompiledSet>,
}
