//! The events of a run.

/// An event of a run, with the number of its step.
#[derive(Clone, Copy, Debug, PartialEq, Eq)]
pub enum Event {
    /// The step was handed out.
    Take(u32),
    /// The step got its value.
    Finish(u32),
}
