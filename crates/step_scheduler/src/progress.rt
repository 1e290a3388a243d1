//! The progress of the steps of a board.
ghost use Rattle.std.specs.Prelude.{◌≡◌, ◌<◌, ◌↔◌, ℕ, IsTrue, length, sum_by, true, false};
ghost use Rattle.step_scheduler.specs.near.Steps.{was_taken, is_done, events_of, progress_at};

/// The progress of a step.
#[derive(Clone, Copy, PartialEq, Eq, Debug)]
pub enum Progress {
    /// The step was not handed out.
    Waiting,
    /// The step was handed out and has no value.
    Taken,
    /// The step got its value.
    Done,
}

// Returns whether a step was handed out and has no value.
pub(crate) fn is_under_way(steps: &[Progress], step: usize) -> bool
    requires { step < length steps.now }
    ensures { IsTrue result ↔ ((was_taken (progress_at steps.now step) ≡ true)
        × (is_done (progress_at steps.now step) ≡ false)) }
{
    matches!(steps[step], Progress::Taken)
}

// Returns whether all steps got their values, from the number of their events so far: each step has two in all.
pub(crate) fn all_done(steps: &[Progress], events: usize) -> bool
    requires { sum_by events_of steps.now ≡ events }
    ensures { IsTrue result ↔ ((k : ℕ) → k < length steps.now → is_done (progress_at steps.now k) ≡ true) }
{
    events == 2 * steps.len()
}
