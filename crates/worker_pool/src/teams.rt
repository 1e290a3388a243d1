//! The numbers under which the workers of a batch pass its gate.
ghost use Rattle.std.specs.Prelude.{◌≡◌, ◌+◌, ◌<◌, ◌≤◌};
ghost use Rattle.worker_pool.specs.declared.batch.TheConstants.{MAX_WORKERS};

/// Workers that run accounts together. Their numbers go up from `first`, and all are below 16. Worker 0 of a team is
/// its coordinator, and the others are its helpers.
#[derive(Clone, Copy, Debug)]
pub struct Team {
    pub first: usize,
    pub workers: usize,
    pub ghost some: { 0 < workers },
    pub ghost within: { first + workers ≤ MAX_WORKERS },
}

impl Team {
    /// One worker, whose number is 0.
    pub const ALONE: Team = Team {
        first: 0,
        workers: 1,
    };

    /// Returns the number of helpers.
    pub(crate) fn helpers(&self) -> usize
        ensures { result + 1 ≡ self.now.workers }
    {
        self.workers - 1
    }

    /// Returns the number of a worker of the team.
    pub fn number(&self, worker: usize) -> usize
        requires { worker < self.now.workers }
        ensures own { result ≡ self.now.first + worker }
        ensures within { result < MAX_WORKERS }
    {
        self.first + worker
    }
}
