//! How the workers of a batch are shared out among its teams.
ghost use Rattle.std.specs.Prelude.{◌≡◌, ◌+◌, ◌<◌, ◌≤◌};
ghost use Rattle.worker_pool.specs.declared.batch.TheConstants.{MAX_WORKERS};

use worker_pool::teams::Team;

/// The number of workers of a batch, and the number of teams that they make. The numbers of the workers begin with 0.
#[derive(Clone, Copy)]
pub(crate) struct Crew {
    pub(crate) workers: usize,
    pub(crate) teams: usize,
    pub(crate) ghost some: { 0 < teams },
    pub(crate) ghost enough: { teams ≤ workers },
    pub(crate) ghost within: { workers ≤ MAX_WORKERS },
}

impl Crew {
    /// Returns all workers as one team.
    pub(crate) fn whole(self) -> Team
        ensures first { result.first ≡ 0 }
        ensures all { result.workers ≡ self.workers }
    {
        Team {
            first: 0,
            workers: self.workers,
        }
    }

    /// Splits off the last team, which has its share of the workers, and returns the rest of the crew and that team.
    /// The team's numbers follow the numbers of the rest, and end with the last number of the crew.
    pub(crate) fn cut(self) -> (Crew, Team)
        requires { 1 < self.teams }
        ensures teams { result.0.teams + 1 ≡ self.teams }
        ensures apart { result.1.first ≡ result.0.workers }
        ensures all { result.1.first + result.1.workers ≡ self.workers }
    {
        let own = self.workers / self.teams;
        let before = self.workers - own;
        let others = Crew {
            workers: before,
            teams: self.teams - 1,
        };
        let last = Team {
            first: before,
            workers: own,
        };
        (others, last)
    }
}
