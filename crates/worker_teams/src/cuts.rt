//! How accounts are cut into slices of equal cost.
ghost use Rattle.std.specs.Prelude.{◌+◌, ◌<◌, ◌≤◌, length};

use span_tables::portfolios::Portfolio;

/// The cost of a held contract, in steps of the plan.
const STEPS_OF_A_HOLDING: u64 = 4;

// Returns the cost of an account under a plan with the given number of steps.
fn weight_of(steps: usize, portfolio: &Portfolio) -> u64 {
    let holdings = portfolio.holdings().len() as u64;
    (steps as u64).saturating_add(holdings.saturating_mul(STEPS_OF_A_HOLDING))
}

// Returns the cost of all accounts under a plan with the given number of steps.
fn weight_of_all(steps: usize, portfolios: &[Portfolio]) -> u64 {
    portfolios.iter().fold(0u64, |weight, portfolio| {
        weight.saturating_add(weight_of(steps, portfolio))
    })
}

/// Returns the index at which the last slice begins, so that its accounts cost about one part in `teams` of the whole.
/// Each of the other teams has an account before that index.
pub(crate) fn last_slice(steps: usize, portfolios: &[Portfolio], teams: usize) -> usize
    requires some { 0 < teams }
    requires enough { teams ≤ length portfolios.now }
    ensures before { teams ≤ result + 1 }
    ensures within { result < length portfolios.now }
{
    let share = weight_of_all(steps, portfolios) / teams as u64;
    let mut weight = 0u64;
    for start in (teams..portfolios.len()).rev() {
        weight = weight.saturating_add(weight_of(steps, &portfolios[start]));
        let next = weight_of(steps, &portfolios[start - 1]);
        if weight.saturating_add(next / 2) >= share {
            return start;
        }
    }
    teams - 1
}
