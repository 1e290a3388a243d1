//! The gate that a worker passes before each evaluation of a batch.
ghost use Rattle.std.specs.Prelude.{◌<◌};
ghost use Rattle.worker_pool.specs.declared.batch.TheConstants.{MAX_WORKERS};

use span_tables::name::Name;

/// A hook that workers share. A worker calls it before each evaluation, with its number, which is below 16, the
/// account, and the step's number in the plan. Worker 0 is the coordinator of the first team. Tests observe and stop
/// workers there.
pub trait Gate: Sync {
    fn pass(&self, worker: usize, account: &Name, step: usize)
        requires { worker < MAX_WORKERS };

    /// Returns whether `pass` does nothing, so that it need not be called.
    fn is_idle(&self) -> bool {
        false
    }

    /// Called by the thread that prepares the next parameter set of a roll, before it begins.
    fn beside(&self) {}
}

/// A gate that lets everything pass.
#[derive(Clone, Copy, Debug, Default)]
pub struct OpenGate;

impl Gate for OpenGate {
    fn pass(&self, _worker: usize, _account: &Name, _step: usize) {}

    fn is_idle(&self) -> bool {
        true
    }
}
