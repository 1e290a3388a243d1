//! Lemmas about runs (docs/METHOD.md, "The plan of steps"). Each lemma is the contract of a function with an empty
//! body.
ghost use Rattle.std.specs.Prelude.{◌≡◌, ◌<◌, ℕ, List, length, map, true};
ghost use Rattle.plan_compiler.specs.Compiled.{Fits, IsCompiled, SetView};
ghost use Rattle.plan_ir.specs.Plans.{StepView, inputs_at};
ghost use Rattle.step_scheduler.specs.Jobs.{JobView, inputs_for, meaning_at};
ghost use Rattle.step_scheduler.specs.Runs.{AllFinished, CanGoOn, IsDoneOnce, IsReady, IsRun, is_finished, run_values};
ghost use Rattle.step_scheduler.specs.declared.events.Event.{Event};

/// No ready step misses an input: the values that a run gives to the inputs of a ready step are their meanings.
#[tactic(auto, using(crate::proofs::RunValues::ready_inputs))]
pub fn ready_steps_have_their_inputs()
    ensures { (job : JobView) → IsCompiled job.set → Fits job.set.tables job.portfolio.holdings → (history : List Event)
        → IsRun job.set.plan history → (k : ℕ) → IsReady job.set.plan history k
        → map (run_values job history) (inputs_at job.set.plan k) ≡ inputs_for job k }
{}

/// The value that a run gives to a finished step is the meaning of the step.
#[tactic(auto, using(crate::proofs::RunValues::run_means))]
pub fn finished_steps_have_their_meanings()
    ensures { (job : JobView) → IsCompiled job.set → Fits job.set.tables job.portfolio.holdings → (history : List Event)
        → IsRun job.set.plan history → (k : ℕ) → is_finished history k ≡ true
        → run_values job history k ≡ meaning_at job k }
{}

/// Two runs of a job that finished every step give each step the same value, whatever the order of their events.
#[tactic(auto, using(crate::proofs::RunValues::complete_runs_agree))]
pub fn complete_runs_give_equal_values()
    ensures { (job : JobView) → IsCompiled job.set → Fits job.set.tables job.portfolio.holdings
        → (one other : List Event) → IsRun job.set.plan one → IsRun job.set.plan other
        → AllFinished job.set.plan one → AllFinished job.set.plan other → (k : ℕ) → k < length job.set.plan
        → run_values job one k ≡ run_values job other k }
{}

/// After any history in which not every step is finished, some step can go on.
#[tactic(auto, using(crate::proofs::GoesOn::some_goes_on))]
pub fn unfinished_runs_go_on()
    ensures { (set : SetView) → IsCompiled set → (history : List Event) → (AllFinished set.plan history → ⊥)
        → (k : ℕ) × CanGoOn set.plan history k }
{}

/// In a run that finished every step, each step was taken once and then finished once.
pub fn complete_runs_do_each_step_once()
    ensures { (plan : List StepView) → (history : List Event) → IsRun plan history → AllFinished plan history → (k : ℕ)
        → k < length plan → IsDoneOnce history k }
{}
