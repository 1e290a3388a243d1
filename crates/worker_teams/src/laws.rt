//! A lemma about outcomes, as the contract of a function that does nothing.
ghost use Rattle.plan_compiler.specs.Compiled.{SetView};
ghost use Rattle.span_tables.specs.Net.{AccountHoldings};
ghost use Rattle.std.specs.Prelude.{◌++◌, List};
ghost use Rattle.worker_pool.specs.Outcomes.{AreOutcomes};
ghost use Rattle.worker_pool.specs.declared.outcomes.Outcome.{Outcome};

/// States that the outcomes of two lists of accounts, concatenated, are outcomes of the two lists joined.
pub fn outcomes_of_slices_are_joined()
    ensures { (set : SetView) (ps qs : List AccountHoldings) (outcomes others : List Outcome)
        → AreOutcomes set ps outcomes → AreOutcomes set qs others → AreOutcomes set (ps ++ qs) (outcomes ++ others) }
{}
