//! The outcomes of two accounts, computed by the definitions: the contract of a function that does nothing.
ghost use Rattle.plan_compiler.specs.Compiled.{SetView};
ghost use Rattle.std.specs.Prelude.{◌∷◌, [], codes};
ghost use Rattle.worker_pool.specs.Outcomes.{AreOutcomes};
ghost use Rattle.worker_pool.specs.declared.outcomes.Outcome.TheVariants.{NoMemory};

// States that the outcomes of two accounts in their order are outcomes of the accounts, and that in exchanged order
// they are not.
fn outcomes_of_two_accounts()
    ensures in_order { (set : SetView) → AreOutcomes set
        (record { account = codes "X"; holdings = [] } ∷ record { account = codes "B"; holdings = [] } ∷ [])
        (NoMemory (codes "X") ∷ NoMemory (codes "B") ∷ []) }
    ensures exchanged { (set : SetView) → AreOutcomes set
        (record { account = codes "X"; holdings = [] } ∷ record { account = codes "B"; holdings = [] } ∷ [])
        (NoMemory (codes "B") ∷ NoMemory (codes "X") ∷ []) → ⊥ }
{}
