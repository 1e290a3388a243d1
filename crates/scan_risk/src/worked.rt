//! Test vectors for sums and scans, computed by the definitions. Each is the contract of a function that does nothing.
ghost use Rattle.std.specs.Prelude.{◌≡◌, [], ◌∷◌, pos, neg_ℤ};
ghost use Rattle.std.specs.List.{repeat};
ghost use Rattle.scan_risk.specs.near.Samples.{future, held, largest};
ghost use Rattle.span_tables.specs.declared.limits.TheConstants.{MAX_HELD, MAX_NET, MAX_PRICE2, MAX_SUM};
ghost use Rattle.scan_risk.specs.Scenarios.{scan_of, scenario_sums};

/// Scans of sixteen sums: scenario 16 is paired with itself, a negative price risk becomes 0, no scenario is a loss, and
/// no scenario changes anything.
#[tactic(auto, unfolding(crate::specs::Scenarios::scan_of))]
pub fn scans()
    ensures extreme_move { scan_of (pos 10 ∷ neg_ℤ (pos 6) ∷ pos 12 ∷ neg_ℤ (pos 4) ∷ pos 14 ∷ neg_ℤ (pos 2) ∷ pos 20
        ∷ pos 2 ∷ pos 24 ∷ pos 6 ∷ pos 30 ∷ pos 10 ∷ pos 40 ∷ pos 20 ∷ pos 50 ∷ pos 90 ∷ [])
        ≡ record { risk = pos 90; active = 16; paired = 16; price2 = 176 } }
    ensures negative_price_risk { scan_of (pos 100 ∷ pos 90 ∷ pos 110 ∷ pos 50 ∷ pos 0 ∷ pos 0 ∷ pos 0 ∷ pos 0
        ∷ pos 0 ∷ pos 0 ∷ pos 0 ∷ pos 0 ∷ pos 0 ∷ pos 0 ∷ pos 0 ∷ pos 0 ∷ [])
        ≡ record { risk = pos 110; active = 3; paired = 4; price2 = 0 } }
    ensures no_loss { scan_of (neg_ℤ (pos 5) ∷ neg_ℤ (pos 3) ∷ neg_ℤ (pos 9) ∷ neg_ℤ (pos 7) ∷ neg_ℤ (pos 4)
        ∷ neg_ℤ (pos 2) ∷ neg_ℤ (pos 12) ∷ neg_ℤ (pos 11) ∷ neg_ℤ (pos 3) ∷ neg_ℤ (pos 1) ∷ neg_ℤ (pos 20)
        ∷ neg_ℤ (pos 19) ∷ neg_ℤ (pos 2) ∷ neg_ℤ (pos 1) ∷ neg_ℤ (pos 15) ∷ neg_ℤ (pos 1) ∷ [])
        ≡ record { risk = pos 0; active = 10; paired = 9; price2 = 4 } }
    ensures zeros { scan_of (repeat 16 (pos 0 ∷ [])) ≡ record { risk = pos 0; active = 1; paired = 2; price2 = 0 } }
{}

/// Three long futures against four short ones, and the greatest sum and price risk: as many of the largest contract as
/// an account may hold.
#[tactic(auto, unfolding(crate::specs::Scenarios::scan_of, crate::specs::Scenarios::scenario_sums))]
pub fn sums_of_held_contracts()
    ensures long_and_short { scan_of (scenario_sums (held (pos 3) future ∷ held (neg_ℤ (pos 4)) future ∷ []))
        ≡ record { risk = pos 1200; active = 11; paired = 12; price2 = 2400 } }
    ensures largest { scan_of (scenario_sums (repeat MAX_HELD (held (pos MAX_NET) largest ∷ [])))
        ≡ record { risk = pos MAX_SUM; active = 3; paired = 4; price2 = MAX_PRICE2 } }
{}
