//! Lemmas about the scan, in the terms of the methodology. Each is the contract of a function that does nothing.
ghost use Rattle.std.specs.Prelude.{◌≡◌, ℕ, ◌+◌, ◌<◌, List, ◌∷◌, length, slice_index_or, All, ℤ, pos, ◌≤ℤ◌, ◌<ℤ◌};
ghost use Rattle.scan_risk.specs.Scenarios.{active_scenario, at_scenario, scan_risk};

/// Scan risk is the least number that is at least 0 and at least every sum.
pub fn scan_risk_is_least()
    ensures { (sums : List ℤ) → (pos 0 ≤ℤ scan_risk sums) × All (λ s. s ≤ℤ scan_risk sums) sums
        × ((g : ℤ) → pos 0 ≤ℤ g → All (λ s. s ≤ℤ g) sums → scan_risk sums ≤ℤ g) }
{}

/// The active scenario is the lowest-numbered one whose sum is at least every sum.
pub fn active_scenario_is_lowest()
    ensures largest { (s : ℤ) (rest : List ℤ)
        → All (λ t. t ≤ℤ at_scenario (s ∷ rest) (active_scenario (s ∷ rest))) (s ∷ rest) }
    ensures first { (s : ℤ) (rest : List ℤ) (k : ℕ) → 0 < k → k < active_scenario (s ∷ rest)
        → ¬ (All (λ t. t ≤ℤ at_scenario (s ∷ rest) k) (s ∷ rest)) }
    ensures found { (sums : List ℤ) (i : ℕ) → i < length sums → ((k : ℕ) → k < length sums
        → slice_index_or sums k (pos 0) ≤ℤ slice_index_or sums i (pos 0))
        → ((k : ℕ) → k < i → slice_index_or sums k (pos 0) <ℤ slice_index_or sums i (pos 0))
        → active_scenario sums ≡ i + 1 }
{}
