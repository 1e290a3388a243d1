//! Test vectors for faults, computed by the definitions only.
#![tactic(auto, unfolding(crate::specs::CheckFaults::check_fault, crate::specs::CheckFaults::check_faults))]

ghost use Rattle.std.specs.Prelude.{◌≡◌, [], ◌∷◌, Some, codes};
ghost use Rattle.param_check.specs.CheckFaults.{check_fault, check_faults};
ghost use Rattle.param_check.specs.near.Samples.{inter_sample};
ghost use Rattle.param_check.specs.declared.faults.CheckFault.TheVariants as check;
ghost use Rattle.span_tables.specs.near.Samples.{commodity};
ghost use Rattle.span_tables.specs.declared.sides.Side.TheVariants as side;

// If three commodities have the same id, the second and the third break C1. The third is reported once, although two
// earlier ones have its id. Only the first fault rejects the file.
fn commodity_three_times()
    ensures first { check_fault (commodity (codes "AA") ∷ commodity (codes "AA") ∷ commodity (codes "AA") ∷ [])
        ≡ Some (check.DuplicateCommodity 2) }
    ensures all { check_faults (commodity (codes "AA") ∷ commodity (codes "AA") ∷ commodity (codes "AA") ∷ [])
        ≡ check.DuplicateCommodity 2 ∷ check.DuplicateCommodity 3 ∷ [] }
{}

// Faults are ordered by rule, and for one rule by record. A record that breaks several rules is reported for each.
fn rules_before_records()
    ensures { check_faults (commodity (codes "AA")
        ∷ inter_sample 1 (codes "AA", side.A) (codes "AA", side.A)
        ∷ inter_sample 1 (codes "AA", side.A) (codes "BB", side.A) ∷ [])
        ≡ check.UnknownCommodity 3 ∷ check.RepeatedLeg 2 ∷ check.OneSided 2 ∷ check.OneSided 3
        ∷ check.DuplicatePriority 3 ∷ [] }
{}
