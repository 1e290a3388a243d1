//! Test vectors, computed by the definitions.
ghost use Rattle.std.specs.List.{repeat};
ghost use Rattle.std.specs.Prelude.{◌≡◌, [], ◌∷◌, pos, neg_ℤ};
ghost use Rattle.span_tables.specs.declared.limits.TheConstants.{MAX_HELD, MAX_NET, MAX_UNITS};
ghost use Rattle.spread_stage.specs.Charges.{delivery_charge, intra_charge};
ghost use Rattle.spread_stage.specs.Deltas.{month_deltas};
ghost use Rattle.spread_stage.specs.near.Samples.{calendar_spread, future, held, largest, march, month_units};
ghost use Rattle.spread_stage.specs.Spreads.{after_spreads, formed_both, unspread};

// The deltas of two held months, and the greatest delta: as many of the largest contract as an account may hold.
#[tactic(auto, unfolding(crate::specs::Deltas::month_deltas))]
fn deltas_of_two_months()
    ensures two { month_deltas (held (pos 3) (future 202503) ∷ held (neg_ℤ (pos 2)) (future 202506) ∷ [])
        ≡ month_units 202503 (pos 300000000) ∷ month_units 202506 (neg_ℤ (pos 200000000)) ∷ [] }
    ensures largest { month_deltas (repeat MAX_HELD (held (neg_ℤ (pos MAX_NET)) largest ∷ []))
        ≡ month_units 202503 (pos MAX_UNITS) ∷ [] }
{}

// The remaining deltas and the charge after spreads. Two of three and two deltas are spread. A third of a spread leaves
// 10000 units on each month. The earliest month of a tier is used first.
#[tactic(auto, unfolding(crate::specs::Spreads::after_spreads, crate::specs::Spreads::spread_both_ways))]
fn rests_of_one_spread()
    ensures two { after_spreads (calendar_spread 10000 ∷ [])
        (month_units 202503 (pos 300000000) ∷ month_units 202506 (neg_ℤ (pos 200000000)) ∷ [])
        ≡ record { rests = month_units 202503 (pos 100000000) ∷ month_units 202506 (pos 0) ∷ []; charge = 5000000 } }
    ensures third { after_spreads (calendar_spread 30000 ∷ [])
        (month_units 202503 (pos 100000000) ∷ month_units 202506 (neg_ℤ (pos 100000000)) ∷ [])
        ≡ record { rests = month_units 202503 (pos 10000) ∷ month_units 202506 (neg_ℤ (pos 10000)) ∷ []; charge = 833250 } }
    ensures earliest_first { after_spreads (calendar_spread 10000 ∷ [])
        (month_units 202503 (pos 100000000) ∷ month_units 202504 (pos 200000000) ∷ month_units 202506 (neg_ℤ (pos 200000000)) ∷ [])
        ≡ record {
          rests = month_units 202503 (pos 0) ∷ month_units 202504 (pos 100000000) ∷ month_units 202506 (pos 0) ∷ [];
          charge = 5000000;
        } }
{}

// The charge of a third of a spread, in which 83.325 is rounded up, and of two whole spreads at rate 250.
#[tactic(auto, unfolding(crate::specs::Charges::intra_charge))]
fn charge_of_one_spread()
    ensures third { intra_charge 833250 ≡ 84 }
    ensures two { intra_charge 5000000 ≡ 500 }
{}

// The delivery charge of two deltas used at rate 10 and one left at rate 20.
#[tactic(auto, unfolding(crate::specs::Charges::delivery_charge))]
fn delivery_of_one_spread()
    ensures { delivery_charge (month_units 202503 (pos 300000000) ∷ []) (month_units 202503 (pos 100000000) ∷ []) (march ∷ [])
        ≡ 40 }
{}

// Spreads formed in both directions.
fn spreads_formed_each_way()
    ensures { formed_both
        (unspread (month_units 202503 (pos 100000000) ∷ month_units 202504 (neg_ℤ (pos 200000000))
        ∷ month_units 202506 (neg_ℤ (pos 100000000)) ∷ month_units 202507 (pos 300000000) ∷ [])) (calendar_spread 10000)
        ≡ record { a_long = 10000; a_short = 20000 } }
{}
