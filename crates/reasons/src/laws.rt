//! Lemmas: the figures of a commodity follow from what its lines show. Each is the contract of a function that does
//! nothing.
ghost use Rattle.inter_credit.specs.Credits as commodities;
ghost use Rattle.inter_credit.specs.Credits.{credit_of, inter_both_ways};
ghost use Rattle.inter_credit.specs.Requirement.{is_call, is_put, requirement_of, short_count};
ghost use Rattle.plan_ir.specs.Figures.{commodity_at, deltas_at, figures_of, held_at, intras_at, loaded_states, scan_at};
ghost use Rattle.reasons.specs.Laws.{StandsIn, counted};
ghost use Rattle.reasons.specs.Reasons.{inters_shown_at, intras_shown_at, state_after_all, months_shown_at, spots_shown_at};
ghost use Rattle.reasons.specs.Shown.{inter_ways, shown_intra_charge, intra_ways, ratio_in, shown_spot_charge, weight_of};
ghost use Rattle.scan_risk.specs.Scenarios.{active_scenario, scan_risk, scenario_sums};
ghost use Rattle.span_money.specs.Numbers.{int_sum_by};
ghost use Rattle.span_tables.specs.Accepted.{IsWithinLimits};
ghost use Rattle.span_tables.specs.Laws.{IsRisingBy};
ghost use Rattle.span_tables.specs.Tables.{AcceptedTables, inters_of, tables_of};
ghost use Rattle.span_tables.specs.declared.portfolios.Holding.{Holding};
ghost use Rattle.span_tables.specs.declared.records.Inter.{Inter};
ghost use Rattle.span_tables.specs.declared.records.Intra.{Intra};
ghost use Rattle.span_tables.specs.declared.records.Record.{Record};
ghost use Rattle.spread_stage.specs.Spreads as months;
ghost use Rattle.spread_stage.specs.Spreads.{spread_both_ways, unspread};
ghost use Rattle.std.specs.Int.{div_ceil};
ghost use Rattle.std.specs.List.{enumerate_from};
ghost use Rattle.std.specs.Prelude.{◌*◌, ◌<◌, ◌^◌, ◌≡◌, All, List, Some, flat_map, fold, length, pos, slice_get, sum_by, take, ℕ};

/// The scan risk is the largest of the sums shown, or 0, and the active scenario is the first one that has the largest
/// sum.
#[tactic(auto, unfolding(plan_ir::specs::Figures::figures_of, scan_risk::specs::Scenarios::scan_of))]
pub fn scan_risk_is_the_largest_sum_shown()
    ensures risk { (t : AcceptedTables) (holdings : List Holding) (c : ℕ)
        → (figures_of t holdings c).scan ≡ scan_risk (scenario_sums (held_at t holdings c)) }
    ensures active { (t : AcceptedTables) (holdings : List Holding) (c : ℕ)
        → (figures_of t holdings c).active ≡ active_scenario (scenario_sums (held_at t holdings c)) }
{}

/// The intracommodity charge is the sum of the charges of the spreads shown, divided by 10^4 and rounded up.
#[tactic(auto, using(crate::proofs::ChargeLaws::intra_shown))]
pub fn intracommodity_charge_is_that_of_the_spreads_shown()
    ensures { (t : AcceptedTables) (holdings : List Holding) (c : ℕ) → (figures_of t holdings c).intra
        ≡ pos (div_ceil (sum_by shown_intra_charge (intras_shown_at t holdings c)) (10 ^ 4)) }
{}

/// The spreads shown between months are exactly the spreads that each record forms in turn. There is one for each
/// direction in which more than 0 form. Its number is what forms from the residual deltas left by the spreads before
/// it. For the tables of any records, the priorities rise.
pub fn each_spread_between_months_has_its_lines()
    ensures stands { (t : AcceptedTables) (holdings : List Holding) (c k : ℕ) (spread : Intra)
        → slice_get (intras_at t c) k ≡ Some spread → StandsIn (intra_ways spread (months.formed_both
        (fold spread_both_ways (unspread (deltas_at t holdings c)) (take k (intras_at t c))) spread))
        (intras_shown_at t holdings c) }
    ensures in_turn { (t : AcceptedTables) (holdings : List Holding) (c : ℕ) → intras_shown_at t holdings c
        ≡ flat_map (λ x. intra_ways x.1 (months.formed_both
        (fold spread_both_ways (unspread (deltas_at t holdings c)) (take x.0 (intras_at t c))) x.1))
        (enumerate_from 0 (intras_at t c)) }
    ensures some { (t : AcceptedTables) (holdings : List Holding) (c : ℕ) → All (λ s. 0 < s.formed) (intras_shown_at t holdings c) }
    ensures rising { (records : List Record) (holdings : List Holding) (c : ℕ)
        → IsRisingBy (λ s. s.priority) (intras_shown_at (tables_of records) holdings c) }
{}

/// The delivery charge is the sum of the charges of the spot months shown, divided by 10^8 and rounded up. A spot month
/// whose delta is 0 has no charge.
#[tactic(auto, using(crate::proofs::ChargeLaws::delivery_shown))]
pub fn delivery_charge_is_that_of_the_months_shown()
    ensures { (t : AcceptedTables) (holdings : List Holding) (c : ℕ) → (figures_of t holdings c).delivery
        ≡ pos (div_ceil (sum_by shown_spot_charge (spots_shown_at t holdings c)) (10 ^ 8)) }
{}

/// The net delta of the credit is the sum of the deltas of the months shown. Its price risk is the price risk of the
/// scan. Spreads between commodities change neither.
#[tactic(auto, using(crate::proofs::CreditLaws::net_shown, crate::proofs::CreditLaws::price2_shown))]
pub fn net_delta_is_the_sum_of_the_months_shown()
    ensures net { (t : AcceptedTables) (holdings : List Holding) (c : ℕ) → c < length t.commodities
        → (state_after_all t holdings c).net ≡ int_sum_by (λ m. m.delta) (months_shown_at t holdings c) }
    ensures price_risk { (t : AcceptedTables) (holdings : List Holding) (c : ℕ) → c < length t.commodities
        → (state_after_all t holdings c).price2 ≡ (scan_at t holdings c).price2 }
{}

/// The weight of the credit is the sum of the weights of the spreads shown. The weight of a spread is the delta that it
/// uses times its basis points.
#[tactic(auto, using(crate::proofs::CreditLaws::weight_shown))]
pub fn weight_is_the_sum_of_the_spreads_shown()
    ensures { (t : AcceptedTables) (holdings : List Holding) (c : ℕ) → IsWithinLimits t → c < length t.commodities
        → (state_after_all t holdings c).weight ≡ sum_by weight_of (inters_shown_at t holdings c) }
{}

/// The spreads shown between commodities are exactly the spreads that each record with a leg in the commodity forms in
/// turn. There is one for each direction in which more than 0 form. Its number is what forms from the residual deltas
/// left by the spreads before it. For the tables of any records, the priorities rise.
pub fn each_spread_between_commodities_has_its_lines()
    ensures stands { (t : AcceptedTables) (holdings : List Holding) (c k : ℕ) (spread : Inter)
        → slice_get (inters_of t) k ≡ Some spread → StandsIn (inter_ways spread (commodities.inter_formed_both
        (fold inter_both_ways (loaded_states t holdings) (take k (inters_of t))) spread) (ratio_in c spread.legs))
        (inters_shown_at t holdings c) }
    ensures in_turn { (t : AcceptedTables) (holdings : List Holding) (c : ℕ) → inters_shown_at t holdings c
        ≡ flat_map (λ x. inter_ways x.1 (commodities.inter_formed_both
        (fold inter_both_ways (loaded_states t holdings) (take x.0 (inters_of t))) x.1) (ratio_in c (x.1).legs))
        (enumerate_from 0 (inters_of t)) }
    ensures some { (t : AcceptedTables) (holdings : List Holding) (c : ℕ) → All (λ s. 0 < s.formed) (inters_shown_at t holdings c) }
    ensures rising { (records : List Record) (holdings : List Holding) (c : ℕ)
        → IsRisingBy (λ s. s.priority) (inters_shown_at (tables_of records) holdings c) }
{}

/// The credit follows from the price risk, the net delta and the weight shown.
#[tactic(auto, using(crate::proofs::FigureLaws::credit_shown))]
pub fn credit_follows_from_what_is_shown()
    ensures { (t : AcceptedTables) (holdings : List Holding) (c : ℕ)
        → (figures_of t holdings c).credit ≡ pos (credit_of (state_after_all t holdings c)) }
{}

/// The minimum is the rate times the number of short calls and short puts shown, as the method counts them.
#[tactic(auto, using(crate::proofs::FigureLaws::minimum_shown))]
pub fn minimum_follows_from_the_counts_shown()
    ensures { (t : AcceptedTables) (holdings : List Holding) (c : ℕ) → (figures_of t holdings c).minimum
        ≡ pos ((commodity_at t c).minimum_rate * counted (commodity_at t c).method
        (short_count is_call (held_at t holdings c)) (short_count is_put (held_at t holdings c))) }
{}

/// The requirement follows from the other amounts.
#[tactic(auto, unfolding(plan_ir::specs::Figures::figures_of))]
pub fn requirement_is_of_the_figures_shown()
    ensures { (t : AcceptedTables) (holdings : List Holding) (c : ℕ) → (figures_of t holdings c).requirement
        ≡ requirement_of (figures_of t holdings c).scan (figures_of t holdings c).intra (figures_of t holdings c).delivery
        (figures_of t holdings c).credit (figures_of t holdings c).minimum }
{}
