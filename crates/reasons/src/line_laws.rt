//! Lemmas: the figures of a commodity follow from its lines alone, by the numbers in their fields. Each is the contract
//! of a function that does nothing.
ghost use Rattle.inter_credit.specs.OptionValue.{position_value};
ghost use Rattle.inter_credit.specs.Requirement.{is_call, is_put};
ghost use Rattle.plan_ir.specs.Figures.{deltas_at, figures_of, held_at, numbers_of, tiers_at};
ghost use Rattle.reasons.specs.Laws.{AgreesWithItsMonth, AreAccepted, IsOfRecord, is_long_in, side_letter, spots_with_delta};
ghost use Rattle.reasons.specs.Laws.{values_shown_at};
ghost use Rattle.reasons.specs.Lines.{credit_by_lines, delivery_by_lines, figures_by_lines, intra_by_lines, line_of, lines_of};
ghost use Rattle.reasons.specs.Lines.{minimum_by_lines, net_by_lines, number_at, short_by_lines, sums_by_lines, text_at};
ghost use Rattle.reasons.specs.Lines.{value_by_lines, weight_by_lines, words_in_order, words_of_one};
ghost use Rattle.reasons.specs.Reasons.{inters_shown_at, intras_shown_at, reasons_of};
ghost use Rattle.scan_risk.specs.Scenarios.{active_scenario, paired_scenario, price2, scan_risk, scenario_sums};
ghost use Rattle.span_tables.specs.Tables.{AcceptedTables, facts_in};
ghost use Rattle.span_tables.specs.declared.portfolios.Holding.{Holding};
ghost use Rattle.span_tables.specs.declared.sides.Side.{Side};
ghost use Rattle.spread_stage.specs.Deltas.{months_of};
ghost use Rattle.std.specs.Fmt.{decimal};
ghost use Rattle.std.specs.Prelude.{◌*◌, ◌*ℤ◌, ◌+ℤ◌, ◌<◌, ◌<ℤ◌, ◌≡◌, All, List, bytes_eq, codes, flat_map, length, map, pos, true, ℕ};

/// The lines of a commodity are exactly the lines of each word in turn, in the order of docs/FORMATS.md. `SUMS`,
/// `SCAN`, `CREDIT` and `SHORT` have one line each.
pub fn lines_stand_in_the_order_of_their_words()
    ensures order { (t : AcceptedTables) (holdings : List Holding) (c : ℕ)
        → reasons_of t holdings c ≡ flat_map (λ word. lines_of word (reasons_of t holdings c)) words_in_order }
    ensures one { (t : AcceptedTables) (holdings : List Holding) (c : ℕ)
        → All (λ word. length (lines_of word (reasons_of t holdings c)) ≡ 1) words_of_one }
{}

/// The SUMS line has the scenario sums. Scan risk and active scenario follow from these sums. The SCAN line has both,
/// the paired scenario, and the price risk in tenths.
pub fn scan_follows_from_the_sums_line()
    ensures sums { (t : AcceptedTables) (holdings : List Holding) (c : ℕ) → AreAccepted t holdings
        → sums_by_lines (reasons_of t holdings c) ≡ scenario_sums (held_at t holdings c) }
    ensures risk { (t : AcceptedTables) (holdings : List Holding) (c : ℕ) → AreAccepted t holdings
        → (figures_of t holdings c).scan ≡ scan_risk (sums_by_lines (reasons_of t holdings c)) }
    ensures active { (t : AcceptedTables) (holdings : List Holding) (c : ℕ) → AreAccepted t holdings
        → (figures_of t holdings c).active ≡ active_scenario (sums_by_lines (reasons_of t holdings c)) }
    ensures risk_told { (t : AcceptedTables) (holdings : List Holding) (c : ℕ) → AreAccepted t holdings
        → number_at 0 (line_of (codes "SCAN") (reasons_of t holdings c)) 0 ≡ scan_risk (sums_by_lines (reasons_of t holdings c)) }
    ensures active_told { (t : AcceptedTables) (holdings : List Holding) (c : ℕ) → AreAccepted t holdings
        → number_at 0 (line_of (codes "SCAN") (reasons_of t holdings c)) 1
        ≡ pos (active_scenario (sums_by_lines (reasons_of t holdings c))) }
    ensures paired_told { (t : AcceptedTables) (holdings : List Holding) (c : ℕ) → AreAccepted t holdings
        → number_at 0 (line_of (codes "SCAN") (reasons_of t holdings c)) 2
        ≡ pos (paired_scenario (active_scenario (sums_by_lines (reasons_of t holdings c)))) }
    ensures price_risk_told { (t : AcceptedTables) (holdings : List Holding) (c : ℕ) → AreAccepted t holdings
        → number_at 1 (line_of (codes "SCAN") (reasons_of t holdings c)) 3
        ≡ pos (price2 (sums_by_lines (reasons_of t holdings c)) * 5) }
{}

/// The MONTH lines are the lines of the months of held contracts, each with its delta and with what is left of it.
pub fn month_lines_have_each_held_month()
    ensures months { (t : AcceptedTables) (holdings : List Holding) (c : ℕ)
        → map (λ l. text_at l 0) (lines_of (codes "MONTH") (reasons_of t holdings c)) ≡ map decimal (months_of (held_at t holdings c)) }
    ensures deltas { (t : AcceptedTables) (holdings : List Holding) (c : ℕ) → AreAccepted t holdings
        → map (λ l. number_at 8 l 1) (lines_of (codes "MONTH") (reasons_of t holdings c)) ≡ map (λ m. m.units) (deltas_at t holdings c) }
    ensures left { (t : AcceptedTables) (holdings : List Holding) (c : ℕ) → AreAccepted t holdings
        → map (λ l. number_at 8 l 2) (lines_of (codes "MONTH") (reasons_of t holdings c))
        ≡ map (λ m. m.units) (tiers_at t holdings c).rests }
{}

/// The intracommodity charge is the sum of the charges of the INTRA lines, rounded up. Each charge is a number of
/// spreads above 0 times the rate.
pub fn intracommodity_charge_follows_from_the_intra_lines()
    ensures charge { (t : AcceptedTables) (holdings : List Holding) (c : ℕ) → AreAccepted t holdings
        → (figures_of t holdings c).intra ≡ intra_by_lines (reasons_of t holdings c) }
    ensures each { (t : AcceptedTables) (holdings : List Holding) (c : ℕ) → AreAccepted t holdings
        → All (λ l. number_at 4 l 4 ≡ number_at 4 l 2 *ℤ number_at 0 l 3) (lines_of (codes "INTRA") (reasons_of t holdings c)) }
    ensures some { (t : AcceptedTables) (holdings : List Holding) (c : ℕ) → AreAccepted t holdings
        → All (λ l. pos 0 <ℤ number_at 4 l 2) (lines_of (codes "INTRA") (reasons_of t holdings c)) }
{}

/// The INTRA lines and the INTER lines are the spreads shown, each with its priority and the number of spreads that
/// form. The long side of a line is `A` exactly if the legs of side A are long in the direction of its spread, and
/// likewise for `B`. An INTRA line has the rate of its spread. The delta used of an INTER line is its number of spreads
/// times the ratio of a leg that its record has in the commodity.
pub fn spread_lines_have_each_spread()
    ensures intra_priorities { (t : AcceptedTables) (holdings : List Holding) (c : ℕ)
        → map (λ l. text_at l 0) (lines_of (codes "INTRA") (reasons_of t holdings c))
        ≡ map (λ s. decimal s.priority) (intras_shown_at t holdings c) }
    ensures intra_sides { (t : AcceptedTables) (holdings : List Holding) (c : ℕ) (side : Side)
        → map (λ l. bytes_eq (text_at l 1) (side_letter side)) (lines_of (codes "INTRA") (reasons_of t holdings c))
        ≡ map (λ s. is_long_in s.direction side) (intras_shown_at t holdings c) }
    ensures intra_spreads { (t : AcceptedTables) (holdings : List Holding) (c : ℕ) → AreAccepted t holdings
        → map (λ l. number_at 4 l 2) (lines_of (codes "INTRA") (reasons_of t holdings c))
        ≡ map (λ s. pos s.formed) (intras_shown_at t holdings c) }
    ensures intra_rates { (t : AcceptedTables) (holdings : List Holding) (c : ℕ)
        → map (λ l. text_at l 3) (lines_of (codes "INTRA") (reasons_of t holdings c))
        ≡ map (λ s. decimal s.rate) (intras_shown_at t holdings c) }
    ensures inter_priorities { (t : AcceptedTables) (holdings : List Holding) (c : ℕ)
        → map (λ l. text_at l 0) (lines_of (codes "INTER") (reasons_of t holdings c))
        ≡ map (λ s. decimal s.priority) (inters_shown_at t holdings c) }
    ensures inter_sides { (t : AcceptedTables) (holdings : List Holding) (c : ℕ) (side : Side)
        → map (λ l. bytes_eq (text_at l 1) (side_letter side)) (lines_of (codes "INTER") (reasons_of t holdings c))
        ≡ map (λ s. is_long_in s.direction side) (inters_shown_at t holdings c) }
    ensures inter_spreads { (t : AcceptedTables) (holdings : List Holding) (c : ℕ) → AreAccepted t holdings
        → map (λ l. number_at 4 l 2) (lines_of (codes "INTER") (reasons_of t holdings c))
        ≡ map (λ s. pos s.formed) (inters_shown_at t holdings c) }
    ensures inter_records { (t : AcceptedTables) (holdings : List Holding) (c : ℕ) → AreAccepted t holdings
        → All (IsOfRecord t c) (lines_of (codes "INTER") (reasons_of t holdings c)) }
{}

/// The SPOT lines are the SPOT records of the commodity whose month has a delta other than 0, in their order. Each has
/// the month, the spread rate and the outright rate of its record, and agrees with the MONTH line of this month.
pub fn spot_lines_have_each_spot_month()
    ensures months { (t : AcceptedTables) (holdings : List Holding) (c : ℕ)
        → map (λ l. text_at l 0) (lines_of (codes "SPOT") (reasons_of t holdings c))
        ≡ map (λ s. decimal s.month) (spots_with_delta t holdings c) }
    ensures spread_rates { (t : AcceptedTables) (holdings : List Holding) (c : ℕ)
        → map (λ l. text_at l 2) (lines_of (codes "SPOT") (reasons_of t holdings c))
        ≡ map (λ s. decimal s.spread_rate) (spots_with_delta t holdings c) }
    ensures outright_rates { (t : AcceptedTables) (holdings : List Holding) (c : ℕ)
        → map (λ l. text_at l 4) (lines_of (codes "SPOT") (reasons_of t holdings c))
        ≡ map (λ s. decimal s.outright_rate) (spots_with_delta t holdings c) }
    ensures month_lines { (t : AcceptedTables) (holdings : List Holding) (c : ℕ) → AreAccepted t holdings
        → All (AgreesWithItsMonth (reasons_of t holdings c)) (lines_of (codes "SPOT") (reasons_of t holdings c)) }
{}

/// The delivery charge is the sum of the charges of the SPOT lines, rounded up. Each charge is the delta used times the
/// spread rate plus the delta left times the outright rate.
pub fn delivery_charge_follows_from_the_spot_lines()
    ensures charge { (t : AcceptedTables) (holdings : List Holding) (c : ℕ) → AreAccepted t holdings
        → (figures_of t holdings c).delivery ≡ delivery_by_lines (reasons_of t holdings c) }
    ensures each { (t : AcceptedTables) (holdings : List Holding) (c : ℕ) → AreAccepted t holdings
        → All (λ l. number_at 8 l 5 ≡ (number_at 8 l 1 *ℤ number_at 0 l 2) +ℤ (number_at 8 l 3 *ℤ number_at 0 l 4))
        (lines_of (codes "SPOT") (reasons_of t holdings c)) }
{}

/// The CREDIT line has the price risk of the SCAN line, the sum of the deltas of the MONTH lines, and the weight. The
/// weight is the sum over the INTER lines of the delta used times the basis points. The credit follows from these
/// three. Each INTER line has more than 0 spreads.
pub fn credit_follows_from_the_lines()
    ensures price_risk { (t : AcceptedTables) (holdings : List Holding) (c : ℕ) → AreAccepted t holdings → c < length t.commodities
        → number_at 1 (line_of (codes "CREDIT") (reasons_of t holdings c)) 0
        ≡ number_at 1 (line_of (codes "SCAN") (reasons_of t holdings c)) 3 }
    ensures net { (t : AcceptedTables) (holdings : List Holding) (c : ℕ) → AreAccepted t holdings → c < length t.commodities
        → number_at 8 (line_of (codes "CREDIT") (reasons_of t holdings c)) 1 ≡ net_by_lines (reasons_of t holdings c) }
    ensures weight { (t : AcceptedTables) (holdings : List Holding) (c : ℕ) → AreAccepted t holdings → c < length t.commodities
        → number_at 8 (line_of (codes "CREDIT") (reasons_of t holdings c)) 2 ≡ weight_by_lines (reasons_of t holdings c) }
    ensures credit { (t : AcceptedTables) (holdings : List Holding) (c : ℕ) → AreAccepted t holdings
        → (figures_of t holdings c).credit ≡ credit_by_lines (reasons_of t holdings c) }
    ensures some { (t : AcceptedTables) (holdings : List Holding) (c : ℕ) → AreAccepted t holdings
        → All (λ l. pos 0 <ℤ number_at 4 l 2) (lines_of (codes "INTER") (reasons_of t holdings c)) }
{}

/// The minimum is the rate of the SHORT line times its counts, combined by the method in the line.
pub fn minimum_follows_from_the_short_line()
    ensures { (t : AcceptedTables) (holdings : List Holding) (c : ℕ) → AreAccepted t holdings → c < length t.commodities
        → (figures_of t holdings c).minimum ≡ minimum_by_lines (reasons_of t holdings c) }
{}

/// The SHORT line has the number of short calls before the number of short puts. Each number is the sum of the sizes of
/// the negative net quantities in the HELD lines of type `C` or `P`.
pub fn short_line_has_the_short_calls_and_puts()
    ensures calls { (t : AcceptedTables) (holdings : List Holding) (c : ℕ) → AreAccepted t holdings
        → number_at 0 (line_of (codes "SHORT") (reasons_of t holdings c)) 0 ≡ short_by_lines (codes "C") (reasons_of t holdings c) }
    ensures puts { (t : AcceptedTables) (holdings : List Holding) (c : ℕ) → AreAccepted t holdings
        → number_at 0 (line_of (codes "SHORT") (reasons_of t holdings c)) 1 ≡ short_by_lines (codes "P") (reasons_of t holdings c) }
{}

/// The HELD lines are the held contracts, each with its month and its net quantity. The type is `C` exactly if the
/// contract is a call, and `P` exactly if it is a put. If options have a value, each line has the value of its
/// position, and the value of the commodity is their sum.
pub fn held_lines_have_each_held_contract()
    ensures contracts { (t : AcceptedTables) (holdings : List Holding) (c : ℕ)
        → map (λ l. text_at l 0) (lines_of (codes "HELD") (reasons_of t holdings c)) ≡ map (λ h. (h.contract).id) (held_at t holdings c) }
    ensures calls { (t : AcceptedTables) (holdings : List Holding) (c : ℕ)
        → map (λ l. bytes_eq (text_at l 1) (codes "C")) (lines_of (codes "HELD") (reasons_of t holdings c))
        ≡ map (λ h. is_call (h.contract).kind) (held_at t holdings c) }
    ensures puts { (t : AcceptedTables) (holdings : List Holding) (c : ℕ)
        → map (λ l. bytes_eq (text_at l 1) (codes "P")) (lines_of (codes "HELD") (reasons_of t holdings c))
        ≡ map (λ h. is_put (h.contract).kind) (held_at t holdings c) }
    ensures months { (t : AcceptedTables) (holdings : List Holding) (c : ℕ)
        → map (λ l. text_at l 2) (lines_of (codes "HELD") (reasons_of t holdings c))
        ≡ map (λ h. decimal (h.contract).month) (held_at t holdings c) }
    ensures nets { (t : AcceptedTables) (holdings : List Holding) (c : ℕ) → AreAccepted t holdings
        → map (λ l. number_at 0 l 3) (lines_of (codes "HELD") (reasons_of t holdings c)) ≡ map (λ h. h.net) (held_at t holdings c) }
    ensures each_value { (t : AcceptedTables) (holdings : List Holding) (c : ℕ) → AreAccepted t holdings
        → (facts_in t).options_have_value ≡ true → map (λ l. number_at 0 l 4) (lines_of (codes "HELD") (reasons_of t holdings c))
        ≡ map position_value (held_at t holdings c) }
    ensures values { (t : AcceptedTables) (holdings : List Holding) (c : ℕ) → AreAccepted t holdings
        → (facts_in t).options_have_value ≡ true → value_by_lines (reasons_of t holdings c) ≡ values_shown_at t holdings c }
{}

/// All figures of a commodity follow from its lines: the numbers of its R line can be computed from them alone.
pub fn figures_follow_from_the_lines()
    ensures { (t : AcceptedTables) (holdings : List Holding) (c : ℕ) → AreAccepted t holdings → c < length t.commodities
        → numbers_of (figures_of t holdings c) ≡ figures_by_lines (reasons_of t holdings c) }
{
    scan_follows_from_the_sums_line();
    intracommodity_charge_follows_from_the_intra_lines();
    delivery_charge_follows_from_the_spot_lines();
    credit_follows_from_the_lines();
    minimum_follows_from_the_short_line();
}
