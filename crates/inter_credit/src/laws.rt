//! Lemmas about the definitions, in the terms of the methodology. Each is the contract of a function that does nothing.
ghost use Rattle.std.specs.Prelude.{◌≡◌, ◌≢◌, ◌==◌, ℕ, ◌+◌, ◌*◌, ◌^◌, ◌<◌, ◌≤◌, max, Bool, ◌&&◌, List, [], length};
ghost use Rattle.std.specs.Prelude.{filter, sum_by, ◌⊎◌, ℤ, pos, ◌+ℤ◌, ◌-ℤ◌, ◌≤ℤ◌, int_lt, nat_abs};
ghost use Rattle.std.specs.List.{AllByRecursion};
ghost use Rattle.span_tables.specs.Accepted.{IsInter};
ghost use Rattle.span_tables.specs.Net.{HeldContract};
ghost use Rattle.span_tables.specs.declared.records.Inter.{Inter};
ghost use Rattle.span_tables.specs.declared.records.MinimumMethod.TheVariants as method;
ghost use Rattle.span_tables.specs.declared.records.ProductKind.{ProductKind};
ghost use Rattle.span_tables.specs.declared.sides.Direction.{Direction};
ghost use Rattle.inter_credit.specs.Credits.{after_inter_spreads, credit_of, inter_formed_both, inter_formed_in, inter_both_ways};
ghost use Rattle.inter_credit.specs.Credits.{inter_one_way, leg_side, credit_at, state_at};
ghost use Rattle.inter_credit.specs.OptionValue.{due_of, excess_of};
ghost use Rattle.inter_credit.specs.Requirement.{is_call, is_put, minimum_of, requirement_of, short_count};
ghost use Rattle.inter_credit.specs.States.{IsUnspread, UsesState};
ghost use Rattle.inter_credit.specs.declared.requirement.TheConstants.{MAX_PART};
ghost use Rattle.inter_credit.specs.declared.commodity_state.CommodityState.{CommodityState};

/// The size of each part of a requirement is at most 10^26 minor units.
pub fn part_has_these_digits()
    ensures { MAX_PART ≡ 100000000000000000000000000 }
{}

/// The credit is 0 if the net delta is 0. Otherwise it is the greatest number whose product is within price risk times
/// weight.
pub fn credit_is_greatest()
    ensures zero { (state : CommodityState) → nat_abs state.net ≡ 0 → credit_of state ≡ 0 }
    ensures greatest { (state : CommodityState) → nat_abs state.net ≢ 0
        → (credit_of state * (2 * 10 ^ 4 * nat_abs state.net) ≤ state.price2 * state.weight)
        × ((g : ℕ) → g * (2 * 10 ^ 4 * nat_abs state.net) ≤ state.price2 * state.weight
        → g ≤ credit_of state) }
{}

/// Without intercommodity spreads there is no credit.
pub fn no_spread_no_credit()
    ensures { (states : List CommodityState) (commodity : ℕ) → IsUnspread states
        → credit_at (after_inter_spreads [] states) commodity ≡ 0 }
{}

/// A spread only uses remaining deltas. Net deltas and price risks do not change, no remaining delta grows in size or
/// changes its sign, and a weight grows by the units used times the basis points.
pub fn spread_uses_rests()
    ensures length { (states : List CommodityState) (spread : Inter) → length (inter_both_ways states spread) ≡ length states }
    ensures states { (states : List CommodityState) (spread : Inter) → IsInter (length states) spread
        → (k : ℕ) → UsesState spread.basis_points (state_at states k) (state_at (inter_both_ways states spread) k) }
{}

/// In one direction, each leg uses units of its commodity's remaining delta: exactly the number of spreads formed times
/// the leg's ratio. The states of commodities without a leg do not change.
pub fn each_leg_uses_its_part()
    ensures legs { (d : Direction) (spread : Inter) (states : List CommodityState) → IsInter (length states) spread
        → AllByRecursion (λ leg. leg_side d leg (inter_one_way spread d states)
        + inter_formed_in spread d states * leg.ratio ≡ leg_side d leg states) spread.legs }
    ensures others { (d : Direction) (spread : Inter) (states : List CommodityState) (k : ℕ)
        → AllByRecursion (λ leg. leg.commodity ≢ k) spread.legs
        → state_at (inter_one_way spread d states) k ≡ state_at states k }
{}

/// The weight of a commodity grows, for each of its legs, by the spreads formed in both directions times the leg's
/// ratio times the basis points.
pub fn spreads_formed_add_weight()
    ensures { (states : List CommodityState) (spread : Inter) (k : ℕ) → k < length states
        → (state_at (inter_both_ways states spread) k).weight ≡ (state_at states k).weight
        + sum_by (λ leg. ((inter_formed_both states spread).a_long + (inter_formed_both states spread).a_short)
        * leg.ratio * spread.basis_points)
        (filter (λ leg. leg.commodity == k) spread.legs) }
{}

/// An intercommodity spread forms in at most one direction, since a commodity's remaining delta is on one side of the
/// market.
pub fn spreads_form_in_one_direction()
    ensures { (states : List CommodityState) (spread : Inter) → IsInter (length states) spread
        → ((inter_formed_both states spread).a_long ≡ 0) ⊎ ((inter_formed_both states spread).a_short ≡ 0) }
{}

/// The count of a kind is the sum of the sizes of its negative nets. The minimum is the rate times the count of calls
/// and puts together, or times the larger of the two counts.
pub fn minimum_counts_short_options()
    ensures counts { (is_kind : ProductKind → Bool) (held : List HeldContract)
        → short_count is_kind held ≡ sum_by (λ h. nat_abs h.net)
        (filter (λ h. is_kind (h.contract).kind && int_lt h.net (pos 0)) held) }
    ensures sum { (rate : ℕ) (held : List HeldContract)
        → minimum_of rate method.Sum held ≡ rate * (short_count is_call held + short_count is_put held) }
    ensures larger { (rate : ℕ) (held : List HeldContract)
        → minimum_of rate method.Max held ≡ rate * max (short_count is_call held) (short_count is_put held) }
{}

/// At least one of due and excess is 0, and the total is the option value plus the due less the excess.
#[tactic(auto, using(crate::proofs::ValueLemmas::due_or_excess, crate::proofs::ValueLemmas::settled))]
pub fn due_and_excess_settle_the_value()
    ensures one { (total value : ℤ) → (due_of total value ≡ 0) ⊎ (excess_of total value ≡ 0) }
    ensures settled { (total value : ℤ)
        → total ≡ (value +ℤ pos (due_of total value)) -ℤ pos (excess_of total value) }
{}

/// The requirement is the least number that is at least scan risk and charges less the credit, and at least the
/// minimum.
pub fn requirement_is_the_larger()
    ensures { (scan intra delivery credit minimum : ℤ)
        → ((((scan +ℤ intra) +ℤ delivery) -ℤ credit) ≤ℤ requirement_of scan intra delivery credit minimum)
        × (minimum ≤ℤ requirement_of scan intra delivery credit minimum)
        × ((g : ℤ) → (((scan +ℤ intra) +ℤ delivery) -ℤ credit) ≤ℤ g → minimum ≤ℤ g
        → requirement_of scan intra delivery credit minimum ≤ℤ g) }
{}
