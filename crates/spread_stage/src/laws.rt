//! Lemmas about the definitions, in the terms of the methodology. Each lemma is the contract of a function that does
//! nothing.
ghost use Rattle.std.specs.Prelude.{◌≡◌, ℕ, ◌+◌, ◌*◌, ◌^◌, ◌≤◌, List, ◌∷◌, ◌++◌, sum_by};
ghost use Rattle.std.specs.List.{AllByRecursion};
ghost use Rattle.span_money.specs.Numbers.{int_sum_by};
ghost use Rattle.span_tables.specs.Sides.{market_side};
ghost use Rattle.span_tables.specs.Net.{HeldContract};
ghost use Rattle.span_tables.specs.declared.records.Intra.{Intra};
ghost use Rattle.span_tables.specs.declared.legs.MonthLeg.{MonthLeg};
ghost use Rattle.span_tables.specs.declared.records.Spot.{Spot};
ghost use Rattle.span_tables.specs.declared.sides.Direction.{Direction};
ghost use Rattle.span_tables.specs.declared.sides.MarketSide.{MarketSide};
ghost use Rattle.spread_stage.specs.Charges.{delivery_charge, intra_charge, spot_charge};
ghost use Rattle.spread_stage.specs.Deltas.{month_deltas, net_delta, units_of};
ghost use Rattle.spread_stage.specs.Laws.{DrawApart};
ghost use Rattle.spread_stage.specs.Months.{MonthsRise, Shrinks};
ghost use Rattle.spread_stage.specs.Spreads.{TierRests, after_spreads, formed_both, rests_after, rests_after_leg, side_before};
ghost use Rattle.spread_stage.specs.Spreads.{spread_both_ways, tier_side, used_of_month};
ghost use Rattle.spread_stage.specs.declared.months.MonthUnits.{MonthUnits};

/// The held months are strictly ascending, and their deltas add up to the sum over all held contracts.
pub fn months_rise_and_add_up()
    ensures rise { (held : List HeldContract) → MonthsRise (month_deltas held) }
    ensures add_up { (held : List HeldContract)
        → net_delta (month_deltas held) ≡ int_sum_by units_of held }
{}

/// A leg uses exactly what it needs of its tier's months, if its side has that much.
pub fn leg_uses_what_it_needs()
    ensures { (on : MarketSide) (leg : MonthLeg) (rests : List MonthUnits) (needed : ℕ)
        → MonthsRise rests → needed ≤ tier_side rests on leg
        → sum_by (used_of_month rests on leg needed) rests ≡ needed }
{}

/// The part of a side from months earlier than a month is the side of the months in front of it, so it is a running
/// sum.
pub fn side_before_is_a_running_sum()
    ensures { (on : MarketSide) (leg : MonthLeg) (front : List MonthUnits) (m : MonthUnits) (back : List MonthUnits)
        → MonthsRise (front ++ m ∷ back)
        → side_before (front ++ m ∷ back) on leg m.month ≡ tier_side front on leg }
{}

/// A leg's side falls by exactly what the leg needs, if its side has that much.
pub fn side_falls_by_what_was_used()
    ensures { (on : MarketSide) (leg : MonthLeg) (rests : List MonthUnits) (needed : ℕ)
        → MonthsRise rests → needed ≤ tier_side rests on leg
        → tier_side (rests_after_leg on needed rests leg) on leg + needed ≡ tier_side rests on leg }
{}

/// Spreads use of each leg's side exactly their number times the leg's ratio, if no two legs use the same remaining
/// delta and each side has that much.
pub fn each_leg_uses_its_part()
    ensures { (d : Direction) (n : ℕ) (legs : List MonthLeg) (rests : List MonthUnits)
        → MonthsRise rests → DrawApart legs
        → AllByRecursion (λ leg. n * leg.ratio ≤ tier_side rests (market_side d leg.side) leg) legs
        → AllByRecursion (λ leg. tier_side (rests_after d n legs rests) (market_side d leg.side) leg + n * leg.ratio
        ≡ tier_side rests (market_side d leg.side) leg) legs }
{}

/// Spreads keep the months, and no remaining delta grows in size or changes its sign.
pub fn rests_never_grow()
    ensures { (spreads : List Intra) (months : List MonthUnits)
        → Shrinks months (after_spreads spreads months).rests }
{}

/// A spread adds its rate to the charge for each spread that it forms, over both directions.
pub fn each_spread_formed_is_charged()
    ensures { (t : TierRests) (s : Intra)
        → (spread_both_ways t s).charge ≡ t.charge + ((formed_both t s).a_long + (formed_both t s).a_short) * s.rate }
{}

/// The intracommodity charge is the smallest whole number of minor units that is not less than the exact charge.
pub fn intra_charge_is_least()
    ensures { (exact : ℕ) → (exact ≤ intra_charge exact * 10 ^ 4)
        × ((g : ℕ) → exact ≤ g * 10 ^ 4 → intra_charge exact ≤ g) }
{}

/// The delivery charge is the smallest whole number of minor units that is not less than the exact charge.
pub fn delivery_charge_is_least()
    ensures { (deltas rests : List MonthUnits) (spots : List Spot)
        → (sum_by (spot_charge deltas rests) spots ≤ delivery_charge deltas rests spots * 10 ^ 8)
        × ((g : ℕ) → sum_by (spot_charge deltas rests) spots ≤ g * 10 ^ 8 → delivery_charge deltas rests spots ≤ g) }
{}
