//! Test vectors, computed by the definitions. Each is the contract of a function that does nothing.
#![tactic(auto, unfolding(crate::proofs::OnLiterals::credits_on_literals))]

ghost use Rattle.std.specs.List.{repeat};
ghost use Rattle.std.specs.Prelude.{◌≡◌, [], ◌∷◌, pos};
ghost use Rattle.span_tables.specs.declared.limits.TheConstants.{MAX_HELD, MAX_NET, MAX_OPTION_VALUE};
ghost use Rattle.span_tables.specs.declared.records.MinimumMethod.TheVariants as method;
ghost use Rattle.span_tables.specs.declared.records.ProductKind.TheVariants as kind;
ghost use Rattle.inter_credit.specs.Credits.{inter_formed_both, unspread_state};
ghost use Rattle.inter_credit.specs.declared.option_value.TheConstants.{MAX_NET_VALUE};
ghost use Rattle.inter_credit.specs.OptionValue.{due_of, excess_of, net_value_of};
ghost use Rattle.inter_credit.specs.Requirement.{minimum_of, requirement_of};
ghost use Rattle.inter_credit.specs.near.Samples.{credited, held_with_value, short, spread_of, state_with, two_states};

// The credits of spreads. Cases: a ratio of 2 against 3, with credits that are rounded down; two spreads that share a
// commodity.
fn credits()
    ensures unequal_ratios { credited (spread_of 3333 0 20000 1 30000 ∷ []) (two_states (pos 100000000) (short 200000000))
        ≡ (state_with (pos 100000000) (pos 0) 2400 333300000000, 399)
        ∷ (state_with (short 200000000) (short 50000000) 3600 499950000000, 449) ∷ [] }
    ensures two_spreads { credited (spread_of 5000 0 10000 1 10000 ∷ spread_of 2000 0 10000 2 10000 ∷ [])
        (unspread_state (pos 300000000) 7200 ∷ unspread_state (short 100000000) 1800
        ∷ unspread_state (short 100000000) 600 ∷ [])
        ≡ (state_with (pos 300000000) (pos 100000000) 7200 700000000000, 840)
        ∷ (state_with (short 100000000) (pos 0) 1800 500000000000, 450)
        ∷ (state_with (short 100000000) (pos 0) 600 200000000000, 60) ∷ [] }
{}

// Spreads with A short.
fn spreads_formed_each_way()
    ensures { inter_formed_both (two_states (short 100000000) (pos 200000000)) (spread_of 5000 0 10000 1 10000)
        ≡ record { a_long = 0; a_short = 10000 } }
{}

// Two short calls and three short puts, together with long puts: by method SUM, and by method MAX.
fn minimums()
    ensures by_sum { minimum_of 500 method.Sum (held_with_value kind.Call (short 2) 0
        ∷ held_with_value kind.Put (short 3) 0 ∷ held_with_value kind.Put (pos 4) 0 ∷ []) ≡ 2500 }
    ensures by_max { minimum_of 500 method.Max (held_with_value kind.Call (short 2) 0
        ∷ held_with_value kind.Put (short 3) 0 ∷ held_with_value kind.Put (pos 4) 0 ∷ []) ≡ 1500 }
{}

// A requirement that is the minimum, and one of scan risk with both charges, less the credit.
fn requirements()
    ensures of_the_minimum { requirement_of (pos 40) (pos 0) (pos 0) (pos 0) (pos 2500) ≡ pos 2500 }
    ensures of_stages { requirement_of (pos 1200) (pos 500) (pos 40) (pos 600) (pos 0) ≡ pos 1140 }
{}

// The option value of two short calls with three short puts. An option value below 0 is due, and one above the total is
// an excess. The greatest option value is of as many of the most valuable calls as an account may hold.
fn option_values()
    ensures short { net_value_of (held_with_value kind.Call (short 2) 120 ∷ held_with_value kind.Put (short 3) 80 ∷ []) ≡ short 480 }
    ensures largest { net_value_of (repeat MAX_HELD (held_with_value kind.Call (pos MAX_NET) MAX_OPTION_VALUE ∷ []))
        ≡ pos MAX_NET_VALUE }
    ensures due { due_of (pos 1700) (short 480) ≡ 2180 }
    ensures excess { excess_of (pos 100) (pos 480) ≡ 380 }
{}
