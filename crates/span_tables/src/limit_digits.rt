//! The limits, with their digits. Whoever changes a limit in `limits` must change it here too. docs/ARCHITECTURE.md, "A
//! revised limit", lists the other copies of the digits, in proofs, test vectors, tests and prose.
ghost use Rattle.std.specs.Prelude.{◌≡◌};
ghost use Rattle.span_tables.specs.declared.limits.TheConstants.{MAX_COMMODITIES, MAX_CONTRACTS, MAX_INTER_SPREADS, MAX_TIERS};
ghost use Rattle.span_tables.specs.declared.limits.TheConstants.{MAX_INTRA_SPREADS, MAX_SPOT_MONTHS, MAX_ACCOUNTS, MAX_NET};
ghost use Rattle.span_tables.specs.declared.limits.TheConstants.{MAX_HELD, SCENARIOS, MIN_LEGS, MAX_LEGS, MAX_RATE};
ghost use Rattle.span_tables.specs.declared.limits.TheConstants.{MAX_ARRAY_VALUE, MAX_DELTA, MAX_SCALE, MAX_RATIO};
ghost use Rattle.span_tables.specs.declared.limits.TheConstants.{MAX_TIER_NUMBER, MAX_PRIORITY, MAX_BASIS_POINTS, MAX_QUANTITY};
ghost use Rattle.span_tables.specs.declared.limits.TheConstants.{MAX_OPTION_VALUE, MAX_ORDERS, MAX_PROFILE, VALUE_PROFILE};

/// The maximum count of each kind, and the profiles.
pub fn counts_have_these_digits()
    ensures commodities { MAX_COMMODITIES ≡ 128 }
    ensures contracts { MAX_CONTRACTS ≡ 4096 }
    ensures inter_spreads { MAX_INTER_SPREADS ≡ 256 }
    ensures tiers { MAX_TIERS ≡ 32 }
    ensures intra_spreads { MAX_INTRA_SPREADS ≡ 64 }
    ensures spot_months { MAX_SPOT_MONTHS ≡ 16 }
    ensures accounts { MAX_ACCOUNTS ≡ 4096 }
    ensures orders { MAX_ORDERS ≡ 65536 }
    ensures net { MAX_NET ≡ 100000 }
    ensures held { MAX_HELD ≡ 1024 }
    ensures scenarios { SCENARIOS ≡ 16 }
    ensures least_legs { MIN_LEGS ≡ 2 }
    ensures most_legs { MAX_LEGS ≡ 4 }
    ensures profile { MAX_PROFILE ≡ 2 }
    ensures value_profile { VALUE_PROFILE ≡ 2 }
{}

/// The maximum size of each field: rates and values in minor units; deltas, scales, ratios and credit rates in 10^-4.
pub fn sizes_have_these_digits()
    ensures rate { MAX_RATE ≡ 100000000 }
    ensures array_value { MAX_ARRAY_VALUE ≡ 100000000 }
    ensures option_value { MAX_OPTION_VALUE ≡ 100000000 }
    ensures delta { MAX_DELTA ≡ 10000 }
    ensures scale { MAX_SCALE ≡ 100000 }
    ensures ratio { MAX_RATIO ≡ 10000000 }
    ensures tier_number { MAX_TIER_NUMBER ≡ 32 }
    ensures priority { MAX_PRIORITY ≡ 9999 }
    ensures basis_points { MAX_BASIS_POINTS ≡ 10000 }
    ensures quantity { MAX_QUANTITY ≡ 1000000 }
{}
