//! The limits of a parameter set and of an account, and the ranges of the fields of their records (docs/METHOD.md,
//! "Limits").

/// The maximum number of COMMODITY records of a file.
pub const MAX_COMMODITIES: usize = 128;
/// The maximum number of CONTRACT records of a file.
pub const MAX_CONTRACTS: usize = 4096;
/// The maximum number of INTER records of a file.
pub const MAX_INTER_SPREADS: usize = 256;
/// The maximum number of TIER records of a commodity.
pub const MAX_TIERS: usize = 32;
/// The maximum number of INTRA records of a commodity.
pub const MAX_INTRA_SPREADS: usize = 64;
/// The maximum number of SPOT records of a commodity.
pub const MAX_SPOT_MONTHS: usize = 16;
/// The maximum number of accounts of a position file.
pub const MAX_ACCOUNTS: usize = 4096;
/// The maximum number of orders of an order file.
pub const MAX_ORDERS: usize = 65_536;
/// The maximum size of a net quantity, in contracts.
pub const MAX_NET: u64 = 100_000;
/// The maximum number of contracts that an account holds.
pub const MAX_HELD: usize = 1024;
/// The number of scenarios of a risk array, which is the number of its values in a CONTRACT record.
pub const SCENARIOS: usize = 16;
/// The minimum number of legs of an INTRA or INTER record.
pub const MIN_LEGS: usize = 2;
/// The maximum number of legs of an INTRA or INTER record.
pub const MAX_LEGS: usize = 4;
/// The highest profile of a parameter set. The profile is the version of the SET record, and the lowest is 1.
pub const MAX_PROFILE: u8 = 2;
/// The first profile under which options have a value.
pub const VALUE_PROFILE: u8 = 2;

/// The maximum rate, in minor units.
pub const MAX_RATE: u32 = 100_000_000;
/// The maximum size of a risk array value, in minor units.
pub const MAX_ARRAY_VALUE: u32 = 100_000_000;
/// The maximum option value, in minor units.
pub const MAX_OPTION_VALUE: u32 = 100_000_000;
/// The maximum size of a composite delta, in 10^-4.
pub const MAX_DELTA: u32 = 10_000;
/// The maximum delta scaling factor, in 10^-4.
pub const MAX_SCALE: u32 = 100_000;
/// The maximum ratio of a leg, in 10^-4.
pub const MAX_RATIO: u32 = 10_000_000;
/// The maximum tier number.
pub const MAX_TIER_NUMBER: u32 = 32;
/// The maximum priority.
pub const MAX_PRIORITY: u32 = 9999;
/// The maximum credit rate, in basis points.
pub const MAX_BASIS_POINTS: u32 = 10_000;
/// The maximum size of the quantity of a position record or an order record, in contracts.
pub const MAX_QUANTITY: u32 = 1_000_000;

/// The maximum sum of the sizes of an account's month deltas in a commodity, in units of 10^-8. It is reached if the
/// maximum number of contracts is held, each with the maximum net quantity, delta and scale.
pub const MAX_UNITS: u64 = MAX_HELD as u64 * MAX_NET * MAX_DELTA as u64 * MAX_SCALE as u64;
/// The maximum amount that a held contract adds to a scenario sum, in minor units: the maximum net quantity times the
/// maximum array value.
pub const MAX_TERM: u64 = MAX_NET * MAX_ARRAY_VALUE as u64;
/// The maximum scenario sum, in minor units: `MAX_TERM` for each of the maximum number of held contracts.
pub const MAX_SUM: u64 = MAX_HELD as u64 * MAX_TERM;
/// The maximum of twice the price risk, in minor units: four scenario sums.
pub const MAX_PRICE2: u64 = 4 * MAX_SUM;
