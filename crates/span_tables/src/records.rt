//! The records of parameter, position and order files (docs/FORMATS.md), and the spreads that the tables make of them,
//! as plain data in the units of docs/METHOD.md, "Units".
use crate::legs::MonthLeg;
use crate::limits::SCENARIOS;
use crate::name::Name;
use crate::sides::Side;
use arrayvec::ArrayVec;
use span_money::amounts::{Delta, Ratio, Scale};
use span_money::divisor::Divisor;
use std::marker::Model;

/// A future, a call or a put.
#[derive(Clone, Copy, Debug, PartialEq, Eq)]
pub enum ProductKind {
    Future,
    Call,
    Put,
}

/// The method by which the short option minimum counts short calls and short puts: their sum, or the larger of the two.
#[derive(Clone, Copy, Debug, PartialEq, Eq)]
pub enum MinimumMethod {
    Sum,
    Max,
}

/// The SET record: the id, the profile and the currency of the parameter set.
///
/// The profile is the version of the SET record.
#[derive(Drop)]
pub struct SetRecord {
    pub id: Name,
    pub profile: u8,
    pub currency: [u8; 3],
}

/// A combined commodity, with the rate (in minor units a contract) and the method of its short option minimum.
#[derive(Drop)]
pub struct Commodity {
    pub id: Name,
    pub minimum_rate: u32,
    pub method: MinimumMethod,
}

/// The fields that profiles add to a contract. A field that the profile does not add has its value in `none`.
#[derive(Clone, Copy, Debug, PartialEq, Eq)]
pub struct ContractExtras {
    /// The value of one long contract, in minor units. It is 0 for a future.
    pub option_value: u32,
}

impl ContractExtras {
    ghost use Rattle.std.specs.Prelude.{◌≡◌};
    ghost use Rattle.span_tables.specs.Profiles.{no_extras};

    /// Returns the fields of a contract whose profile adds none.
    pub fn none() -> ContractExtras
        ensures { result ≡ no_extras }
    {
        ContractExtras { option_value: 0 }
    }
}

/// A contract: its composite delta, its delta scaling factor, its risk array and the fields that its profile adds.
///
/// `month` is `yyyymm`. A value of the risk array is for one long contract, in minor units. A loss is positive.
#[derive(Drop)]
pub struct Contract {
    pub id: Name,
    pub commodity: Name,
    pub kind: ProductKind,
    pub month: u32,
    pub delta: Delta,
    pub scale: Scale,
    pub values: [i32; SCENARIOS],
    pub extras: ContractExtras,
}

impl Contract {
    ghost use Rattle.std.specs.Prelude.{◌≡◌};

    /// Returns a copy of the contract, without allocation.
    pub fn copied(&self) -> Contract
        ensures { result ≡ self.now }
    {
        Contract {
            id: self.id.copied(),
            commodity: self.commodity.copied(),
            kind: self.kind,
            month: self.month,
            delta: self.delta,
            scale: self.scale,
            values: self.values,
            extras: self.extras,
        }
    }
}

/// A tier of a commodity: the months (`yyyymm`) from the first to the last.
#[derive(Drop)]
pub struct Tier {
    pub commodity: Name,
    pub number: u32,
    pub first: u32,
    pub last: u32,
}

impl Tier {
    ghost use Rattle.std.specs.Prelude.{◌≡◌};

    /// Returns a copy of the tier, without allocation.
    pub fn copied(&self) -> Tier
        ensures { result ≡ self.now }
    {
        Tier {
            commodity: self.commodity.copied(),
            number: self.number,
            first: self.first,
            last: self.last,
        }
    }
}

/// A leg of an intracommodity spread, as in its record: a tier number, a side and a ratio.
#[derive(Clone, Copy, Default)]
pub struct IntraLeg {
    pub tier: u32,
    pub side: Side,
    pub ratio: Ratio,
}

/// An intracommodity spread, as in its record. The rate is in minor units a spread.
#[derive(Drop)]
pub struct IntraRecord {
    pub commodity: Name,
    pub priority: u32,
    pub rate: u32,
    pub legs: ArrayVec<IntraLeg, 4>,
}

/// A spot month (`yyyymm`) of a commodity, with the two rates of its delivery charge in minor units a delta.
#[derive(Drop)]
pub struct Spot {
    pub commodity: Name,
    pub month: u32,
    pub spread_rate: u32,
    pub outright_rate: u32,
}

impl Spot {
    ghost use Rattle.std.specs.Prelude.{◌≡◌};

    /// Returns a copy of the spot month, without allocation.
    pub fn copied(&self) -> Spot
        ensures { result ≡ self.now }
    {
        Spot {
            commodity: self.commodity.copied(),
            month: self.month,
            spread_rate: self.spread_rate,
            outright_rate: self.outright_rate,
        }
    }
}

/// A leg of an intercommodity spread, as in its record: a commodity id, a side and a ratio.
#[derive(Default, Drop)]
pub struct InterLeg {
    pub commodity: Name,
    pub side: Side,
    pub ratio: Ratio,
}

/// An intercommodity spread, as in its record. The credit rate is in basis points.
#[derive(Drop)]
pub struct InterRecord {
    pub priority: u32,
    pub basis_points: u32,
    pub legs: ArrayVec<InterLeg, 4>,
}

/// A record of a parameter file.
#[derive(Drop)]
pub enum Record {
    Set(SetRecord),
    Commodity(Commodity),
    Contract(Contract),
    Tier(Tier),
    Intra(IntraRecord),
    Spot(Spot),
    Inter(InterRecord),
}

/// A record of a position file, as in contract clauses. The quantity is in contracts, and a short one is negative.
#[derive(Drop)]
pub struct PositionRecord {
    pub account: Name,
    pub contract: Name,
    pub quantity: i32,
}

/// A record of a position file. Accounts are numbered from 0 in the order of first appearance. The quantity is in
/// contracts, and a short one is negative.
#[derive(Drop)]
pub struct NumberedPosition {
    pub contract: Name,
    pub account: u16,
    pub quantity: i32,
}

/// A record of an order file, as in contract clauses. The quantity is in contracts, and a short one is negative.
#[derive(Drop)]
pub struct OrderRecord {
    pub order: Name,
    pub account: Name,
    pub contract: Name,
    pub quantity: i32,
}

/// An accepted intracommodity spread: its priority, its rate in minor units a spread, and its legs with the months of
/// their tiers.
#[derive(Drop)]
pub struct Intra {
    legs: ArrayVec<MonthLeg, 4>,
    rate: u32,
    priority: u32,
}

impl Model for Intra {
    ghost use Rattle.span_tables.specs.Spreads.{IntraSpread};

    ghost Value = { IntraSpread };

    ghost view = { λ s. record { priority = s.priority; rate = s.rate; legs = s.legs.items } };
}

impl Intra {
    ghost use Rattle.std.specs.Prelude.{◌≡◌};

    /// Returns a spread with this priority, this rate in minor units a spread, and these legs.
    pub fn new(priority: u32, rate: u32, legs: ArrayVec<MonthLeg, 4>) -> Intra
        ensures { result ≡ record { priority = priority; rate = rate; legs = legs.items } }
    {
        Intra {
            legs,
            rate,
            priority,
        }
    }

    /// Returns the priority. The spreads of a commodity are sorted by rising priority.
    pub fn priority(&self) -> u32
        ensures { result ≡ self.now.priority }
    {
        self.priority
    }

    /// Returns the rate, in minor units a spread.
    pub fn rate(&self) -> u32
        ensures { result ≡ self.now.rate }
    {
        self.rate
    }

    /// Returns the legs.
    pub fn legs(&self) -> &[MonthLeg]
        ensures { result.now ≡ self.now.legs }
    {
        &self.legs
    }
}

/// A leg of an accepted intercommodity spread: its commodity number from 0, a side and a ratio.
#[derive(Clone, Copy, Default)]
pub struct CommodityLeg {
    pub commodity: usize,
    pub side: Side,
    pub ratio: Divisor,
}

/// An accepted intercommodity spread: its priority, its credit rate in basis points, and its legs.
#[derive(Drop)]
pub struct Inter {
    legs: ArrayVec<CommodityLeg, 4>,
    basis_points: u32,
    priority: u32,
}

impl Model for Inter {
    ghost use Rattle.span_tables.specs.Spreads.{InterSpread};

    ghost Value = { InterSpread };

    ghost view = { λ s. record { priority = s.priority; basis_points = s.basis_points; legs = s.legs.items } };
}

impl Inter {
    ghost use Rattle.std.specs.Prelude.{◌≡◌};

    /// Returns a spread with this priority, this credit rate in basis points, and these legs.
    pub fn new(priority: u32, basis_points: u32, legs: ArrayVec<CommodityLeg, 4>) -> Inter
        ensures { result ≡ record { priority = priority; basis_points = basis_points; legs = legs.items } }
    {
        Inter {
            legs,
            basis_points,
            priority,
        }
    }

    /// Returns the priority. The spreads of the parameter set are sorted by rising priority.
    pub fn priority(&self) -> u32
        ensures { result ≡ self.now.priority }
    {
        self.priority
    }

    /// Returns the credit rate, in basis points.
    pub fn basis_points(&self) -> u32
        ensures { result ≡ self.now.basis_points }
    {
        self.basis_points
    }

    /// Returns the legs.
    pub fn legs(&self) -> &[CommodityLeg]
        ensures { result.now ≡ self.now.legs }
    {
        self.legs.as_slice()
    }
}
