//! Sets of numbers of tiers or commodities, each in a 64-bit word. They can show that a number is not in a set.
ghost use Rattle.std.specs.Prelude.{◌≡◌, ◌<◌, ℕ, ℤ};
ghost use Rattle.span_tables.specs.Slots.{IsMarked, IsOpenAt, with_slot};

use crate::sides::{MarketSide, part_on};
use span_money::amounts::Units;
use span_money::bits::BITS;

// Returns the set with one more number.
#[inline(always)]
fn with(word: u64, number: usize) -> u64
    ensures { result ≡ with_slot word number }
{
    word | 1 << (number % BITS)
}

// Returns the set with one more number if the part of its remaining delta is above 0, or else as it is.
#[inline(always)]
fn with_part(word: u64, number: usize, part: u64) -> u64
    ensures added { 0 < part → IsMarked result number }
    ensures kept { (other : ℕ) → IsMarked word other → IsMarked result other }
{
    if part > 0 { with(word, number) } else { word }
}

/// The numbers that may have a remaining delta on the long side of the market, and on the short side. Each number has
/// the slot of its remainder by `BITS`.
///
/// A number whose slot is not marked has no remaining delta on that side. If its slot is marked, either the number or
/// another number with the same slot may have one.
#[derive(Clone, Copy, Debug, PartialEq, Eq)]
pub struct OpenSides {
    pub long: u64,
    pub short: u64,
}

impl OpenSides {
    /// Returns the value without a remaining delta on either side.
    pub fn none() -> OpenSides
        ensures { result ≡ record { long = 0; short = 0 } }
    {
        OpenSides { long: 0, short: 0 }
    }

    /// Returns the value with the remaining delta of one more number.
    pub fn with(self, number: usize, rest: Units) -> OpenSides
        ensures added { IsOpenAt result number rest }
        ensures kept { (other : ℕ) (z : ℤ) → IsOpenAt self other z → IsOpenAt result other z }
    {
        OpenSides {
            long: with_part(self.long, number, part_on(MarketSide::Long, rest)),
            short: with_part(self.short, number, part_on(MarketSide::Short, rest)),
        }
    }
}
