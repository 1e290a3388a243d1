//! An index of the spot months of a commodity by slots of months. It finds the spot months that may be held without a
//! look at the others.
ghost use Rattle.std.specs.Prelude.{◌≡◌, ◌<◌, ◌≤◌, ℕ, length, slice_index_or};
ghost use Rattle.std.specs.Int.{bit_at};
ghost use Rattle.span_tables.specs.declared.limits.TheConstants.{MAX_SPOT_MONTHS};
ghost use Rattle.spread_stage.specs.near.SpotIndex.{AreSpots, HasSpot};
ghost use Rattle.spread_stage.specs.declared.months.MonthUnits.{MonthUnits};

use crate::month_slots::slot_of;
use crate::months::MonthUnits;
use span_money::bits::BITS;
use span_tables::records::Spot;

/// The spot months of each slot of months. A spot month is the bit of its number.
#[derive(Drop)]
pub struct SpotIndex {
    slots: [u16; BITS],
}

impl SpotIndex {
    /// Returns the index of spot months.
    pub fn new(spots: &[Spot]) -> SpotIndex
        requires { length spots.now ≤ MAX_SPOT_MONTHS }
        ensures { AreSpots result spots.now }
    {
        let mut index = SpotIndex { slots: [0; BITS] };
        for number in 0..spots.len() {
            index.add(number, spots[number].month);
        }
        index
    }

    // Adds a spot month by its number.
    fn add(&mut self, number: usize, month: u32)
        requires { number < MAX_SPOT_MONTHS }
        ensures added { HasSpot self.new number month }
        ensures kept { (k m : ℕ) → HasSpot self.old k m → HasSpot self.new k m }
    {
        self.slots[slot_of(month)] |= 1 << number;
    }

    /// Returns the spot months that may be among these months. A spot month is the bit of its number.
    #[inline(always)]
    pub fn among(&self, months: &[MonthUnits]) -> u64
        ensures { (k i : ℕ) (m : MonthUnits) → i < length months.now → HasSpot self.now k (slice_index_or months.now i m).month
            → bit_at result k ≡ 1 }
    {
        let mut found = 0;
        for month in months {
            found |= self.slots[slot_of(month.month)];
        }
        u64::from(found)
    }
}
