//! Slots of months: small numbers for an index by months.
ghost use Rattle.std.specs.Prelude.{◌≡◌, ◌<◌};
ghost use Rattle.span_money.specs.declared.bits.TheConstants.{BITS};
ghost use Rattle.spread_stage.specs.near.SpotIndex.{month_number, month_slot};

use span_money::bits::BITS;

/// Returns the number of a month (`yyyymm`), counted from year 0.
#[inline(always)]
pub fn month_number(month: u32) -> usize
    ensures { result ≡ month_number month }
{
    month as usize / 100 * 12 + month as usize % 100
}

/// Returns the slot of a month (`yyyymm`): the remainder of its number by `BITS`. Any months of five years in a row have
/// different slots.
#[inline(always)]
pub fn slot_of(month: u32) -> usize
    ensures slot { result ≡ month_slot month }
    ensures small { result < BITS }
{
    month_number(month) % BITS
}
