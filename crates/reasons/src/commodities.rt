//! The state that all commodities of an account share, and the lines of the spreads between commodities.
ghost use Rattle.std.specs.Prelude.{◌≡◌, ◌++◌, ◌*◌, ◌^◌, ◌==◌, ◌<◌, All, IfOk, List, OnOk};
ghost use Rattle.std.specs.Prelude.{find, fold, length, map, option_copied};
ghost use Rattle.span_tables.specs.Accepted.{IsInter};
ghost use Rattle.inter_credit.specs.Credits.{inter_both_ways};
ghost use Rattle.inter_credit.specs.near.CommodityStates.{IsCommodityState};
ghost use Rattle.inter_credit.specs.declared.commodity_state.CommodityState.{CommodityState};
ghost use Rattle.reasons.specs.Reasons.{credit_reason, inter_reason};
ghost use Rattle.reasons.specs.Shown.{inter_in, inter_ways, inters_shown, ratio_in};
ghost use Rattle.reasons.specs.near.Stages.{inters_formed};
ghost use Rattle.reasons.specs.near.Fields.{reason_text, reasons_text};

use crate::words::long_side;
use inter_credit::commodity_state::CommodityState;
use inter_credit::state::InterState;
use span_money::line_fields::{Field, push_line};
use span_tables::records::{CommodityLeg, Inter};
use span_tables::sides::{Direction, SpreadsFormed};
use std::alloc::{AllocError, Global};

/// Forms the intercommodity spreads in their order, and returns how many of each form in each direction, in 10^-4
/// spreads.
pub(crate) fn form_inters(
    alloc: Global,
    state: &mut InterState,
    inters: &[Inter],
) -> Result<Vec<SpreadsFormed>, AllocError>
    requires { All (IsInter (length state.old)) inters.now }
    ensures states { IfOk result (λ _. state.new ≡ fold inter_both_ways state.old inters.now) }
    ensures formed { IfOk result (λ formed. formed.items ≡ inters_formed inters.now state.old) }
{
    let mut formed = Vec::with_capacity(alloc, inters.len())?;
    for inter in inters {
        formed.push(state.spread_counted(inter))?;
    }
    Ok(formed)
}

// Returns the leg in the commodity of a number, if there is one.
fn leg_in(legs: &[CommodityLeg], commodity: usize) -> Option<&CommodityLeg>
    ensures { option_copied result ≡ find (λ leg. leg.commodity == commodity) legs.now }
{
    legs.iter().find(|leg| leg.commodity == commodity)
}

// Returns the delta, in 10^-8, that a number of spreads (in 10^-4) uses of the commodity of a leg with this ratio.
fn used_by(formed: u64, ratio: u32) -> u128
    ensures value { result ≡ formed * ratio }
    ensures bound { result < 2 ^ 127 }
{
    u128::from(formed) * u128::from(ratio)
}

// Appends the line of an intercommodity spread in a direction for a leg of this ratio, if more than 0 form.
fn push_inter(
    out: &mut Vec<u8>,
    ids: &[Field<'_>],
    inter: &Inter,
    ratio: u32,
    direction: Direction,
    formed: u64,
) -> Result<(), AllocError>
    ensures { OnOk result (out.new.items
        ≡ out.old.items ++ reasons_text ids.now (map inter_reason (inter_in inter.now ratio direction formed))) }
{
    if formed == 0 {
        return Ok(());
    }
    let fields = [
        Field::Whole(i128::from(inter.priority())),
        Field::Text(long_side(direction)),
        Field::FourPlaces(i128::from(formed)),
        Field::EightPlaces(used_by(formed, ratio) as i128),
        Field::Whole(i128::from(inter.basis_points())),
    ];
    push_line(out, "INTER", ids, &fields)
}

// Appends the lines of an intercommodity spread in both directions, if it has a leg in the commodity of a number.
fn push_inter_ways(
    out: &mut Vec<u8>,
    ids: &[Field<'_>],
    commodity: usize,
    inter: &Inter,
    formed: SpreadsFormed,
) -> Result<(), AllocError>
    ensures { OnOk result (out.new.items ≡ out.old.items ++ reasons_text ids.now
        (map inter_reason (inter_ways inter.now formed (ratio_in commodity inter.now.legs)))) }
{
    let Some(leg) = leg_in(inter.legs(), commodity) else {
        return Ok(());
    };
    let ratio = leg.ratio.get();
    push_inter(out, ids, inter, ratio, Direction::ALong, formed.a_long)?;
    push_inter(out, ids, inter, ratio, Direction::AShort, formed.a_short)
}

/// Appends the lines of the intercommodity spreads that have a leg in the commodity of a number, as they formed.
pub(crate) fn push_inters(
    out: &mut Vec<u8>,
    ids: &[Field<'_>],
    commodity: usize,
    inters: &[Inter],
    formed: &[SpreadsFormed],
) -> Result<(), AllocError>
    ensures { (states : List CommodityState) → formed.now ≡ inters_formed inters.now states → OnOk result (out.new.items
        ≡ out.old.items ++ reasons_text ids.now (map inter_reason (inters_shown commodity inters.now states))) }
{
    for (inter, ways) in inters.iter().zip(formed) {
        push_inter_ways(out, ids, commodity, inter, *ways)?;
    }
    Ok(())
}

/// Appends the CREDIT line: the price risk, the net delta and the weight from which the credit of a commodity is
/// computed.
pub(crate) fn push_credit(
    out: &mut Vec<u8>,
    ids: &[Field<'_>],
    state: &CommodityState,
) -> Result<(), AllocError>
    requires { IsCommodityState state.now }
    ensures { OnOk result (out.new.items ≡ out.old.items ++ reason_text ids.now (credit_reason state.now)) }
{
    let fields = [
        Field::Half(state.price2),
        Field::EightPlaces(i128::from(state.net.get())),
        Field::EightPlaces(state.weight as i128),
    ];
    push_line(out, "CREDIT", ids, &fields)
}
