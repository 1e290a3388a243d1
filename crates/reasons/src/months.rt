//! The lines of a commodity's months, of the spreads between them, and of its spot months.
ghost use Rattle.std.specs.Prelude.{[], ◌∷◌, ◌≡◌, ◌++◌, ◌*◌, All, IfOk, List, OnOk, fold, map, pos};
ghost use Rattle.span_tables.specs.Accepted.{IsIntra, IsSpot};
ghost use Rattle.spread_stage.specs.Months.{Shrinks};
ghost use Rattle.spread_stage.specs.Spreads.{spread_both_ways};
ghost use Rattle.spread_stage.specs.declared.months.MonthUnits.{MonthUnits};
ghost use Rattle.reasons.specs.Reasons.{intra_reason, month_reason, spot_reason};
ghost use Rattle.reasons.specs.Shown.{intra_in, intras_shown, months_shown, spots_shown};
ghost use Rattle.reasons.specs.near.Fields.{reason_text, reasons_text};

use crate::shown::{ShownIntra, ShownMonth};
use crate::words::long_side;
use span_money::line_fields::{Field, push_line};
use span_tables::records::{Intra, Spot};
use span_tables::sides::Direction;
use spread_stage::charges::{month_units, spot_use};
use spread_stage::months::Months;
use spread_stage::tiers::TierState;
use std::alloc::{AllocError, Global};

// Appends the line of a month.
fn push_month(out: &mut Vec<u8>, ids: &[Field<'_>], shown: &ShownMonth) -> Result<(), AllocError>
    ensures { OnOk result (out.new.items ≡ out.old.items ++ reason_text ids.now (month_reason shown.now)) }
{
    let fields = [
        Field::Whole(i128::from(shown.month)),
        Field::EightPlaces(i128::from(shown.delta.get())),
        Field::EightPlaces(i128::from(shown.left.get())),
    ];
    push_line(out, "MONTH", ids, &fields)
}

/// Appends the lines of the held months. The residual delta of each month has the same index as its delta.
pub(crate) fn push_months(
    out: &mut Vec<u8>,
    ids: &[Field<'_>],
    months: &Months,
    tiers: &TierState,
) -> Result<(), AllocError>
    requires { Shrinks months.now tiers.now.rests }
    ensures { OnOk result (out.new.items
        ≡ out.old.items ++ reasons_text ids.now (map month_reason (months_shown months.now tiers.now.rests))) }
{
    let deltas = months.as_slice();
    let rests = tiers.rests();
    for place in 0..deltas.len() {
        let month = deltas[place];
        let rest = rests[place];
        let shown = ShownMonth {
            month: month.month,
            delta: month.units,
            left: rest.units,
        };
        push_month(out, ids, &shown)?;
    }
    Ok(())
}

// Appends a spread in a direction, if more than 0 form.
fn push_formed(
    shown: &mut Vec<ShownIntra>,
    intra: &Intra,
    direction: Direction,
    formed: u64,
) -> Result<(), AllocError>
    ensures { OnOk result (shown.new.items ≡ shown.old.items ++ intra_in intra.now direction formed) }
{
    if formed == 0 {
        return Ok(());
    }
    shown.push(ShownIntra {
        priority: intra.priority(),
        direction,
        formed,
        rate: intra.rate(),
    })?;
    Ok(())
}

/// Forms the intracommodity spreads in their order, and returns each in the directions in which it forms.
pub(crate) fn form_intras(
    alloc: Global,
    tiers: &mut TierState,
    intras: &[Intra],
) -> Result<Vec<ShownIntra>, AllocError>
    requires { All IsIntra intras.now }
    ensures tiers { IfOk result (λ _. tiers.new ≡ fold spread_both_ways tiers.old intras.now) }
    ensures shown { IfOk result (λ shown. shown.items ≡ intras_shown intras.now tiers.old) }
    ensures shrinks { (months : List MonthUnits) → Shrinks months tiers.old.rests
        → IfOk result (λ _. Shrinks months tiers.new.rests) }
{
    let mut shown = Vec::new(alloc);
    for intra in intras {
        let formed = tiers.spread_counted(intra);
        push_formed(&mut shown, intra, Direction::ALong, formed.a_long)?;
        push_formed(&mut shown, intra, Direction::AShort, formed.a_short)?;
    }
    Ok(shown)
}

// Returns the charge of a number of spreads (in 10^-4) at a rate, in 10^-4 minor units.
fn at_rate(count: u64, rate: u32) -> i128
    ensures { result ≡ pos (count * rate) }
{
    i128::from(count) * i128::from(rate)
}

// Appends the line of an intracommodity spread in a direction.
fn push_intra(out: &mut Vec<u8>, ids: &[Field<'_>], shown: &ShownIntra) -> Result<(), AllocError>
    ensures { OnOk result (out.new.items ≡ out.old.items ++ reason_text ids.now (intra_reason shown.now)) }
{
    let fields = [
        Field::Whole(i128::from(shown.priority)),
        Field::Text(long_side(shown.direction)),
        Field::FourPlaces(i128::from(shown.formed)),
        Field::Whole(i128::from(shown.rate)),
        Field::FourPlaces(at_rate(shown.formed, shown.rate)),
    ];
    push_line(out, "INTRA", ids, &fields)
}

/// Appends the lines of intracommodity spreads in the directions in which they formed.
pub(crate) fn push_intras(
    out: &mut Vec<u8>,
    ids: &[Field<'_>],
    intras: &[ShownIntra],
) -> Result<(), AllocError>
    ensures { OnOk result (out.new.items ≡ out.old.items ++ reasons_text ids.now (map intra_reason intras.now)) }
{
    for shown in intras {
        push_intra(out, ids, shown)?;
    }
    Ok(())
}

// Appends the line of a spot month, if its delta is not 0.
fn push_spot(
    out: &mut Vec<u8>,
    ids: &[Field<'_>],
    months: &Months,
    tiers: &TierState,
    spot: &Spot,
) -> Result<(), AllocError>
    requires shrinks { Shrinks months.now tiers.now.rests }
    requires spot { IsSpot spot.now }
    ensures { OnOk result (out.new.items
        ≡ out.old.items ++ reasons_text ids.now (map spot_reason (spots_shown months.now tiers.now.rests (spot.now ∷ [])))) }
{
    if month_units(months, spot.month).get() == 0 {
        return Ok(());
    }
    let spot_use = spot_use(months, tiers, spot);
    let fields = [
        Field::Whole(i128::from(spot.month)),
        Field::EightPlaces(i128::from(spot_use.used)),
        Field::Whole(i128::from(spot.spread_rate)),
        Field::EightPlaces(i128::from(spot_use.left)),
        Field::Whole(i128::from(spot.outright_rate)),
        Field::EightPlaces(spot_use.charge as i128),
    ];
    push_line(out, "SPOT", ids, &fields)
}

/// Appends the lines of spot months.
pub(crate) fn push_spots(
    out: &mut Vec<u8>,
    ids: &[Field<'_>],
    months: &Months,
    tiers: &TierState,
    spots: &[Spot],
) -> Result<(), AllocError>
    requires shrinks { Shrinks months.now tiers.now.rests }
    requires spots { All IsSpot spots.now }
    ensures { OnOk result (out.new.items
        ≡ out.old.items ++ reasons_text ids.now (map spot_reason (spots_shown months.now tiers.now.rests spots.now))) }
{
    for spot in spots {
        push_spot(out, ids, months, tiers, spot)?;
    }
    Ok(())
}
