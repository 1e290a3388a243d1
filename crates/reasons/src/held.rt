//! The lines of a commodity's held contracts, of its scan, and of its short options.
ghost use Rattle.std.specs.Prelude.{[], ◌∷◌, ◌≡◌, ◌++◌, ◌<◌, IfSome, OnOk, length, map, slice_get};
ghost use Rattle.scan_risk.specs.Scenarios.{scan_of, scenario_sums};
ghost use Rattle.reasons.specs.Reasons.{held_reason, scan_reason, short_reason, sums_reason};
ghost use Rattle.reasons.specs.near.Fields.{reason_text, reasons_text};

use crate::words::{kind_letter, method_word};
use inter_credit::option_value::position_value;
use inter_credit::requirement::short_counts;
use scan_risk::Scan;
use scan_risk::scanning::scan;
use scan_risk::scenarios::sums;
use span_money::line_fields::{Field, push_line, push_number, push_start};
use span_tables::held::Held;
use span_tables::limits::SCENARIOS;
use span_tables::records::Commodity;
use span_tables::tables::Tables;
use std::alloc::AllocError;

// Appends the line of the held contract at an index.
fn push_held_at(
    out: &mut Vec<u8>,
    ids: &[Field<'_>],
    tables: &Tables,
    held: &Held<'_>,
    place: usize,
) -> Result<(), AllocError>
    requires { place < length held.now }
    ensures { OnOk result (IfSome (slice_get held.now place) (λ h.
        out.new.items ≡ out.old.items ++ reason_text ids.now (held_reason tables.now h))) }
{
    let contract = held.contract(place);
    let id = Field::Bytes(contract.id.as_bytes());
    let kind = Field::Text(kind_letter(contract.kind));
    let month = Field::Whole(i128::from(contract.month));
    let net = Field::Whole(i128::from(held.net(place)));
    if !tables.facts().options_have_value {
        return push_line(out, "HELD", ids, &[id, kind, month, net]);
    }
    let value = Field::Whole(position_value(held, place).get());
    push_line(out, "HELD", ids, &[id, kind, month, net, value])
}

/// Appends the lines of the held contracts.
pub(crate) fn push_held(
    out: &mut Vec<u8>,
    ids: &[Field<'_>],
    tables: &Tables,
    held: &Held<'_>,
) -> Result<(), AllocError>
    ensures { OnOk result (out.new.items
        ≡ out.old.items ++ reasons_text ids.now (map (held_reason tables.now) held.now)) }
{
    for place in 0..held.len() {
        push_held_at(out, ids, tables, held, place)?;
    }
    Ok(())
}

// Appends the line of the sixteen scenario sums.
fn push_sums(
    out: &mut Vec<u8>,
    ids: &[Field<'_>],
    sums: &[i64; SCENARIOS],
) -> Result<(), AllocError>
    ensures { OnOk result (out.new.items ≡ out.old.items ++ reason_text ids.now (sums_reason sums.now)) }
{
    push_start(out, "SUMS", ids)?;
    for sum in sums {
        push_number(out, i128::from(*sum))?;
    }
    out.push(b'\n')?;
    Ok(())
}

// Appends the line of the scan.
fn push_scan_line(out: &mut Vec<u8>, ids: &[Field<'_>], scan: &Scan) -> Result<(), AllocError>
    ensures { OnOk result (out.new.items ≡ out.old.items ++ reason_text ids.now (scan_reason scan.now)) }
{
    let fields = [
        Field::Whole(scan.risk.get()),
        Field::Whole(i128::from(scan.active)),
        Field::Whole(i128::from(scan.paired)),
        Field::Half(scan.price2),
    ];
    push_line(out, "SCAN", ids, &fields)
}

/// Appends the lines of the scenario sums and of their scan.
pub(crate) fn push_scan(
    out: &mut Vec<u8>,
    ids: &[Field<'_>],
    held: &Held<'_>,
) -> Result<(), AllocError>
    ensures { OnOk result (out.new.items ≡ out.old.items ++ reasons_text ids.now
        (sums_reason (scenario_sums held.now) ∷ scan_reason (scan_of (scenario_sums held.now)) ∷ [])) }
{
    let sums = sums(held);
    push_sums(out, ids, &sums)?;
    push_scan_line(out, ids, &scan(&sums))
}

/// Appends the line of the short options.
pub(crate) fn push_short(
    out: &mut Vec<u8>,
    ids: &[Field<'_>],
    commodity: &Commodity,
    held: &Held<'_>,
) -> Result<(), AllocError>
    ensures { OnOk result (out.new.items ≡ out.old.items ++ reason_text ids.now (short_reason commodity.now held.now)) }
{
    let short = short_counts(held);
    let fields = [
        Field::Whole(i128::from(short.calls)),
        Field::Whole(i128::from(short.puts)),
        Field::Text(method_word(commodity.method)),
        Field::Whole(i128::from(commodity.minimum_rate)),
    ];
    push_line(out, "SHORT", ids, &fields)
}
