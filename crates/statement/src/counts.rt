//! The check of a parameter file by itself, which counts its records.
ghost use Rattle.span_money.specs.LineFields.{line};
ghost use Rattle.statement_text.specs.Gives.{Gives};
ghost use Rattle.statement.specs.Counts.{counts_line, counts_of};
ghost use Rattle.std.specs.Prelude.{◌≡◌, IfOk};

use acceptance::accepting::tables_of;
use span_money::line_fields::{Field, push_line_of_numbers};
use span_tables::tables::Tables;
use statement_text::faults::SpanFault;
use std::alloc::{AllocError, Global};

/// Returns the line of accepted tables: `OK`, the id of the parameter set, and the numbers of commodities, contracts,
/// tiers, intracommodity spreads, spot months and intercommodity spreads (docs/FORMATS.md, Commands).
#[tactic(auto, unfolding(crate::specs::Counts::counts_line))]
pub fn write_counts(alloc: Global, tables: &Tables) -> Result<Vec<u8>, AllocError>
    ensures { IfOk result (λ text. text.items ≡ line (counts_line tables.now)) }
{
    let counts = tables.counts();
    let numbers = [
        counts.commodities as i128,
        counts.contracts as i128,
        counts.tiers as i128,
        counts.intra as i128,
        counts.spots as i128,
        counts.inter as i128,
    ];
    let ids = [Field::Bytes(tables.set_id().as_bytes())];
    let mut out = Vec::new(alloc);
    push_line_of_numbers(&mut out, "OK", &ids, &numbers)?;
    Ok(out)
}

/// Returns the counts of a parameter file, or the first fault in reading it and checking it. Fails with `Memory` if
/// memory runs out.
#[tactic(auto, unfolding(crate::specs::Counts::counts_of))]
pub fn check_plain(alloc: Global, params: &[u8]) -> Result<Vec<u8>, SpanFault>
    ensures { Gives (λ text. text.items) result (counts_of params.now) }
{
    let tables = tables_of(alloc, params)?;
    let text = write_counts(alloc, &tables)?;
    Ok(text)
}
