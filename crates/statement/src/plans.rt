//! The compiled plan of a parameter file, as text (docs/FORMATS.md, "Plan listing").
ghost use Rattle.statement_text.specs.Gives.{Gives};
ghost use Rattle.statement.specs.Listing.{listing_of};

use acceptance::accepting::tables_of;
use plan_compiler::set::compile;
use plan_ir::listing::list;
use statement_text::faults::SpanFault;
use std::alloc::Global;

/// Returns the steps of the plan of a parameter file, one on each line, or the first fault in reading it and checking
/// it. Fails with `Memory` if memory runs out.
#[tactic(auto, unfolding(crate::specs::Listing::listing_of))]
pub fn plan_plain(alloc: Global, params: &[u8]) -> Result<Vec<u8>, SpanFault>
    ensures { Gives (λ text. text.items) result (listing_of params.now) }
{
    let tables = tables_of(alloc, params)?;
    let set = compile(alloc, tables)?;
    let text = list(alloc, set.plan())?;
    Ok(text)
}
