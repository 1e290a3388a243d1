//! An account's holdings in runs: the holdings of one commodity after another, by rising commodity number.
ghost use Rattle.std.specs.Prelude.{◌≡◌, ◌≢◌, ◌<◌, ◌≤◌, OnOk, length, slice_index_or, true};
ghost use Rattle.std.specs.List.{AllWithin};
ghost use Rattle.span_tables.specs.Holdings.{fits};
ghost use Rattle.span_tables.specs.near.Gathered.{number_held};
ghost use Rattle.span_tables.specs.near.Runs.{AreByCommodity};
ghost use Rattle.span_tables.specs.declared.portfolios.Holding.{Holding};

use crate::portfolios::Holding;
use crate::tables::Tables;
use std::alloc::AllocError;

/// Returns whether the commodity numbers of holdings rise, so that the holdings of a commodity are a run.
pub fn rise_by_commodity(tables: &Tables, holdings: &[Holding]) -> bool
    requires { fits (length tables.now.contracts) holdings.now ≡ true }
    ensures { result ≡ true → AreByCommodity tables.now holdings.now holdings.now }
{
    let mut latest = 0;
    for holding in holdings {
        let commodity = tables.commodity_of(holding.contract);
        if commodity < latest {
            return false;
        }
        latest = commodity;
    }
    true
}

/// Replaces `sorted` by the holdings in the order of their commodity numbers. The holdings of a commodity keep their
/// order.
pub fn sort_by_commodity(
    tables: &Tables,
    holdings: &[Holding],
    sorted: &mut Vec<Holding>,
) -> Result<(), AllocError>
    requires { fits (length tables.now.contracts) holdings.now ≡ true }
    ensures { OnOk result (AreByCommodity tables.now holdings.now sorted.new.items) }
{
    tables.known();
    sorted.clear();
    sorted.extend_from_slice(holdings)?;
    sorted.sort_by_key(|holding| tables.commodity_of(holding.contract))?;
    Ok(())
}

/// Returns the index after the last holding of the run that begins at index `start`: the holdings of the commodity with
/// this number.
pub fn end_of_run(tables: &Tables, holdings: &[Holding], start: usize, commodity: usize) -> usize
    requires { start ≤ length holdings.now }
    ensures begins { start ≤ result }
    ensures inside { result ≤ length holdings.now }
    ensures same { AllWithin (λ h. number_held tables.now h ≡ commodity) holdings.now start result }
    ensures ends { (h : Holding) → result < length holdings.now
        → number_held tables.now (slice_index_or holdings.now result h) ≢ commodity }
{
    let mut end = start;
    while end < holdings.len() && tables.commodity_of(holdings[end].contract) == commodity {
        end += 1;
    }
    end
}
