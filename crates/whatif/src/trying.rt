//! From the bytes of three files to the changes that the orders would make (docs/FORMATS.md, "Evaluated orders").
ghost use Rattle.binding.specs.OrderBinding.{TriedOrders};
ghost use Rattle.statement_text.specs.Gives.{Gives};
ghost use Rattle.statement_text.specs.declared.faults.SpanFault.TheVariants as fault;
ghost use Rattle.std.specs.Arc.{arc_value};
ghost use Rattle.std.specs.Prelude.{◌≡◌, ◌<◌, ◌⊎◌, ◌↔◌, Err, IfOk};
ghost use Rattle.whatif.specs.Whatif.{tried_on, whatif_of, whatif_text};
ghost use Rattle.whatif.specs.near.Orders.{OrdersFit};

use crate::batches::text_of;
use crate::margining::BatchMeans;
use acceptance::accepting::{Accepted, accept_together};
use binding::orders::{Orders, bind_orders};
use plan_compiler::set::CompiledSet;
use span_csv::orders::read_orders;
use span_tables::portfolios::Portfolios;
use statement_text::faults::SpanFault;
use std::alloc::Global;
use std::sync::{Arc, Wait};
use std::thread::Threads;
use std::time::Clock;
use worker_pool::batch::MAX_WORKERS;
use worker_pool::gates::Gate;

// Reads the orders of a file and binds them to portfolios under a compiled parameter set. Fails with the first fault in
// reading and then in binding them.
#[tactic(auto, unfolding(crate::specs::Whatif::tried_on))]
fn orders_on(
    alloc: Global,
    set: &Arc<CompiledSet>,
    portfolios: Portfolios,
    orders: &[u8],
) -> Result<Orders, SpanFault>
    ensures text { Gives (λ (o : TriedOrders). whatif_text (arc_value set.now).tables o.orders) result
        (tried_on (arc_value set.now).tables portfolios orders.now) }
    ensures portfolios { IfOk result (λ o. o.portfolios ≡ portfolios) }
    ensures fits { IfOk result (OrdersFit (arc_value set.now)) }
{
    let records = read_orders(alloc, orders)?;
    let orders = bind_orders(alloc, set.tables(), portfolios, &records)?;
    Ok(orders)
}

/// Returns how each order of a file would change the margin of its account, computed on 1 to 16 workers. The workers
/// pass the gate before each step.
///
/// A number of workers that is 0 or over 16 is rejected before anything else. Otherwise fails if memory runs out, or
/// with the first fault. Faults come in this order: reading the parameters, checking them, reading the positions,
/// binding them, reading the orders, binding them.
#[tactic(auto, unfolding(crate::specs::Whatif::whatif_of))]
pub fn whatif<R: Threads + Wait + Clock + Sync, G: Gate>(
    rt: &R,
    alloc: Global,
    params: &[u8],
    positions: &[u8],
    orders: &[u8],
    workers: usize,
    gate: &G,
) -> Result<Vec<u8>, SpanFault>
    ensures workers { (result ≡ Err fault.Workers) ↔ ((workers ≡ 0) ⊎ (16 < workers)) }
    ensures text { Gives (λ text. text.items) result (whatif_of workers params.now positions.now orders.now) }
{
    if workers == 0 || workers > MAX_WORKERS {
        return Err(SpanFault::Workers);
    }
    let Accepted {
        set,
        portfolios,
        ..
    } = accept_together(rt, alloc, params, positions, workers)?;
    let orders = orders_on(alloc, &set, portfolios, orders)?;
    let lent = BatchMeans {
        rt,
        alloc,
        set: &set,
        workers,
        gate,
    };
    let text = text_of(&lent, &orders)?;
    Ok(text)
}
