//! Orders in batches, each evaluated on its account (docs/FORMATS.md, "Evaluated orders").
ghost use Rattle.std.specs.Arc.{arc_value};
ghost use Rattle.std.specs.Prelude.{◌≡◌, ◌++◌, ◌-◌, ◌≤◌, IfOk, OnOk, length};
ghost use Rattle.worker_pool.specs.Batches.{AllFit};
ghost use Rattle.whatif.specs.Whatif.{whatif_text};
ghost use Rattle.whatif.specs.near.Befores.{AreBefores};
ghost use Rattle.whatif.specs.near.Orders.{OrdersFit, orders_text};

use crate::befores::{Befores, befores_of};
use crate::lines::Trial;
use crate::margining::{BatchMeans, MOST_AT_ONCE, rows_of};
use binding::orders::Orders;
use std::alloc::{AllocError, Global};
use std::sync::Wait;
use std::thread::Threads;
use std::time::Clock;
use worker_pool::gates::Gate;

// Appends the lines of a range of orders, whose accounts are margined with them in one batch.
fn push_batch<R: Threads + Wait + Clock + Sync, G: Gate>(
    lent: &BatchMeans<'_, R, G>,
    out: &mut Vec<u8>,
    orders: &Orders,
    befores: &Befores,
    first: usize,
    end: usize,
) -> Result<(), AllocError>
    requires first { first ≤ end }
    requires end { end ≤ length orders.now.orders }
    requires fits { OrdersFit (arc_value lent.now.set.now) orders.now }
    requires befores { AreBefores (arc_value lent.now.set.now) orders.now befores.now }
    ensures { OnOk result (out.new.items
        ≡ out.old.items ++ orders_text (arc_value lent.now.set.now).tables orders.now first (end - first)) }
{
    let portfolios = orders.portfolios_with(lent.alloc, first, end - first)?;
    let rows = rows_of(lent, portfolios)?;
    for order in first..end {
        let name = orders.name(order);
        let before = befores.at(order);
        Trial::new(name, before, &rows[order - first]).push_to(out)?;
    }
    Ok(())
}

/// Returns the lines of all orders, in their order. In addition to the text and the orders, memory is needed only for
/// the rows of one batch and for the rows of the accounts before the orders.
pub(crate) fn text_of<R: Threads + Wait + Clock + Sync, G: Gate>(
    lent: &BatchMeans<'_, R, G>,
    orders: &Orders,
) -> Result<Vec<u8>, AllocError>
    requires portfolios { AllFit (arc_value lent.now.set.now) orders.now.portfolios }
    requires fits { OrdersFit (arc_value lent.now.set.now) orders.now }
    ensures { IfOk result (λ text. text.items ≡ whatif_text (arc_value lent.now.set.now).tables orders.now.orders) }
{
    let befores = befores_of(lent, orders)?;
    let mut out = Vec::new(lent.alloc);
    let mut first = 0;
    while first < orders.len() {
        let end = first + (orders.len() - first).min(MOST_AT_ONCE);
        push_batch(lent, &mut out, orders, &befores, first, end)?;
        first = end;
    }
    Ok(out)
}
