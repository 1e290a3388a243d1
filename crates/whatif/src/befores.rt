//! The margins of the accounts before their orders, with each account margined once.
ghost use Rattle.std.specs.Arc.{arc_value};
ghost use Rattle.std.specs.Prelude.{◌≡◌, ◌<◌, IfOk, OnOk, Some, length, map, slice_get, slice_index_or};
ghost use Rattle.worker_pool.specs.Batches.{AllFit};
ghost use Rattle.whatif.specs.near.Befores.{AreBefores, AreKept, AreSlots, HasSlot, held_at};
ghost use Rattle.whatif.specs.near.Orders.{order_at};

use crate::margining::{BatchMeans, rows_of};
use binding::orders::Orders;
use indexmap::IndexSet;
use span_tables::name::Name;
use span_tables::portfolios::{Portfolio, copied};
use std::alloc::{AllocError, Global};
use std::sync::{Arc, Wait};
use std::thread::Threads;
use std::time::Clock;
use step_scheduler::rows::Row;
use worker_pool::gates::Gate;

/// The rows of the accounts before their orders, each account's once, and for each order its slot among them.
#[derive(Drop)]
pub(crate) struct Befores {
    pub(crate) rows: Vec<Arc<Row>>,
    pub(crate) slots: Vec<usize>,
}

impl Befores {
    /// Returns the row of an order's account before the order.
    pub(crate) fn at(&self, order: usize) -> &Row
        requires order { order < length self.now.slots.items }
        requires slot { slice_index_or self.now.slots.items order 0 < length self.now.rows.items }
        ensures { slice_get (map arc_value self.now.rows.items) (slice_index_or self.now.slots.items order 0) ≡ Some result.now }
    {
        &self.rows[self.slots[order]]
    }
}

// Returns the slot of what an order's account holds before the order. The places are the indices of portfolios, and
// `None` for an account that holds nothing. A new place is appended to them.
fn slot_before(
    places: &mut IndexSet<Option<usize>>,
    orders: &Orders,
    order: usize,
) -> Result<usize, AllocError>
    requires { order < length orders.now.orders }
    ensures slot { IfOk result (λ slot.
        HasSlot orders.now.portfolios places.new.keys slot (order_at orders.now order).before.holdings) }
    ensures kept { OnOk result (AreKept places.old.keys places.new.keys) }
{
    let (slot, _) = places.insert_full(orders.place(order))?;
    Ok(slot)
}

// Returns the slot of each order, and appends new places.
fn slots_of(
    alloc: Global,
    places: &mut IndexSet<Option<usize>>,
    orders: &Orders,
) -> Result<Vec<usize>, AllocError>
    ensures every { IfOk result (λ slots. length slots.items ≡ length orders.now.orders) }
    ensures slots { IfOk result (λ slots. AreSlots orders.now places.new.keys slots.items) }
{
    let mut slots = Vec::with_capacity(alloc, orders.len())?;
    for order in 0..orders.len() {
        slots.push(slot_before(places, orders, order)?)?;
    }
    Ok(slots)
}

// Returns a copy of the portfolio at a place, or a portfolio that holds nothing if there is none.
fn portfolio_at(
    alloc: Global,
    all: &[Portfolio],
    place: Option<usize>,
) -> Result<Portfolio, AllocError>
    ensures { IfOk result (λ p. p.holdings ≡ held_at all.now place) }
{
    match place.and_then(|index| all.get(index)) {
        Some(portfolio) => copied(alloc, portfolio),
        None => Ok(Portfolio::new(Name::default(), Vec::new(alloc))),
    }
}

// Returns the portfolio at each of these places.
fn portfolios_at(
    alloc: Global,
    all: &[Portfolio],
    places: &[Option<usize>],
) -> Result<Vec<Portfolio>, AllocError>
    ensures { IfOk result (λ some. map (λ p. p.holdings) some.items ≡ map (held_at all.now) places.now) }
{
    let mut some = Vec::with_capacity(alloc, places.len())?;
    for place in places {
        some.push(portfolio_at(alloc, all, *place)?)?;
    }
    Ok(some)
}

/// Returns the margins of the accounts before their orders. Each portfolio on which an order is evaluated is margined
/// once.
pub(crate) fn befores_of<R: Threads + Wait + Clock + Sync, G: Gate>(
    lent: &BatchMeans<'_, R, G>,
    orders: &Orders,
) -> Result<Befores, AllocError>
    requires { AllFit (arc_value lent.now.set.now) orders.now.portfolios }
    ensures { IfOk result (AreBefores (arc_value lent.now.set.now) orders.now) }
{
    let mut places = IndexSet::new(lent.alloc);
    let slots = slots_of(lent.alloc, &mut places, orders)?;
    let portfolios = portfolios_at(lent.alloc, orders.portfolios(), places.as_slice())?;
    let rows = rows_of(lent, portfolios)?;
    Ok(Befores { rows, slots })
}
