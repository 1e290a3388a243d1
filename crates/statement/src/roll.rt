//! Two statements for the same positions: under a parameter set, and under the next one, which is prepared concurrently
//! with the first batch.
ghost use Rattle.plan_compiler.specs.Compiled.{SetView};
ghost use Rattle.plan_shelf.specs.Publications.{IsLast};
ghost use Rattle.result_book.specs.Books.{HasNoAccountTwice};
ghost use Rattle.result_book.specs.declared.books.BookFault.TheVariants as book_fault;
ghost use Rattle.span_tables.specs.Net.{AccountHoldings};
ghost use Rattle.span_tables.specs.declared.records.PositionRecord.{PositionRecord};
ghost use Rattle.acceptance.specs.near.Accepting.{IsBound, AreOnce};
ghost use Rattle.worker_pool.specs.Batches.{AllFit};
ghost use Rattle.worker_teams.specs.near.OutcomeRows.{rows_of_accounts};
ghost use Rattle.statement.specs.Rolls.{GivesRoll, of_next_set};
ghost use Rattle.statement_text.specs.Statement.{accepted_of, portfolios_under, statement_text};
ghost use Rattle.statement_text.specs.declared.faults.SpanFault.TheVariants as fault;
ghost use Rattle.statement.specs.near.Seconds.{IsPublished, RefusesNext, RefusesSecond, RefusesUnder, Rolls, RollsUnder};
ghost use Rattle.std.specs.Arc.{arc_value};
ghost use Rattle.std.specs.Prelude.{◌≡◌, ◌<◌, ◌∷◌, ◌⊎◌, ◌↔◌, [], Err, IfErr, IfOk, IfSome, List, Ok, Some};
ghost use Rattle.std.specs.Prelude.{OnOk, length, map};

use crate::in_book::put_in_book;
use acceptance::accepting::{Accepted, accept_together, portfolios_together, set_of};
use plan_compiler::set::CompiledSet;
use plan_shelf::history::{History, ShelfName};
use plan_shelf::publishers::{Publisher, Told};
use plan_shelf::readers::Reader;
use plan_shelf::shelves::shelf;
use result_book::books::ResultBook;
use span_tables::portfolios::Portfolios;
use span_tables::raw::RawPositions;
use statement_text::faults::SpanFault;
use std::alloc::{AllocError, Global};
use std::marker::Brand;
use std::sync::{Arc, Mutex, Wait};
use std::thread;
use std::thread::Threads;
use std::time::Clock;
use step_scheduler::rows::Row;
use worker_pool::batch::MAX_WORKERS;
use worker_pool::gates::Gate;
use worker_teams::rows::rows_together;

// What a roll borrows: a runtime, an allocator, the number of workers, the gate that they call, and the book for the
// rows.
#[derive(Drop)]
struct RollMeans<'a, R, G: Gate> {
    rt: &'a R,
    alloc: Global,
    workers: usize,
    gate: &'a G,
    book: &'a Mutex<ResultBook>,
}

// The number of the next parameter set's publication on the shelf of a roll. The first set has number 1.
const NEXT_SET: u64 = 2;

// A fault of reading, checking or binding, under the name that it has if it occurs under the next parameter set.
fn of_next_set(fault: SpanFault) -> SpanFault
    ensures { result ≡ of_next_set fault }
{
    match fault {
        SpanFault::Params(fault) => SpanFault::NextParams(fault),
        SpanFault::Check(fault) => SpanFault::NextCheck(fault),
        SpanFault::Bind(fault) => SpanFault::NextBind(fault),
        fault => fault,
    }
}

// The compiled set of the next parameters, or their first fault under its name there.
fn next_set(alloc: Global, next: &[u8]) -> Result<Arc<CompiledSet>, SpanFault>
    ensures set { IfOk result (λ set. accepted_of next.now ≡ Ok (arc_value set).tables) }
    ensures fault { IfErr result (λ e. RefusesNext next.now e) }
{
    match set_of(alloc, next) {
        Ok(set) => Ok(set),
        Err(fault) => Err(of_next_set(fault)),
    }
}

// Prepares the next parameter set and publishes it, without waiting for the batch.
fn publish_next<S: ShelfName, R: Wait, G: Gate>(
    alloc: Global,
    publisher: &mut Publisher<S, &R>,
    next: &[u8],
    gate: &G,
) -> Result<Told<S>, SpanFault>
    ensures told { IfOk result (λ told. IsPublished next.now publisher.old told) }
    ensures fault { IfErr result (λ e. RefusesNext next.now e) }
{
    gate.beside();
    let set = next_set(alloc, next)?;
    let told = publisher.publish(set)?;
    Ok(told)
}

// The rows of the first batch, computed here, and the next parameter set, prepared in a thread at the same time. If no
// thread can be started, the two are done one after the other.
fn first_rows_and_next_set<S: ShelfName + Send + Sync, R: Threads + Wait + Clock + Sync, G: Gate>(
    lent: &RollMeans<'_, R, G>,
    publisher: &mut Publisher<S, &R>,
    set: &Arc<CompiledSet>,
    portfolios: Portfolios,
    next: &[u8],
) -> (
    Result<Vec<Arc<Row>>, AllocError>,
    Result<Told<S>, SpanFault>,
)
    requires { AllFit (arc_value set.now) portfolios }
    ensures rows { IfOk result.0 (λ rows. map arc_value rows.items ≡ rows_of_accounts (arc_value set.now) portfolios) }
    ensures told { IfOk result.1 (λ told. IsPublished next.now publisher.old told) }
    ensures fault { IfErr result.1 (λ e. RefusesNext next.now e) }
{
    let RollMeans {
        rt,
        alloc,
        workers,
        gate,
        ..
    } = *lent;
    let (told, rows) = thread::join(
        rt,
        move || publish_next(alloc, publisher, next, gate),
        move || -> Result<Vec<Arc<Row>>, AllocError>
            requires { AllFit (arc_value set.now) portfolios }
            ensures { IfOk result (λ rows. map arc_value rows.items ≡ rows_of_accounts (arc_value set.entry.now) portfolios) }
        { rows_together(rt, alloc, set, portfolios, workers, gate) },
    );
    (rows, told)
}

// The parameter set of the second publication, if a reader found it as the current one.
fn second_of(found: Option<(u64, Arc<CompiledSet>)>) -> Result<Arc<CompiledSet>, SpanFault>
    ensures second { IfSome found (λ c. c.0 ≡ 2 → result ≡ Ok c.1) }
    ensures set { IfOk result (λ set. found ≡ Some (2, set)) }
    ensures fault { IfErr result (λ e. e ≡ fault.Shelf) }
{
    match found {
        Some((NEXT_SET, set)) => Ok(set),
        _ => Err(SpanFault::Shelf),
    }
}

// The parameter set that a reader finds once it has learned of the second publication.
fn second_set<S: ShelfName, R: Wait>(
    rt: &R,
    reader: Reader<S>,
    told: Told<S>,
) -> Result<Arc<CompiledSet>, SpanFault>
    requires { length told ≡ 2 }
    ensures set { IfOk result (λ set. IsLast told (arc_value set)) }
    ensures fault { IfErr result (λ e. (e ≡ fault.Memory) ⊎ (e ≡ fault.Shelf)) }
{
    let mut reader = reader;
    reader.learn(told);
    let found = reader.current(rt)?;
    second_of(found)
}

// The portfolios of positions under the next parameter set, or their fault under its name there.
fn portfolios_of_next<R: Threads + Sync, G: Gate>(
    lent: &RollMeans<'_, R, G>,
    set: &Arc<CompiledSet>,
    positions: &RawPositions,
) -> Result<Portfolios, SpanFault>
    ensures portfolios { IfOk result (λ portfolios.
        portfolios_under (arc_value set.now).tables positions.now ≡ Ok portfolios) }
    ensures fits { IfOk result (AllFit (arc_value set.now)) }
    ensures once { IfOk result AreOnce }
    ensures fault { IfErr result (λ e. RefusesUnder (arc_value set.now).tables positions.now e) }
{
    match portfolios_together(lent.rt, lent.alloc, set, positions, lent.workers) {
        Ok(portfolios) => Ok(portfolios),
        Err(fault) => Err(of_next_set(fault)),
    }
}

// Margins the positions under the next parameter set, puts the rows in the book and appends their statement.
fn second_statement<R: Threads + Wait + Clock + Sync, G: Gate>(
    lent: &RollMeans<'_, R, G>,
    set: &Arc<CompiledSet>,
    positions: &RawPositions,
    out: &mut Vec<u8>,
) -> Result<(), SpanFault>
    ensures text { OnOk result (RollsUnder (arc_value set.now).tables positions.now out.old.items out.new.items) }
    ensures fault { IfErr result (λ e. RefusesUnder (arc_value set.now).tables positions.now e) }
{
    let portfolios = portfolios_of_next(lent, set, positions)?;
    let rows = rows_together(
        lent.rt,
        lent.alloc,
        set,
        portfolios,
        lent.workers,
        lent.gate,
    )?;
    let second = put_in_book(&mut lent.book.lock(lent.rt), rows)?;
    second.append_to(out)?;
    Ok(())
}

// Publishes a parameter set as the first one.
fn publish_first<S: ShelfName, R: Wait + Drop>(
    publisher: &mut Publisher<S, R>,
    set: &Arc<CompiledSet>,
) -> Result<(), SpanFault>
    requires { publisher.old ≡ [] }
    ensures first { OnOk result (publisher.new ≡ arc_value set.now ∷ []) }
    ensures fault { IfErr result (λ e. e ≡ fault.Memory) }
{
    publisher.publish(Arc::try_clone(set)?)?;
    Ok(())
}

// A shelf with a reader, whose first publication is this parameter set.
fn shelf_with<S: ShelfName, R: Wait + Drop>(
    rt: R,
    alloc: Global,
    history: History,
    set: &Arc<CompiledSet>,
) -> Result<(Publisher<S, R>, Reader<S>), SpanFault>
    requires { history.book ≡ S.book }
    ensures first { IfOk result (λ made. made.0 ≡ arc_value set.now ∷ []) }
    ensures fault { IfErr result (λ e. e ≡ fault.Memory) }
{
    let (mut publisher, mut readers) = shelf::<S, R>(rt, alloc, history, 1)?;
    publish_first(&mut publisher, set)?;
    let reader = readers.pop().unwrap();
    Ok((publisher, reader))
}

// Puts the rows of the first batch in the book, and returns their statement.
fn first_statement<R: Wait>(
    rt: &R,
    alloc: Global,
    rows: Vec<Arc<Row>>,
    book: &Mutex<ResultBook>,
) -> Result<Vec<u8>, SpanFault>
    requires { HasNoAccountTwice (map arc_value rows.items) }
    ensures text { (set : SetView) (portfolios : List AccountHoldings) → map arc_value rows.items ≡ rows_of_accounts set portfolios
        → IfOk result (λ text. text.items ≡ statement_text set.tables portfolios) }
    ensures fault { IfErr result (λ e. (e ≡ fault.Memory) ⊎ (e ≡ fault.Book book_fault.NoMoreBatches)) }
{
    let first = put_in_book(&mut book.lock(rt), rows)?;
    let text = first.text(alloc)?;
    Ok(text)
}

// The first statement, whose rows are in the book, and the next parameter set, which was published in the meantime.
fn first_statement_and_next_set<
    S: ShelfName + Send + Sync,
    R: Threads + Wait + Clock + Sync,
    G: Gate,
>(
    lent: &RollMeans<'_, R, G>,
    publisher: &mut Publisher<S, &R>,
    set: &Arc<CompiledSet>,
    portfolios: Portfolios,
    next: &[u8],
) -> Result<(Vec<u8>, Told<S>), SpanFault>
    requires fits { AllFit (arc_value set.now) portfolios }
    requires once { AreOnce portfolios }
    ensures text { IfOk result (λ made. made.0.items ≡ statement_text (arc_value set.now).tables portfolios) }
    ensures told { IfOk result (λ made. IsPublished next.now publisher.old made.1) }
    ensures fault { IfErr result (λ e. (records : List PositionRecord) → RefusesSecond next.now records e) }
{
    let (rows, told) = first_rows_and_next_set(lent, publisher, set, portfolios, next);
    let text = first_statement(lent.rt, lent.alloc, rows?, lent.book)?;
    Ok((text, told?))
}

// The roll on a shelf whose only publication is the parameter set of the first statement.
fn roll_on_shelf<S: ShelfName + Send + Sync, R: Threads + Wait + Clock + Sync, G: Gate>(
    lent: &RollMeans<'_, R, G>,
    publisher: &mut Publisher<S, &R>,
    reader: Reader<S>,
    today: Accepted,
    next: &[u8],
) -> Result<Vec<u8>, SpanFault>
    requires first { publisher.old ≡ arc_value today.set ∷ [] }
    requires bound { IsBound today }
    ensures text { IfOk result (λ text. Rolls next.now today.positions
        (statement_text (arc_value today.set).tables today.portfolios) text.items) }
    ensures fault { IfErr result (λ e. RefusesSecond next.now today.positions e) }
{
    let Accepted {
        set,
        positions,
        portfolios,
    } = today;
    let (mut text, told) = first_statement_and_next_set(lent, publisher, &set, portfolios, next)?;
    let second = second_set(lent.rt, reader, told)?;
    second_statement(lent, &second, &positions, &mut text)?;
    Ok(text)
}

// The roll on its own shelf, which the type `S` names. The signature of `roll` does not mention this type.
fn roll_named<S: ShelfName + Send + Sync, R: Threads + Wait + Clock + Sync, G: Gate>(
    lent: &RollMeans<'_, R, G>,
    history: History,
    today: Accepted,
    next: &[u8],
) -> Result<Vec<u8>, SpanFault>
    requires history { history.book ≡ S.book }
    requires bound { IsBound today }
    ensures text { IfOk result (λ text. Rolls next.now today.positions
        (statement_text (arc_value today.set).tables today.portfolios) text.items) }
    ensures fault { IfErr result (λ e. RefusesSecond next.now today.positions e) }
{
    let (mut publisher, reader) = shelf_with::<S, &R>(lent.rt, lent.alloc, history, &today.set)?;
    roll_on_shelf(lent, &mut publisher, reader, today, next)
}

/// Returns the statement of the positions under a parameter set, followed by their statement under the next one.
/// Otherwise returns the first fault, in this order: the number of workers, the parameters, the positions, the next
/// parameters, the positions under these. Fails with `Memory` if memory runs out (docs/FORMATS.md, "Faults").
///
/// A separate thread first calls the gate's hook for this thread, then reads, checks and compiles the next parameters
/// and publishes them on a shelf, while the first batch runs. If no thread can be started, this is done after the first
/// batch. The second batch runs under the set that the shelf then has.
///
/// The rows of each batch are kept in the book, in the order of the accounts, as a new batch with the next number. If
/// an account has no row, no batch is opened. A book that has no number left fails after the faults of the positions,
/// and before the faults of the next parameters. Its only other error is out of memory. Rows that were put stay in the
/// book.
pub fn roll<R: Threads + Wait + Clock + Sync, G: Gate>(
    rt: &R,
    alloc: Global,
    params: &[u8],
    next: &[u8],
    positions: &[u8],
    workers: usize,
    gate: &G,
    book: &Mutex<ResultBook>,
) -> Result<Vec<u8>, SpanFault>
    ensures workers { (result ≡ Err fault.Workers) ↔ ((workers ≡ 0) ⊎ (16 < workers)) }
    ensures text { GivesRoll (λ text. text.items) workers params.now next.now positions.now result }
{
    if workers == 0 || workers > MAX_WORKERS {
        return Err(SpanFault::Workers);
    }
    let today = accept_together(rt, alloc, params, positions, workers)?;
    let lent = RollMeans {
        rt,
        alloc,
        workers,
        gate,
        book,
    };
    roll_named::<Brand, R, G>(&lent, History::new(), today, next)
}
