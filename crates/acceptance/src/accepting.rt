//! The content of two files, or their first fault: accepted tables, a compiled parameter set, and the portfolios of
//! positions under it.
ghost use Rattle.plan_compiler.specs.Compiled.{SetView};
ghost use Rattle.span_tables.specs.Net.{AccountHoldings};
ghost use Rattle.span_tables.specs.Tables.{AcceptedTables};
ghost use Rattle.statement_text.specs.Gives.{Gives};
ghost use Rattle.statement_text.specs.Statement.{accepted_of, portfolios_under, statement_bound, statement_of, statement_text};
ghost use Rattle.acceptance.specs.near.Accepting.{IsAccepted, IsBound, AreOnce};
ghost use Rattle.worker_pool.specs.Batches.{AllFit};
ghost use Rattle.acceptance.specs.declared.accepting.Accepted.{Accepted};
ghost use Rattle.std.specs.Arc.{arc_value};
ghost use Rattle.std.specs.Prelude.{◌≡◌, IfOk, List};
ghost use Rattle.std.specs.declared.alloc.Global.{Global};
ghost use Rattle.std.specs.declared.sync.Arc.{Arc};

use crate::bind_slices::bind_together;
use crate::reading::read_together;
use binding::positions::bind;
use param_check::check::check;
use plan_compiler::set::{CompiledSet, compile};
use span_csv::params::read_params;
use span_csv::positions::read_positions;
use span_tables::portfolios::Portfolios;
use span_tables::raw::RawPositions;
use span_tables::tables::Tables;
use statement_text::faults::SpanFault;
use std::alloc::{AllocError, Global};
use std::sync::Arc;
use std::thread;
use std::thread::Threads;

/// Returns the accepted tables of a parameter file, or the first fault in reading it and checking it.
#[tactic(auto, unfolding(statement_text::specs::Statement::accepted_of))]
pub fn tables_of(alloc: Global, params: &[u8]) -> Result<Tables, SpanFault>
    ensures { Gives (λ (tables : AcceptedTables). tables) result (accepted_of params.now) }
{
    let raw = read_params(alloc, params)?;
    let tables = check(alloc, raw)?;
    Ok(tables)
}

// Accepted tables with their plan, in an `Arc`.
fn compiled(alloc: Global, tables: Tables) -> Result<Arc<CompiledSet>, AllocError>
    ensures { IfOk result (λ set. (arc_value set).tables ≡ tables) }
{
    let set = compile(alloc, tables)?;
    Ok(Arc::new(alloc, set)?)
}

/// Returns the compiled parameter set of a file in an `Arc`, or the first fault in reading it and checking it.
pub fn set_of(alloc: Global, params: &[u8]) -> Result<Arc<CompiledSet>, SpanFault>
    ensures { Gives (λ (set : Arc SetView Global). (arc_value set).tables) result (accepted_of params.now) }
{
    let tables = tables_of(alloc, params)?;
    let set = compiled(alloc, tables)?;
    Ok(set)
}

/// Returns the portfolios of positions under a compiled parameter set, or their fault.
#[tactic(auto, unfolding(statement_text::specs::Statement::portfolios_under))]
pub(crate) fn portfolios_of(
    alloc: Global,
    set: &Arc<CompiledSet>,
    positions: &RawPositions,
) -> Result<Portfolios, SpanFault>
    ensures portfolios { Gives (λ (portfolios : List AccountHoldings). portfolios)
        result (portfolios_under (arc_value set.now).tables positions.now) }
    ensures fits { IfOk result (AllFit (arc_value set.now)) }
    ensures once { IfOk result AreOnce }
{
    let portfolios = bind(alloc, set.tables(), positions)?;
    Ok(portfolios)
}

/// Returns the portfolios of positions under a compiled parameter set, or their fault, as [`portfolios_of`] does. A
/// large position file is bound in slices, concurrently.
#[tactic(auto, unfolding(statement_text::specs::Statement::portfolios_under))]
pub fn portfolios_together<R: Threads + Sync>(
    rt: &R,
    alloc: Global,
    set: &Arc<CompiledSet>,
    positions: &RawPositions,
    workers: usize,
) -> Result<Portfolios, SpanFault>
    ensures portfolios { Gives (λ (portfolios : List AccountHoldings). portfolios)
        result (portfolios_under (arc_value set.now).tables positions.now) }
    ensures fits { IfOk result (AllFit (arc_value set.now)) }
    ensures once { IfOk result AreOnce }
{
    let portfolios = bind_together(rt, alloc, set.tables(), positions, workers)?;
    Ok(portfolios)
}

/// The content of two accepted files: a compiled parameter set, the positions, and their portfolios under that set.
#[derive(Drop)]
pub struct Accepted {
    /// The tables of the parameters, with their plan.
    pub set: Arc<CompiledSet>,
    /// The records of the positions.
    pub positions: RawPositions,
    /// The holdings of each account, in order of first appearance.
    pub portfolios: Portfolios,
}

// The content of two files, from an accepted parameter set, the positions, and their portfolios under the set or the
// fault in binding them.
#[tactic(auto, unfolding(statement_text::specs::Statement::statement_bound))]
fn accept_positions(
    set: Arc<CompiledSet>,
    positions: RawPositions,
    bound: Result<Portfolios, SpanFault>,
) -> Result<Accepted, SpanFault>
    requires portfolios { Gives (λ (portfolios : List AccountHoldings). portfolios)
        bound (portfolios_under (arc_value set).tables positions) }
    requires fits { IfOk bound (AllFit (arc_value set)) }
    requires once { IfOk bound AreOnce }
    ensures text { Gives (λ (a : Accepted). statement_text (arc_value a.set).tables a.portfolios)
        result (statement_bound (arc_value set).tables positions) }
    ensures tables { IfOk result (λ a. (arc_value a.set).tables ≡ (arc_value set).tables) }
    ensures positions { IfOk result (λ a. a.positions ≡ positions) }
    ensures bound { IfOk result IsBound }
{
    Ok(Accepted {
        set,
        positions,
        portfolios: bound?,
    })
}

/// Returns the content of two files, or the first fault, in this order: reading the parameters, checking them, reading
/// the positions, binding them. Fails with `Memory` if memory runs out.
#[tactic(auto, unfolding(statement_text::specs::Statement::statement_of, statement_text::specs::Statement::statement_under))]
pub fn accept(alloc: Global, params: &[u8], positions: &[u8]) -> Result<Accepted, SpanFault>
    ensures text { Gives (λ (a : Accepted). statement_text (arc_value a.set).tables a.portfolios)
        result (statement_of params.now positions.now) }
    ensures accepted { IfOk result (IsAccepted params.now positions.now) }
{
    let set = set_of(alloc, params)?;
    let positions = read_positions(alloc, positions)?;
    let bound = portfolios_of(alloc, &set, &positions);
    accept_positions(set, positions, bound)
}

/// Returns the content of two files, or the first fault, as [`accept`] does. With two workers or more, a thread reads,
/// checks and compiles the parameters while the positions are read. A large position file is read in pieces and bound
/// in slices, concurrently. If no thread can be started, the steps run one after the other. The order of the faults is
/// the same.
#[tactic(auto, unfolding(statement_text::specs::Statement::statement_of, statement_text::specs::Statement::statement_under))]
pub fn accept_together<R: Threads + Sync>(
    rt: &R,
    alloc: Global,
    params: &[u8],
    positions: &[u8],
    workers: usize,
) -> Result<Accepted, SpanFault>
    ensures text { Gives (λ (a : Accepted). statement_text (arc_value a.set).tables a.portfolios)
        result (statement_of params.now positions.now) }
    ensures accepted { IfOk result (IsAccepted params.now positions.now) }
{
    if workers < 2 {
        return accept(alloc, params, positions);
    }
    let (set, positions) = thread::join(
        rt,
        || set_of(alloc, params),
        || read_together(rt, alloc, positions, workers),
    );
    let (set, positions) = (set?, positions?);
    let bound = portfolios_together(rt, alloc, &set, &positions, workers);
    accept_positions(set, positions, bound)
}
