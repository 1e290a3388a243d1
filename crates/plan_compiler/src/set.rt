//! Compiled sets (docs/METHOD.md, "The plan of steps").
ghost use Rattle.std.specs.Prelude.{◌≡◌, ◌<◌, IfOk, IfSome, List, is_some, length};
ghost use Rattle.span_tables.specs.Tables.{facts_in};
ghost use Rattle.span_tables.specs.declared.portfolios.Holding.{Holding};
ghost use Rattle.plan_ir.specs.Figures.{total_to, value_to};
ghost use Rattle.plan_ir.specs.Plans.{op_at};
ghost use Rattle.plan_ir.specs.near.Nothing.{nothing_held};
ghost use Rattle.plan_ir.specs.declared.ops.Op.TheVariants as operation;
ghost use Rattle.plan_ir.specs.declared.values.Value.TheVariants as value;
ghost use Rattle.plan_compiler.specs.Compiled.{IsCompiled, step_meaning};
ghost use Rattle.plan_compiler.specs.Meaning.{last_total, last_value};
ghost use Rattle.plan_compiler.specs.Places.{plan_of};
ghost use Rattle.plan_compiler.specs.Plan.{IsPlanOf};
ghost use Rattle.plan_compiler.specs.near.Beginnings.{AreInputCounts, AreWithoutInputs};
ghost use Rattle.plan_compiler.specs.near.Layout.{AreFirsts};
ghost use Rattle.plan_compiler.specs.near.Sets.{IsSet};

use crate::counters::beginnings;
use crate::layout::{final_step, first_step, first_steps, inputs_of_all, premium_step, total_step};
use crate::operations::ops_of;
use plan_ir::nothing::NothingHeld;
use plan_ir::plans::Plan;
use span_tables::tables::Tables;
use std::alloc::{AllocError, Global};
use std::marker::Model;
use std::sync::Arc;

// The part that compiled sets of the same tables share. It never changes. `firsts` has the numbers of the commodities'
// first steps, `missing` the number of inputs of each step, and `ready` the steps without inputs.
#[derive(Drop)]
struct Shared {
    tables: Tables,
    plan: Plan,
    firsts: Vec<u32>,
    missing: Vec<u8>,
    ready: Vec<u32>,
}

/// Accepted tables with the plan of their steps.
///
/// A compiled set also has the number of each commodity's first step, and the values of a commodity without held
/// contracts. Contracts see the tables and the plan.
#[derive(Drop)]
pub struct CompiledSet {
    shared: Arc<Shared>,
    nothing: NothingHeld,
}

impl Model for CompiledSet {
    ghost use Rattle.std.specs.Arc.{arc_value};
    ghost use Rattle.plan_compiler.specs.Compiled.{SetView};
    ghost use Rattle.plan_compiler.specs.near.Sets.{IsSet};
    ghost use Rattle.plan_ir.specs.near.Nothing.{nothing_held};
    ghost use Rattle.std.specs.Prelude.{◌≡◌};

    ghost Value = { SetView };

    ghost view = { λ set. record { tables = (arc_value set.shared).tables; plan = (arc_value set.shared).plan } };

    ghost invariant = { λ set. IsSet (arc_value set.shared).tables (arc_value set.shared).plan
        (arc_value set.shared).firsts.items (arc_value set.shared).missing.items (arc_value set.shared).ready.items
        × (set.nothing ≡ nothing_held) };
}

impl CompiledSet {
    /// Returns the accepted tables.
    pub fn tables(&self) -> &Tables
        ensures tables { result.now ≡ self.now.tables }
        ensures compiled { IsCompiled self.now }
    {
        &self.shared.tables
    }

    /// Returns the plan of the tables, which keeps the plan law.
    pub fn plan(&self) -> &Plan
        ensures plan { result.now ≡ self.now.plan }
        ensures is_plan { IsPlanOf self.now.tables self.now.plan }
        ensures compiled { IsCompiled self.now }
    {
        &self.shared.plan
    }

    /// Returns the values of a commodity without held contracts.
    pub fn nothing_held(&self) -> &NothingHeld
        ensures { result.now ≡ nothing_held }
    {
        &self.nothing
    }

    /// Returns the number of inputs of each step. All of them are missing while no step has a value.
    pub fn missing(&self) -> &[u8]
        ensures { AreInputCounts self.now.plan result.now (length self.now.plan) }
    {
        &self.shared.missing
    }

    /// Returns the steps without inputs, from the highest number to the lowest. They are ready while no step has a
    /// value.
    pub fn ready(&self) -> &[u32]
        ensures { AreWithoutInputs self.now.plan result.now (length self.now.plan) }
    {
        &self.shared.ready
    }

    /// Returns another compiled set that shares the tables and the plan, but has its own values for nothing held.
    /// Threads that clone and drop references to the same values would wait for each other. `Err` is out of memory.
    pub fn with_own_constants(&self, alloc: Global) -> Result<CompiledSet, AllocError>
        ensures { IfOk result (λ set. set ≡ self.now) }
    {
        let shared = Arc::try_clone(&self.shared)?;
        let nothing = NothingHeld::new(alloc, &shared.tables)?;
        Ok(CompiledSet { shared, nothing })
    }

    /// Returns the number of the step with the held contracts of a commodity. Commodities are numbered from 0 in file
    /// order.
    pub fn gather_step(&self, commodity: u32) -> u32
        requires { commodity < length self.now.tables.commodities }
        ensures in_range { result < length self.now.plan }
        ensures op { op_at self.now.plan result ≡ operation.Gather commodity }
    {
        first_step(&self.shared.tables, &self.shared.firsts, commodity)
    }

    /// Returns the number of the step with the figures of a commodity. Commodities are numbered from 0 in file order.
    pub fn final_step(&self, commodity: u32) -> u32
        requires { commodity < length self.now.tables.commodities }
        ensures in_range { result < length self.now.plan }
        ensures op { op_at self.now.plan result ≡ operation.Final commodity }
    {
        final_step(&self.shared.tables, &self.shared.firsts, commodity)
    }

    /// Returns the number of the step with the total.
    pub fn total_step(&self) -> u32
        ensures in_range { result < length self.now.plan }
        ensures op { op_at self.now.plan result ≡ last_total self.now.tables }
        ensures means { (holdings : List Holding) → step_meaning self.now holdings result
            ≡ value.Total (total_to self.now.tables holdings (length self.now.tables.commodities)) }
    {
        let Shared { tables, firsts, .. } = &*self.shared;
        total_step(tables, firsts, tables.commodities().len() as u32)
    }

    /// Returns the number of the step with the account's option value, or `None` if options have no value.
    pub fn value_step(&self) -> Option<u32>
        ensures some { is_some result ≡ (facts_in self.now.tables).options_have_value }
        ensures in_range { IfSome result (λ k. k < length self.now.plan) }
        ensures op { IfSome result (λ k. op_at self.now.plan k ≡ last_value self.now.tables) }
        ensures means { IfSome result (λ k. (holdings : List Holding) → step_meaning self.now holdings k
            ≡ value.Premium (value_to self.now.tables holdings (length self.now.tables.commodities))) }
    {
        let Shared { tables, firsts, .. } = &*self.shared;
        if !tables.facts().options_have_value {
            return None;
        }
        Some(premium_step(tables, firsts, tables.commodities().len() as u32))
    }
}

// The plan of the tables' operations, with the numbers of the commodities' first steps given.
fn plan_of(alloc: Global, tables: &Tables, firsts: &[u32]) -> Result<Plan, AllocError>
    requires { AreFirsts tables.now firsts.now }
    ensures { IfOk result (λ plan. plan ≡ plan_of tables.now) }
{
    tables.known();
    let ops = ops_of(alloc, tables)?;
    let inputs = inputs_of_all(alloc, tables, firsts, &ops)?;
    let plan = Plan::new(alloc, ops, inputs)?;
    Ok(plan)
}

// The part that compiled sets of the tables share.
fn shared_of(alloc: Global, tables: Tables) -> Result<Shared, AllocError>
    ensures tables { IfOk result (λ shared. shared.tables ≡ tables) }
    ensures plan { IfOk result (λ shared. shared.plan ≡ plan_of tables) }
    ensures set { IfOk result (λ shared. IsSet shared.tables shared.plan shared.firsts.items shared.missing.items shared.ready.items) }
{
    tables.known();
    let firsts = first_steps(alloc, &tables)?;
    let plan = plan_of(alloc, &tables, &firsts)?;
    let (missing, ready) = beginnings(alloc, &plan)?;
    Ok(Shared {
        tables,
        plan,
        firsts,
        missing,
        ready,
    })
}

/// Returns the tables with the plan of their steps (docs/METHOD.md, "The plan of steps"). `Err` is out of memory.
pub fn compile(alloc: Global, tables: Tables) -> Result<CompiledSet, AllocError>
    ensures tables { IfOk result (λ set. set.tables ≡ tables) }
    ensures plan { IfOk result (λ set. set.plan ≡ plan_of tables) }
{
    let shared = shared_of(alloc, tables)?;
    let nothing = NothingHeld::new(alloc, &shared.tables)?;
    Ok(CompiledSet {
        shared: Arc::new(alloc, shared)?,
        nothing,
    })
}
