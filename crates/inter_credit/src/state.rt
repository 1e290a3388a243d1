//! The state of each commodity: its net delta, its remaining delta after spreads, its price risk, and the weight of its
//! credit (docs/METHOD.md, Intercommodity spreads).
ghost use Rattle.std.specs.Prelude.{◌≡◌, ◌≢◌, ◌<◌, ◌≤◌, ◌%◌, ◌==◌, ℕ, [], false, fold, length, replicate, slice_set, All, IfOk, OnOk};
ghost use Rattle.std.specs.Prelude.{pos, nat_abs};
ghost use Rattle.std.specs.Int.{bit_at};
ghost use Rattle.inter_credit.specs.Credits.{inter_formed_both, inter_both_ways, state_at, unspread_state};
ghost use Rattle.span_tables.specs.Accepted.{IsInter};
ghost use Rattle.span_tables.specs.declared.records.Inter.{Inter};
ghost use Rattle.inter_credit.specs.States.{IsNotLoaded, IsUnspread};
ghost use Rattle.span_money.specs.declared.bits.TheConstants.{BITS};
ghost use Rattle.inter_credit.specs.near.Index.{AreCovered, FormsNothing, HasSpread, IsIndex};
ghost use Rattle.inter_credit.specs.near.Open.{AreLoaded};
ghost use Rattle.inter_credit.specs.near.CommodityStates.{IsCommodityState};
ghost use Rattle.span_tables.specs.declared.limits.TheConstants.{MAX_PRICE2, MAX_UNITS};

use crate::commodity_state::CommodityState;
use crate::forming::{form_both_ways, forms};
use crate::index::SpreadIndex;
use span_money::amounts::Units;
use span_money::bits::{BITS, take_first};
use span_tables::leg_index::LegIndex;
use span_tables::records::Inter;
use span_tables::sides::SpreadsFormed;
use span_tables::slots::OpenSides;
use std::alloc::{AllocError, Global};
use std::marker::Model;

/// The commodities of a parameter set, indexed by number. In contract clauses it is the list of their states.
#[derive(Drop)]
pub struct InterState {
    commodities: Vec<CommodityState>,
    // The sides of the market on which commodities had a remaining delta when they were loaded.
    sides: OpenSides,
    // A bit for the remainder by `BITS` of the number of each commodity that was loaded.
    loaded: u64,
}

impl Model for InterState {
    ghost use Rattle.std.specs.Prelude.{List, All};
    ghost use Rattle.inter_credit.specs.near.Open.{AreStates};
    ghost use Rattle.inter_credit.specs.declared.commodity_state.CommodityState.{CommodityState};

    ghost Value = { List CommodityState };

    ghost view = { λ state. state.commodities.items };

    ghost invariant = { λ state. AreStates state.commodities.items state.sides state.loaded };
}

impl InterState {
    /// Returns the state without commodities, which takes no memory.
    pub fn none(alloc: Global) -> InterState
        ensures { result ≡ [] }
    {
        InterState {
            commodities: Vec::new(alloc),
            sides: OpenSides::none(),
            loaded: 0,
        }
    }

    /// Unloads all commodities, so that the state is the one that `empty` returns, and reuses its memory. It only sets
    /// the loaded commodities back, unless the number of commodities changes.
    pub fn restart(&mut self, alloc: Global, commodities: usize) -> Result<(), AllocError>
        ensures { OnOk result (self.new ≡ replicate commodities (unspread_state (pos 0) 0)) }
    {
        if self.len() != commodities {
            *self = empty(alloc, commodities)?;
            return Ok(());
        }
        self.clear();
        Ok(())
    }

    // Sets the loaded commodities back.
    fn clear(&mut self)
        ensures { self.new ≡ replicate (length self.old) (unspread_state (pos 0) 0) }
    {
        set_back(&mut self.commodities, self.loaded);
        self.sides = OpenSides::none();
        self.loaded = 0;
    }

    /// Returns the number of commodities.
    pub fn len(&self) -> usize
        ensures { result ≡ length self.now }
    {
        self.commodities.len()
    }

    /// Returns whether there is no commodity.
    pub fn is_empty(&self) -> bool
        ensures { result ≡ (length self.now == 0) }
    {
        self.commodities.is_empty()
    }

    /// Returns the states of the commodities, indexed by number.
    pub fn states(&self) -> &[CommodityState]
        ensures value { result.now ≡ self.now }
        ensures kept { All IsCommodityState self.now }
    {
        &self.commodities
    }

    /// Returns a copy of the state.
    pub fn copied(&self, alloc: Global) -> Result<InterState, AllocError>
        ensures { IfOk result (λ state. state ≡ self.now) }
    {
        let commodities = Vec::from_slice(alloc, &self.commodities)?;
        Ok(InterState {
            commodities,
            sides: self.sides,
            loaded: self.loaded,
        })
    }

    /// Sets a commodity's net delta, in 10^-8 deltas, and twice its price risk, in minor units. Its remaining delta is
    /// its full net delta.
    ///
    /// It requires that nothing was loaded for the commodity and no spread was formed.
    pub fn load(&mut self, commodity: usize, net: Units, price2: u64)
        requires commodity { commodity < length self.old }
        requires net { nat_abs net ≤ MAX_UNITS }
        requires price2 { price2 ≤ MAX_PRICE2 }
        requires not_loaded { IsNotLoaded self.old commodity }
        requires unspread { IsUnspread self.old }
        ensures value { self.new ≡ slice_set self.old commodity (unspread_state net price2) }
        ensures unspread { IsUnspread self.new }
    {
        if net.get() == 0 && price2 == 0 {
            return;
        }
        self.sides = self.sides.with(commodity, net);
        self.loaded |= 1 << (commodity % BITS);
        self.commodities[commodity] = unspread_state(net, price2);
    }

    /// Forms a spread in both directions, with A long first. In each direction it forms the greatest number that every
    /// leg has room for.
    pub fn spread(&mut self, spread: &Inter)
        requires { IsInter (length self.old) spread.now }
        ensures value { self.new ≡ inter_both_ways self.old spread.now }
        ensures length { length self.new ≡ length self.old }
    {
        self.spread_counted(spread);
    }

    /// Forms a spread like `spread`, and returns the number of spreads formed in each direction, in 10^-4 spreads.
    pub fn spread_counted(&mut self, spread: &Inter) -> SpreadsFormed
        requires { IsInter (length self.old) spread.now }
        ensures value { self.new ≡ inter_both_ways self.old spread.now }
        ensures formed { result ≡ inter_formed_both self.old spread.now }
        ensures length { length self.new ≡ length self.old }
    {
        form_both_ways(&mut self.commodities, spread)
    }

    /// Forms the spreads in order, as `spread` forms each. It looks only at the spreads that the index finds.
    pub fn spread_all(&mut self, index: &SpreadIndex, spreads: &[Inter])
        requires spreads { All (IsInter (length self.old)) spreads.now }
        requires index { IsIndex index.now spreads.now }
        ensures value { self.new ≡ fold inter_both_ways self.old spreads.now }
        ensures length { length self.new ≡ length self.old }
    {
        let mut left = spreads;
        for block in &index.blocks {
            let (now, later) = left.split_at(BITS.min(left.len()));
            self.spread_block(block, now);
            left = later;
        }
    }

    // Forms the spreads of a block in order.
    fn spread_block(&mut self, block: &LegIndex, spreads: &[Inter])
        requires spreads { All (IsInter (length self.old)) spreads.now }
        requires block { AreCovered block.now spreads.now }
        ensures value { self.new ≡ fold inter_both_ways self.old spreads.now }
        ensures length { length self.new ≡ length self.old }
    {
        let mut left = self.may_form(block);
        while let Some(number) = take_first(&mut left) {
            if let Some(spread) = spreads.get(number) {
                self.spread(spread);
            }
        }
    }

    // Returns the spreads of a block that may be formed. The others are formed in neither direction.
    fn may_form(&self, block: &LegIndex) -> u64
        ensures { (number : ℕ) (spread : Inter) → HasSpread block.now number spread.legs → bit_at result number ≡ 0
            → FormsNothing self.now spread }
    {
        block.may_form(&self.sides).either()
    }

    /// Returns whether a spread forms. If `false`, the spread changes nothing.
    pub fn may_spread(&self, spread: &Inter) -> bool
        requires { IsInter (length self.now) spread.now }
        ensures { result ≡ false → inter_both_ways self.now spread.now ≡ self.now }
    {
        forms(&self.commodities, spread)
    }
}

// Sets back the commodities whose numbers have the remainder `slot` by `BITS`.
fn set_slot_back(states: &mut [CommodityState], slot: usize)
    requires { slot < BITS }
    ensures back { (c : ℕ) → c % BITS ≡ slot → state_at states.new c ≡ unspread_state (pos 0) 0 }
    ensures others { (c : ℕ) → c % BITS ≢ slot → state_at states.new c ≡ state_at states.old c }
{
    let mut commodity = slot;
    while commodity < states.len() {
        states[commodity] = unspread_state(Units::new(0), 0);
        commodity += BITS;
    }
}

// Sets back the loaded commodities.
fn set_back(states: &mut [CommodityState], loaded: u64)
    requires { AreLoaded loaded states.old }
    ensures { states.new ≡ replicate (length states.old) (unspread_state (pos 0) 0) }
{
    let mut left = loaded;
    while let Some(slot) = take_first(&mut left) {
        set_slot_back(states, slot);
    }
}

// Returns a commodity before any spread.
fn unspread_state(net: Units, price2: u64) -> CommodityState
    ensures { result ≡ unspread_state net price2 }
{
    CommodityState {
        net,
        rest: net,
        price2,
        weight: 0,
    }
}

/// Returns commodities that are not loaded yet, with net deltas and price risks of 0.
pub fn empty(alloc: Global, commodities: usize) -> Result<InterState, AllocError>
    ensures value { IfOk result (λ state. state ≡ replicate commodities (unspread_state (pos 0) 0)) }
    ensures unspread { IfOk result IsUnspread }
{
    let commodities = vec![in alloc; unspread_state(Units::new(0), 0); commodities]?;
    Ok(InterState {
        commodities,
        sides: OpenSides::none(),
        loaded: 0,
    })
}

/// Returns a copy of the state with one more commodity loaded: its net delta, in 10^-8 deltas, and twice its price
/// risk, in minor units. Its remaining delta is its full net delta.
///
/// It requires that nothing was loaded for the commodity and no spread was formed.
pub fn load(
    alloc: Global,
    state: &InterState,
    commodity: usize,
    net: Units,
    price2: u64,
) -> Result<InterState, AllocError>
    requires commodity { commodity < length state.now }
    requires net { nat_abs net ≤ MAX_UNITS }
    requires price2 { price2 ≤ MAX_PRICE2 }
    requires not_loaded { IsNotLoaded state.now commodity }
    requires unspread { IsUnspread state.now }
    ensures value { IfOk result (λ next. next ≡ slice_set state.now commodity (unspread_state net price2)) }
    ensures unspread { IfOk result IsUnspread }
{
    let mut state = state.copied(alloc)?;
    state.load(commodity, net, price2);
    Ok(state)
}
