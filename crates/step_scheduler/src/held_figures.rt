//! The figures of an account: one element for each commodity that it holds, and one for all others.
ghost use Rattle.std.specs.Prelude.{◌≡◌, ◌==◌, ◌<◌, ◌≤◌, ◌++◌, ◌∷◌, []};
ghost use Rattle.std.specs.Prelude.{IfOk, OnOk, length, not, replicate, slice_index_or, slice_set};
ghost use Rattle.plan_ir.specs.Values.{no_figures};
ghost use Rattle.plan_ir.specs.declared.figures.Figures.{Figures};
ghost use Rattle.span_tables.specs.declared.limits.TheConstants.{MAX_COMMODITIES};
ghost use Rattle.step_scheduler.specs.near.Figures.{place_of};

use plan_ir::figures::Figures;
use span_tables::limits::MAX_COMMODITIES;
use std::alloc::{AllocError, Global};

// The figures of the commodities of an account.
#[derive(Drop)]
pub(crate) struct HeldFigures {
    // The figures of a commodity that is not held, and then the figures of each held commodity, in ascending order of
    // number.
    figures: Vec<Figures>,
    // The index of each commodity's figures in `figures`, or 0 if the commodity is not held.
    places: [u8; MAX_COMMODITIES],
}

impl HeldFigures {
    // Returns the figures of an account that holds nothing, with room for the figures of `commodities` held
    // commodities.
    pub(crate) fn with_capacity(
        alloc: Global,
        commodities: usize,
    ) -> Result<HeldFigures, AllocError>
        requires { commodities ≤ MAX_COMMODITIES }
        ensures figures { IfOk result (λ held. held.figures.items ≡ no_figures ∷ []) }
        ensures places { IfOk result (λ held. held.places ≡ replicate MAX_COMMODITIES 0) }
    {
        let mut figures = Vec::with_capacity(alloc, commodities + 1)?;
        figures.push(Figures::of_nothing())?;
        Ok(HeldFigures {
            figures,
            places: [0; MAX_COMMODITIES],
        })
    }

    // Adds the figures of a held commodity.
    pub(crate) fn push(&mut self, commodity: usize, figures: Figures) -> Result<(), AllocError>
        requires known { commodity < MAX_COMMODITIES }
        requires few { length self.old.figures.items ≤ MAX_COMMODITIES }
        ensures figures { OnOk result (self.new.figures.items ≡ self.old.figures.items ++ figures ∷ []) }
        ensures places { OnOk result (self.new.places
            ≡ slice_set self.old.places commodity (length self.old.figures.items)) }
    {
        self.places[commodity] = self.figures.len() as u8;
        self.figures.push(figures)?;
        Ok(())
    }

    // Returns a copy. Fails if memory runs out.
    pub(crate) fn copied(&self, alloc: Global) -> Result<HeldFigures, AllocError>
        ensures figures { IfOk result (λ copy. copy.figures.items ≡ self.now.figures.items) }
        ensures places { IfOk result (λ copy. copy.places ≡ self.now.places) }
    {
        Ok(HeldFigures {
            figures: Vec::from_slice(alloc, &self.figures)?,
            places: self.places,
        })
    }

    // Returns the figures of a commodity.
    pub(crate) fn of(&self, commodity: usize) -> &Figures
        requires known { commodity < MAX_COMMODITIES }
        requires placed { place_of self.now commodity < length self.now.figures.items }
        ensures { (d : Figures) → slice_index_or self.now.figures.items (place_of self.now commodity) d ≡ result.now }
    {
        &self.figures[self.places[commodity] as usize]
    }

    // Returns whether a commodity is held.
    pub(crate) fn holds(&self, commodity: usize) -> bool
        requires { commodity < MAX_COMMODITIES }
        ensures { result ≡ not (place_of self.now commodity == 0) }
    {
        self.places[commodity] != 0
    }
}
