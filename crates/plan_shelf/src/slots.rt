//! The data that goes from the publisher to the readers of a shelf.
use crate::history::{Beginning, ShelfName};
use left_right::Absorb;
use plan_compiler::set::CompiledSet;
use std::alloc::AllocError;
use std::marker::Model;
use std::sync::{Arc, OnceLock};

/// A published parameter set, with the publications up to it. Contracts see the sets of these publications.
#[derive(Drop)]
pub struct Published<S: ShelfName> {
    pub(crate) set: Arc<CompiledSet>,
    pub(crate) beginning: Beginning<S>,
}

impl<S: ShelfName> Model for Published<S> {
    ghost use Rattle.plan_compiler.specs.Compiled.{SetView};
    ghost use Rattle.plan_shelf.specs.Publications.{IsLast};
    ghost use Rattle.std.specs.Arc.{arc_value};
    ghost use Rattle.std.specs.Prelude.{List};

    ghost Value = { List SetView };

    ghost view = { λ p. p.beginning };

    ghost invariant = { λ p. IsLast p.beginning (arc_value p.set) };
}

/// A slot for a published set. A slot is made, and passed to both windows, before a set is published in it.
pub type Slot<S> = Arc<OnceLock<Published<S>>>;

/// The value that readers look at: the slot of the last publication. There are two windows, and readers look at one of
/// them.
#[derive(Drop)]
pub struct Window<S: ShelfName> {
    pub(crate) last: Option<Slot<S>>,
}

/// A publication on its way to both windows.
#[derive(Drop)]
pub struct Publication<S: ShelfName> {
    pub(crate) slot: Slot<S>,
}

// A publication never fails in a window. The window keeps its old slot only if there are already 2^64 - 1 other
// references to the new slot.
impl<S: ShelfName> Absorb<Publication<S>> for Window<S> {
    type State = ();

    ghost state = { λ _. tt };

    ghost applied = { λ _ _. tt };

    ghost never_fails = { Unit {0} };

    fn absorb_first(
        &mut self,
        publication: &Publication<S>,
        _other: &Window<S>,
    ) -> Result<(), AllocError> {
        if let Ok(slot) = Arc::try_clone(&publication.slot) {
            self.last = Some(slot);
        }
        Ok(())
    }
}
