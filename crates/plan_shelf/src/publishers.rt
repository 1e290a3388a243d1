//! Publishing a parameter set.
ghost use Rattle.plan_shelf.specs.declared.faults.ShelfFault.TheVariants as fault;
ghost use Rattle.std.specs.Arc.{arc_value};
ghost use Rattle.std.specs.Prelude.{◌≡◌, ◌-◌, ◌^◌, ◌⊎◌, ◌↔◌, [], ◌∷◌, ◌++◌};
ghost use Rattle.std.specs.Prelude.{IfErr, IfOk, IsErrAnd, length};

use crate::faults::{NotPublished, ShelfFault};
use crate::history::{Beginning, Counter, ShelfName};
use crate::slots::{Publication, Published, Slot, Window};
use left_right::{Absorb, WriteHandle};
use plan_compiler::set::CompiledSet;
use std::alloc::{AllocError, Global};
use std::marker::Model;
use std::sync::{Arc, OnceLock, Wait};

/// The result of a publication, from which readers can learn of it. Contracts see the sets that were published up to
/// it, in order.
#[derive(Drop)]
pub struct Told<S: ShelfName> {
    pub(crate) beginning: Beginning<S>,
}

impl<S: ShelfName> Model for Told<S> {
    ghost use Rattle.plan_compiler.specs.Compiled.{SetView};
    ghost use Rattle.std.specs.Prelude.{List};

    ghost Value = { List SetView };

    ghost view = { λ t. t.beginning };
}

impl<S: ShelfName> Told<S> {
    /// Returns the publication's number. Publications are numbered from 1.
    pub fn number(&self) -> u64
        ensures { result ≡ length self.now }
    {
        self.beginning.len()
    }
}

/// The publisher of a shelf. Contracts see the sets that were published, in order.
///
/// After the publisher is dropped, readers find no set.
#[derive(Drop)]
pub struct Publisher<S: ShelfName, R: Wait + Drop>
where
    Window<S>: Absorb<Publication<S>, State = ()>,
{
    pub(crate) alloc: Global,
    pub(crate) windows: WriteHandle<Window<S>, Publication<S>, R>,
    pub(crate) counter: Counter<S>,
    pub(crate) beginning: Beginning<S>,
}

impl<S: ShelfName, R: Wait + Drop> Model for Publisher<S, R>
where
    Window<S>: Absorb<Publication<S>, State = ()>,
{
    ghost use Rattle.plan_compiler.specs.Compiled.{SetView};
    ghost use Rattle.std.specs.Prelude.{List};

    ghost Value = { List SetView };

    ghost view = { λ p. p.beginning };
}

impl<S: ShelfName, R: Wait + Drop> Publisher<S, R>
where
    Window<S>: Absorb<Publication<S>, State = ()>,
{
    /// Publishes a set, and returns its publication.
    ///
    /// It fails with `Last` after publication number 2^64 - 1, and with `OutOfMemory` if memory runs out. Then nothing
    /// is published, and the error contains the set.
    pub fn publish(&mut self, set: Arc<CompiledSet>) -> Result<Told<S>, NotPublished>
        ensures ok { IfOk result (λ told. (self.new ≡ self.old ++ arc_value set ∷ []) × (told ≡ self.new)) }
        ensures err { IfErr result (λ refused. (self.new ≡ self.old) × (refused.set ≡ set)) }
        ensures last { IsErrAnd result (λ refused. refused.cause ≡ fault.Last) ↔ (length self.old ≡ 2 ^ 64 - 1) }
        ensures cause { IfErr result (λ refused. (refused.cause ≡ fault.Last) ⊎ (refused.cause ≡ fault.OutOfMemory)) }
    {
        if self.beginning.is_full() {
            let cause = ShelfFault::Last;
            return Err(NotPublished { cause, set });
        }
        let Ok(slot) = self.new_slot() else {
            let cause = ShelfFault::OutOfMemory;
            return Err(NotPublished { cause, set });
        };
        let mut beginning = self.beginning.copied();
        if !beginning.add(&self.counter, &set) {
            // The set is always added, because nothing else has the counter.
            let cause = ShelfFault::OutOfMemory;
            return Err(NotPublished { cause, set });
        }
        let told = Told {
            beginning: beginning.copied(),
        };
        let _ = slot.try_set(Published {
            set,
            beginning: beginning.copied(),
        });
        self.beginning = beginning;
        let _ = self.windows.publish();
        Ok(told)
    }

    // The slot of a publication, appended for both windows. A publication allocates no other memory.
    fn new_slot(&mut self) -> Result<Slot<S>, AllocError>
        ensures { self.new ≡ self.old }
    {
        let slot = Arc::new(self.alloc, OnceLock::new())?;
        let publication = Publication {
            slot: Arc::try_clone(&slot)?,
        };
        match self.windows.append(publication) {
            Ok(()) => Ok(slot),
            Err(_) => Err(AllocError),
        }
    }
}
