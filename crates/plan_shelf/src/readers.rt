//! Reading the current parameter set.
ghost use Rattle.plan_shelf.specs.Publications.{IsLast};
ghost use Rattle.plan_shelf.specs.near.Looks.{Finds};
ghost use Rattle.std.specs.Arc.{arc_value};
ghost use Rattle.std.specs.Prelude.{◌≡◌, IfOk, IfSome, None, Ok, length};
ghost use mathlib.Core.List.{IsPrefix};

use crate::history::{Beginning, ShelfName};
use crate::publishers::Told;
use crate::slots::Window;
use left_right::ReadHandle;
use plan_compiler::set::CompiledSet;
use std::alloc::AllocError;
use std::marker::Model;
use std::sync::{Arc, Wait};
use std::thread;

/// A reader of a shelf. Contracts see the published sets that it knows of, in order. They are a prefix of the sets of
/// the shelf.
#[derive(Drop)]
pub struct Reader<S: ShelfName> {
    windows: ReadHandle<Window<S>>,
    beginning: Beginning<S>,
}

impl<S: ShelfName> Model for Reader<S> {
    ghost use Rattle.plan_compiler.specs.Compiled.{SetView};
    ghost use Rattle.std.specs.Prelude.{List};

    ghost Value = { List SetView };

    ghost view = { λ r. r.beginning };
}

/// The result of one look.
pub(crate) enum Look {
    /// Nothing is published, or the publisher was dropped.
    Nothing,
    /// The publication is older than one that the reader knows of.
    Older,
    /// The last publication: its number and its set.
    Last(u64, Arc<CompiledSet>),
}

impl<S: ShelfName> Reader<S> {
    /// Returns a reader that knows of these publications.
    pub(crate) fn new(windows: ReadHandle<Window<S>>, beginning: Beginning<S>) -> Reader<S>
        ensures { result ≡ beginning }
    {
        Reader { windows, beginning }
    }

    /// Learns of a publication. From now on the reader finds that publication or a later one.
    pub fn learn(&mut self, told: Told<S>)
        ensures told { IsPrefix told self.new }
        ensures old { IsPrefix self.old self.new }
    {
        self.beginning = self.beginning.longer(&told.beginning);
    }

    /// Returns the current set and the number of its publication. It is never an earlier set than one that the reader
    /// found or learned of.
    ///
    /// Returns `None` if nothing is published, or if the publisher was dropped. `Err` is out of memory.
    pub fn current<R: Wait>(
        &mut self,
        rt: &R,
    ) -> Result<Option<(u64, Arc<CompiledSet>)>, AllocError>
        ensures old { IsPrefix self.old self.new }
        ensures some { IfOk result (λ found. IfSome found (λ current.
            (current.0 ≡ length self.new) × IsLast self.new (arc_value current.1))) }
        ensures none { result ≡ Ok None → self.new ≡ self.old }
    {
        for _ in rt.forever() {
            match self.look()? {
                Look::Nothing => return Ok(None),
                Look::Older => thread::yield_now(),
                Look::Last(number, set) => return Ok(Some((number, set))),
            }
        }
        unreachable!()
    }

    // Looks once.
    fn look(&mut self) -> Result<Look, AllocError>
        ensures old { IsPrefix self.old self.new }
        ensures found { IfOk result (Finds self.old self.new) }
    {
        let Some(window) = self.windows.enter() else {
            return Ok(Look::Nothing);
        };
        let Some(slot) = &window.last else {
            return Ok(Look::Nothing);
        };
        let Some(published) = slot.get() else {
            return Ok(Look::Older);
        };
        if published.beginning.len() < self.beginning.len() {
            return Ok(Look::Older);
        }
        self.beginning = self.beginning.longer(&published.beginning);
        let set = Arc::try_clone(&published.set)?;
        Ok(Look::Last(self.beginning.len(), set))
    }
}
