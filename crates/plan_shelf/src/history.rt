//! The history of a shelf: its publications, in order. A history only grows, and exists only in the proofs. Threads
//! share one word of it, the number of publications.
ghost use Rattle.plan_shelf.specs.near.History.{IsLonger, counter_of};
ghost use Rattle.std.specs.Prelude.{◌≡◌, ◌<◌, ◌-◌, ◌^◌, ◌⊎◌, ◌↔◌, [], ◌∷◌, ◌++◌};
ghost use Rattle.std.specs.Prelude.{IsTrue, MatchBool, length};
ghost use mathlib.Core.List.{IsPrefix};

use logbook::{Gain, Offer, Plain, Play, Rule, Seen, Start, Word};
use plan_compiler::set::CompiledSet;
use std::marker::{Brand, Model, PhantomData};

/// Names a shelf by the book of its history.
pub trait ShelfName {
    ghost use Rattle.logbook.specs.Pages.{Book};

    ghost book: { Book };
}

impl ShelfName for Brand {
    ghost book = { record { number = 0; log_name = 0; cells_name = 0 } };
}

// The rule of a history: its word is the number of publications.
struct Counted;

impl Rule<CompiledSet, u64> for Counted {
    ghost use Rattle.plan_shelf.specs.near.History.{CountsPublications};
    ghost use Rattle.std.specs.Prelude.{[]};
    ghost use base.Fml.{ftrue};

    ghost holds = { λ words sets. CountsPublications words sets };

    ghost first = { [] };

    ghost hinted = { λ hint sets. Unit {0} };

    ghost shows = { λ sets. [] };

    ghost keeps = { λ names sets. ftrue };

    ghost moves = { λ ask before after answer. Unit {0} };
}

// Adding a set trades nothing.
struct Nothing;

impl Gain<CompiledSet, u64> for Nothing {
    ghost use base.Fml.{ftrue};

    ghost after = { λ names about answer. ftrue };
}

// The step that adds a set.
struct Add;

impl Play<CompiledSet, u64> for Add {
    ghost use Rattle.plan_shelf.specs.near.History.{AddsPublication};

    ghost then = { AddsPublication };
}

impl Plain<CompiledSet, CompiledSet, u64> for Add {
    ghost use Rattle.std.specs.Prelude.{None};

    ghost ask = { λ set. set };

    ghost state = { λ set. None };
}

/// The history of a future shelf. It has no publications and belongs to no shelf yet. Contracts see its book and its
/// publications.
#[derive(Drop)]
pub struct History {
    count: Word<CompiledSet, u64, Counted>,
    seen: Seen<CompiledSet, u64, Counted>,
}

impl Model for History {
    ghost use Rattle.plan_shelf.specs.near.History.{HistoryView, counter_of};
    ghost use Rattle.std.specs.Prelude.{◌≡◌, []};

    ghost Value = { HistoryView };

    ghost view = { λ h. record { book = h.seen.book; published = h.seen.log } };

    ghost invariant = { λ h. (h.seen.log ≡ []) × (h.count ≡ counter_of h.seen.book) };
}

impl History {
    /// Returns a new history, with its own book.
    pub fn new() -> History
        ensures { result.published ≡ [] }
    {
        let (seen, mut first, _second) = Seen::open(Start::alone(), 0, 0);
        History {
            count: Word::tracked(0, &mut first),
            seen,
        }
    }

    /// Converts the history into its counter and its empty beginning, for a shelf of this name.
    pub(crate) fn for_shelf<S: ShelfName>(self) -> (Counter<S>, Beginning<S>)
        requires { self.book ≡ S.book }
        ensures { result.1 ≡ [] }
    {
        let History { count, seen } = self;
        let counter = Counter {
            count,
            of: PhantomData,
        };
        let beginning = Beginning {
            count: 0,
            seen,
            of: PhantomData,
        };
        (counter, beginning)
    }
}

/// The number of publications of a shelf.
#[derive(Drop)]
pub(crate) struct Counter<S: ShelfName> {
    count: Word<CompiledSet, u64, Counted>,
    of: PhantomData<S>,
    ghost of_shelf: { count ≡ counter_of S.book },
}

/// The publications of a shelf up to one of them. Contracts see their parameter sets, in order.
#[derive(Drop)]
pub(crate) struct Beginning<S: ShelfName> {
    count: u64,
    seen: Seen<CompiledSet, u64, Counted>,
    of: PhantomData<S>,
}

impl<S: ShelfName> Model for Beginning<S> {
    ghost use Rattle.plan_compiler.specs.Compiled.{SetView};
    ghost use Rattle.std.specs.Prelude.{◌≡◌, List, length};

    ghost Value = { List SetView };

    ghost view = { λ b. b.seen.log };

    ghost invariant = { λ b. (b.count ≡ length b.seen.log) × (b.seen.book ≡ S.book) };
}

impl<S: ShelfName> Beginning<S> {
    /// Returns the number of publications of the beginning.
    pub(crate) fn len(&self) -> u64
        ensures { result ≡ length self.now }
    {
        self.count
    }

    /// Returns whether the last publication has the largest possible number.
    pub(crate) fn is_full(&self) -> bool
        ensures { IsTrue result ↔ (length self.now ≡ 2 ^ 64 - 1) }
    {
        self.count == u64::MAX
    }

    /// Returns a copy of the beginning.
    pub(crate) fn copied(&self) -> Beginning<S>
        ensures { result ≡ self.now }
    {
        Beginning {
            count: self.count,
            seen: self.seen.again(),
            of: PhantomData,
        }
    }

    /// Returns the longer of two beginnings. Both are prefixes of it.
    pub(crate) fn longer(&self, other: &Beginning<S>) -> Beginning<S>
        ensures one { (result ≡ self.now) ⊎ (result ≡ other.now) }
        ensures this { IsPrefix self.now result }
        ensures that { IsPrefix other.now result }
    {
        let mut both = self.seen.again();
        both.learn(&other.seen);
        if self.count < other.count {
            other.copied()
        } else {
            self.copied()
        }
    }

    /// Adds a set to the history if the history is no longer than this beginning, and returns whether it was added. If
    /// not, the beginning becomes the whole history.
    pub(crate) fn add(&mut self, counter: &Counter<S>, set: &CompiledSet) -> bool
        requires { length self.old < 2 ^ 64 - 1 }
        ensures { MatchBool result (self.new ≡ self.old ++ set.now ∷ []) (IsLonger self.old self.new) }
    {
        let mut offer: Offer<CompiledSet, u64, Counted, Nothing> = self
            .seen
            .plain::<Nothing, CompiledSet, Add>(set);
        let mut pen = self.seen.no_pen();
        let count = self.count;
        let found = counter
            .count
            .compare_exchange::<Add, Nothing>(
                count,
                count + 1,
                &mut self.seen,
                &mut offer,
                &mut pen,
            );
        let added = found == count;
        self.count = if added { count + 1 } else { found };
        added
    }
}
