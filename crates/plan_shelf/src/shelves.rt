//! Making a shelf.
ghost use Rattle.plan_shelf.specs.declared.faults.ShelfFault.TheVariants as fault;
ghost use Rattle.plan_shelf.specs.declared.shelves.TheConstants.{MAX_READERS};
ghost use Rattle.std.specs.Prelude.{◌≡◌, ◌<◌, ◌≤◌, ◌⊎◌, ◌↔◌, [], All, Err, IfErr, IfOk, vec_len};

use crate::faults::ShelfFault;
use crate::history::{History, ShelfName};
use crate::publishers::Publisher;
use crate::readers::Reader;
use crate::slots::Window;
use left_right::WriteHandle;
use std::alloc::{AllocError, Global};
use std::sync::Wait;

/// The largest number of readers of a shelf.
pub const MAX_READERS: usize = 16;

/// Returns an empty shelf, on which nothing is published: its publisher, and the given number of readers.
///
/// If the number of readers is 0 or over 16, it fails with `Readers` before anything is made. Otherwise it fails only
/// if memory runs out.
///
/// `history` must be a new history, and the type `S` must name its book. A function without such a type in its
/// signature calls a function over all `S` at `Brand`, with `History::new()`. That function calls `shelf`.
pub fn shelf<S: ShelfName, R: Wait + Drop>(
    rt: R,
    alloc: Global,
    history: History,
    readers: usize,
) -> Result<(Publisher<S, R>, Vec<Reader<S>>), ShelfFault>
    requires { history.book ≡ S.book }
    ensures readers { (result ≡ Err fault.Readers) ↔ ((readers ≡ 0) ⊎ (16 < readers)) }
    ensures ok { IfOk result (λ made. (made.0 ≡ []) × (vec_len made.1 ≡ readers) × All (λ reader. reader ≡ []) made.1.items) }
    ensures cause { IfErr result (λ cause. (cause ≡ fault.Readers) ⊎ (cause ≡ fault.OutOfMemory)) }
{
    if readers == 0 || readers > MAX_READERS {
        return Err(ShelfFault::Readers);
    }
    empty_shelf(rt, alloc, history, readers).map_err(|_| ShelfFault::OutOfMemory)
}

// An empty shelf with a valid number of readers.
fn empty_shelf<S: ShelfName, R: Wait + Drop>(
    rt: R,
    alloc: Global,
    history: History,
    readers: usize,
) -> Result<(Publisher<S, R>, Vec<Reader<S>>), AllocError>
    requires book { history.book ≡ S.book }
    requires readers { (0 < readers) × (readers ≤ MAX_READERS) }
    ensures { IfOk result (λ made. (made.0 ≡ []) × (vec_len made.1 ≡ readers) × All (λ reader. reader ≡ []) made.1.items) }
{
    let (counter, beginning) = history.for_shelf::<S>();
    let windows = WriteHandle::new(
        alloc,
        rt,
        Window { last: None },
        Window { last: None },
        readers,
    )?;
    let mut all = Vec::with_capacity(alloc, readers)?;
    for _ in 0..readers {
        all.push(Reader::new(windows.handle()?, beginning.copied()))?;
    }
    let publisher = Publisher {
        alloc,
        windows,
        counter,
        beginning,
    };
    Ok((publisher, all))
}
