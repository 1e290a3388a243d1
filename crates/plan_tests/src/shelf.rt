//! Readers of a shelf. No clause says that they find what was published, also while another thread publishes, or that
//! they find nothing after the publisher is dropped.
ghost use Rattle.std.specs.Prelude.{◌≡◌};

use plan_compiler::set::CompiledSet;
use plan_shelf::history::{History, ShelfName};
use plan_shelf::publishers::Publisher;
use plan_shelf::readers::Reader;
use plan_shelf::shelves::shelf;
use sample_files::calendar::{NEXT, PARAMS};
use sample_sets::files::set_of;
use std::alloc::Global;
use std::marker::Brand;
use std::process::Abort;
use std::sync::atomic::AtomicBool;
use std::sync::atomic::Ordering::SeqCst;
use std::sync::{Arc, Wait};
use std::thread;
use std::thread::Threads;

// Whether the set is the set of this publication: D1 for number 1, and D2 for number 2.
fn is_publication(number: u64, set: &CompiledSet) -> bool {
    let id = set.tables().set_id().as_bytes();
    match number {
        1 => id == b"D1".as_slice(),
        2 => id == b"D2".as_slice(),
        _ => false,
    }
}

// Publishes a parameter set and the next one. A reader learns of them in reverse order, and finds the second.
fn publishes_and_reads<S: ShelfName, R: Wait + Abort>(
    rt: &R,
    alloc: Global,
    publisher: &mut Publisher<S, &R>,
    reader: &mut Reader<S>,
) {
    let first = publisher
        .publish(set_of(alloc, PARAMS).expect(rt, "a set"))
        .ok();
    let first = first.expect(rt, "a publication");
    let second = publisher
        .publish(set_of(alloc, NEXT).expect(rt, "a set"))
        .ok();
    let second = second.expect(rt, "a second publication");
    assert!(rt; first.number() == 1 && second.number() == 2);
    reader.learn(second);
    reader.learn(first);
    let found = reader.current(rt).expect(rt, "memory for a set");
    let (number, set) = found.expect(rt, "a current set");
    assert!(rt; number == 2 && is_publication(number, &set));
}

// Whether the reader finds no set.
fn finds_nothing<S: ShelfName, R: Wait + Abort>(rt: &R, reader: &mut Reader<S>) -> bool {
    reader.current(rt).expect(rt, "memory suffices").is_none()
}

// Tests what a reader finds before the first publication, after the second, and after the publisher is dropped.
fn learns<S: ShelfName, R: Wait + Abort>(rt: &R, alloc: Global, history: History)
    requires { history.book ≡ S.book }
{
    let made = shelf::<S, &R>(rt, alloc, history, 1);
    let (mut publisher, mut readers) = made.expect(rt, "a shelf");
    let mut reader = readers.pop().expect(rt, "a reader");
    assert!(rt; finds_nothing(rt, &mut reader));
    publishes_and_reads(rt, alloc, &mut publisher, &mut reader);
    drop(publisher);
    assert!(rt; finds_nothing(rt, &mut reader));
}

#[test]
fn one_reader(rt: HostRuntime) {
    learns::<Brand, _>(&rt, rt.alloc(), History::new());
}

// Looks until publication 2 is current, at most 10^7 times, and once more after the publisher has ended. Returns
// whether it became current, no number decreased, and each number had its set.
fn reads_to_the_second<S: ShelfName, R: Wait>(
    rt: &R,
    reader: &mut Reader<S>,
    ended: &AtomicBool,
) -> bool {
    let mut last = 0u64;
    for _ in 0..10_000_000 {
        let is_last_look = ended.load(SeqCst);
        if let Ok(Some((number, set))) = reader.current(rt) {
            if number < last || !is_publication(number, &set) {
                return false;
            }
            last = number;
        }
        if last == 2 || is_last_look {
            return last == 2;
        }
        thread::yield_now();
    }
    false
}

// Runs two readers, each in its own thread, and returns whether both read up to the second publication.
fn both_read<S: ShelfName + Send + Sync, R: Threads + Wait + Sync>(
    rt: &R,
    one: &mut Reader<S>,
    other: &mut Reader<S>,
    ended: &AtomicBool,
) -> bool {
    let (first, second) = thread::join(
        rt,
        move || reads_to_the_second(rt, one, ended),
        move || reads_to_the_second(rt, other, ended),
    );
    first && second
}

// Publishes a parameter set and the next one, and signals the end. Returns whether both were published.
fn publishes_both<S: ShelfName, R: Wait + Abort>(
    rt: &R,
    alloc: Global,
    publisher: &mut Publisher<S, &R>,
    ended: &AtomicBool,
) -> bool {
    let first = publisher
        .publish(set_of(alloc, PARAMS).expect(rt, "a set"))
        .is_ok();
    let second = publisher
        .publish(set_of(alloc, NEXT).expect(rt, "a set"))
        .is_ok();
    ended.store(true, SeqCst);
    first && second
}

// Whether two readers, concurrently with a publisher, read up to its second publication.
fn reads_beside<S: ShelfName + Send + Sync, R: Threads + Wait + Abort + Sync>(
    rt: &R,
    alloc: Global,
    publisher: &mut Publisher<S, &R>,
    one: &mut Reader<S>,
    other: &mut Reader<S>,
) -> bool {
    let ended = AtomicBool::new(false);
    let ended = &ended;
    let (read, published) = thread::join(
        rt,
        move || both_read(rt, one, other, ended),
        move || publishes_both(rt, alloc, publisher, ended),
    );
    read && published
}

fn beside<S: ShelfName + Send + Sync, R: Threads + Wait + Abort + Sync>(
    rt: &R,
    alloc: Global,
    history: History,
)
    requires { history.book ≡ S.book }
{
    let made = shelf::<S, &R>(rt, alloc, history, 2);
    let (mut publisher, mut readers) = made.expect(rt, "a shelf");
    let mut one = readers.pop().expect(rt, "a reader");
    let mut other = readers.pop().expect(rt, "a second reader");
    assert!(rt; reads_beside(rt, alloc, &mut publisher, &mut one, &mut other));
}

#[test]
fn readers_beside_a_publisher(rt: HostRuntime) {
    beside::<Brand, _>(&rt, rt.alloc(), History::new());
}
